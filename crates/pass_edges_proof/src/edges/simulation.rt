//! That blocks on the edges of coroutines keep the meaning of sources.
//!
//! Each run agrees within 2 with the run of the module (`edge_blocks_keep_meaning`). Labels have to be positions of
//! their tables and to stand once. Phis' operands have to be for edges, and blocks with suspends have to end in
//! switches.

ghost use Rattle.std.specs.Prelude.{ℕ, ℤ, List};
ghost use Rattle.pass_early_proof.specs.run_agreement.Agreements.{AgreesWithin};
ghost use Rattle.pass_early_proof.specs.ir_base.declared.outcome.Word.{Word};
ghost use Rattle.pass_early_proof.specs.run_source.Source.{SourceAt};
ghost use Rattle.pass_edges_proof.specs.edges.states.MovedState.{AreEdgesKept, edges_split};
ghost use Rattle.ir_model.specs.declared.module.Frame.{Frame};
ghost use Rattle.ir_model.specs.declared.module.Module.{Module};
ghost use Rattle.pass_early_proof.specs.ir_laws.facts.sound_states.Named.{AreLocalsNamed, AreUsesNamed};
ghost use Rattle.pass_early_proof.specs.run_agreement.Costs.{AgreesBy};
ghost use Rattle.pass_early_proof.specs.early.early_states.Beside.{source_machine};
ghost use Rattle.pass_edges_proof.specs.edges.simulation.Beside.{IsNearlySplitOf, IsSplitOf};

/// Where coroutines' edges have blocks, each run agrees within 2 with the run of the module: a step through an edge with a
/// block becomes two, and each other one stays one. It asks that locals are positions of their functions' tables of names,
/// and of each coroutine that its labels are too and stand once, that the operands of phis are for edges, the first one for
/// an edge being the same as any other, and that a block with a suspend ends in a switch.
pub fn edge_blocks_keep_meaning()
    ensures { (m : Module) → AreLocalsNamed m → AreEdgesKept m → (sizes : List Frame) (entry : ℕ) (args : List Word) (answers : List ℤ) → AgreesWithin 2 (SourceAt m sizes entry args answers) (SourceAt (edges_split m) sizes entry args answers) }
{}

/// Each state is the module's with its places moved; those in between are one step away from one.
pub fn edge_blocks_keep_states()
    ensures { (m : Module) → AreLocalsNamed m → AreEdgesKept m
        → (sizes : List Frame) (entry : ℕ) (args : List Word) (answers : List ℤ)
        → AgreesBy (IsSplitOf m) (IsNearlySplitOf m sizes entry args answers)
        (source_machine m sizes entry args answers) (λ s. 2) (source_machine (edges_split m) sizes entry args answers)
        (λ t. 1) }
{}

/// Each local that the result defines is a position of its function's table of names, where each of the module is.
#[tactic(auto, using(crate::proofs::edges::simulation::Names::locals_named))]
pub fn edge_blocks_define_named_locals()
    ensures { (m : Module) → AreLocalsNamed m → AreLocalsNamed (edges_split m) }
{}

/// The same of the locals that it uses.
#[tactic(auto, using(crate::proofs::edges::simulation::Names::uses_named))]
pub fn edge_blocks_use_named_locals()
    ensures { (m : Module) → AreUsesNamed m → AreUsesNamed (edges_split m) }
{}
