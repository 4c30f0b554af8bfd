//! That blocks on the edges of coroutines that leave windows keep the meaning of framed modules.
//!
//! With these blocks each framed run agrees within 2 with the run of the module (`exit_blocks_keep_framed_meaning`).
//! Locals have to be positions of their functions' tables. Coroutines have to break no rule of functions and not K3,
//! and to enter phis by jumps alone. Splitting is putting these blocks and then making the parts
//! (`splitting_begins_with_exit_blocks`).

ghost use Rattle.std.specs.Prelude.{◌≡◌, ℕ, true, ℤ, List};
ghost use Rattle.ir_model.specs.declared.module.Function.{Function};
ghost use Rattle.ir_model.specs.declared.module.Module.{Module};
ghost use Rattle.pass_exits_proof.specs.exits.states.Exits.{KeepsExits, AreExitsKept, exits_split};
ghost use Rattle.pass_fetch_proof.specs.run_states.moved_states.Moving.{IsMovedTo};
ghost use Rattle.pass_split.specs.pass_exits.ExitBlocks.{with_exit_blocks};
ghost use Rattle.pass_fetch_proof.specs.run_agreement.Agreements.{AgreesWithin};
ghost use Rattle.pass_fetch_proof.specs.ir_base.declared.outcome.Word.{Word};
ghost use Rattle.pass_fetch_proof.specs.ir_laws.facts.sound_states.Named.{AreLocalsNamed};
ghost use Rattle.pass_fetch_proof.specs.frame_layout.declared.layout.Layouts.{Layouts};
ghost use Rattle.pass_fetch_proof.specs.run_framed.Framed.{FramedAt};
ghost use Rattle.pass_fetch_proof.specs.run_agreement.Costs.{AgreesBy, IsNear};
ghost use Rattle.pass_fetch_proof.specs.run_states.moved_states.Beside.{IsMovedIn, framed_machine, AllPayFor};
ghost use Rattle.pass_fetch_proof.specs.run_source.declared.state.State.{State};

/// With blocks on the edges that leave windows the blocks of a coroutine are moved, and all else stays at its place in its block.
pub fn exit_blocks_move_coroutines()
    ensures { (m : Module) (k : ℕ) (f : Function) → f.coroutine ≡ true → KeepsExits m k f → (spot : ℕ → ℕ) × IsMovedTo f (with_exit_blocks f) spot }
{}

/// Where edges that leave windows have blocks, each framed run agrees within 2 with the run of the module: a step through an edge
/// with a block becomes two, and each other one stays one. It asks that locals are positions of their functions' tables of names, and
/// that coroutines break no rule of functions, and not K3, and that jumps alone lead to their blocks with phis.
pub fn exit_blocks_keep_framed_meaning()
    ensures { (m : Module) → AreLocalsNamed m → AreExitsKept m → (layouts : Layouts) (entry : ℕ) (args : List Word) (answers : List ℤ) → AgreesWithin 2 (FramedAt m layouts entry args answers) (FramedAt (exits_split m) layouts entry args answers) }
{}

/// Each state is the module's with its places moved; those in between are one step away from one.
pub fn exit_blocks_keep_framed_states()
    ensures { (m : Module) → AreLocalsNamed m → AreExitsKept m
        → (layouts : Layouts) (entry : ℕ) (args : List Word) (answers : List ℤ)
        → AgreesBy (IsMovedIn m (exits_split m)) (IsNear (framed_machine (exits_split m) layouts entry args answers) 2
        (IsMovedIn m (exits_split m))) (framed_machine m layouts entry args answers) (λ s. 2)
        (framed_machine (exits_split m) layouts entry args answers) (λ t. 1) }
{}

/// They cost a step where an edge leaves a window and nothing elsewhere, by whatever steps cost the next pass.
pub fn exit_blocks_cost_at_edges()
    ensures { (m : Module) → AreLocalsNamed m → AreExitsKept m
        → (layouts : Layouts) (entry : ℕ) (args : List Word) (answers : List ℤ) (price cost : State → ℕ)
        → AllPayFor m (exits_split m) layouts answers price cost
        → AgreesBy (IsMovedIn m (exits_split m)) (IsNear (framed_machine (exits_split m) layouts entry args answers) 2
        (IsMovedIn m (exits_split m))) (framed_machine m layouts entry args answers) price
        (framed_machine (exits_split m) layouts entry args answers) cost }
{}
