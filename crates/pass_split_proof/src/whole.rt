//! Splitting keeps meaning where no call gives a frame.
//!
//! Each kind of step is followed by a law of its own. What these ask of places is `ArePremisesMet`, which rules of the
//! module and the code of its parts give. What they ask of states are invariants of framed runs (`own_blocks`, `held`,
//! and of other libraries which places are reached and that values fit their types).

ghost use Rattle.std.specs.Prelude.{ℕ, ℤ, List};
ghost use Rattle.pass_proofs.specs.frame_layout.declared.layout.Layouts.{Layouts};
ghost use Rattle.pass_proofs.specs.ir_base.declared.outcome.Word.{Word};
ghost use Rattle.pass_proofs.specs.ir_model.declared.module.Module.{Module};
ghost use Rattle.pass_cleanup.specs.Cleaned.{plain_machine};
ghost use Rattle.pass_split_proof.specs.first_exits.Parted.{parted_module};
ghost use Rattle.pass_split_proof.specs.simulation.Given.{GivesNoFrame};
ghost use Rattle.pass_split_proof.specs.simulation.Premises.{ArePremisesMet};
ghost use Rattle.pass_split_proof.specs.simulation.Statement.{IsEntryOfParts, IsPartable, parts_given};
ghost use Rattle.pass_split_proof.specs.whole.Whole.{PartsKeepCalls};
ghost use Rattle.pass_proofs.specs.run_agreement.Agreements.{AgreesWithin};
ghost use Rattle.pass_proofs.specs.run_agreement.Machines.{at};
ghost use Rattle.pass_proofs.specs.run_framed.Framed.{framed_given};
ghost use Rattle.pass_proofs.specs.run_states.moved_states.Beside.{framed_machine};
ghost use Rattle.run_types.specs.Rules.{KeepsAllTypes};
ghost use Rattle.run_types.specs.States.{AreArguments};

/// A framed module in which no call gives a frame and its parts keep states beside each other, where values have their
/// types and what steps ask of the module is met.
pub fn parts_keep_calls()
    ensures { (ls : Layouts) (m : Module) → IsPartable ls m → GivesNoFrame m → KeepsAllTypes m
        → ((answers : List ℤ) → ArePremisesMet (framed_given m ls.coroutines answers) (parts_given ls m answers))
        → PartsKeepCalls ls m }
{}

/// So the runs agree within 4.
pub fn calls_of_parts_bound_steps()
    ensures { (ls : Layouts) (m : Module) → PartsKeepCalls ls m → (entry other : ℕ) (args : List Word)
        (answers : List ℤ) → IsEntryOfParts ls m entry other → AreArguments m entry args
        → AgreesWithin 4 (at (framed_machine m ls entry args answers))
        (at (plain_machine (parted_module ls m) other args answers)) }
{}
