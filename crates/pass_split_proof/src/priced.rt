//! Splitting in whole: blocks on edges that leave windows are paid by the edges.
//!
//! A step of a framed run costs at most 4, by what the parts spend: a terminator and the jump of its edge's block 2
//! each. So both passes together agree within 4 (`split_runs_agree`), as the parts alone do.

ghost use Rattle.std.specs.Prelude.{ℕ, ℤ, List};
ghost use Rattle.pass_proofs.specs.frame_layout.declared.layout.Layouts.{Layouts};
ghost use Rattle.pass_proofs.specs.ir_base.declared.outcome.Word.{Word};
ghost use Rattle.pass_proofs.specs.ir_laws.facts.sound_states.Named.{AreLocalsNamed};
ghost use Rattle.pass_proofs.specs.ir_model.declared.module.Module.{Module};
ghost use Rattle.pass_cleanup.specs.Cleaned.{plain_machine};
ghost use Rattle.pass_proofs.specs.exits.states.Exits.{AreExitsKept, exits_split};
ghost use Rattle.pass_split_proof.specs.first_exits.Parted.{parted_module};
ghost use Rattle.pass_split_proof.specs.priced.Returns.{AllJumpBehind};
ghost use Rattle.pass_split_proof.specs.priced.Split.{SplitKeeps};
ghost use Rattle.pass_split_proof.specs.simulation.Statement.{IsEntryOfParts};
ghost use Rattle.pass_split_proof.specs.states.Related.{part_price};
ghost use Rattle.pass_split_proof.specs.whole.Whole.{PartsKeepCalls};
ghost use Rattle.pass_proofs.specs.run_agreement.Agreements.{AgreesWithin};
ghost use Rattle.pass_proofs.specs.run_agreement.Costs.{AgreesBy, IsNear};
ghost use Rattle.pass_proofs.specs.run_agreement.Machines.{at};
ghost use Rattle.pass_proofs.specs.run_framed.Framed.{framed_given};
ghost use Rattle.pass_proofs.specs.run_states.moved_states.Beside.{IsMovedIn, framed_machine};
ghost use Rattle.run_types.specs.States.{AreArguments};

/// With blocks on the edges that leave windows a step costs at most 4, where blocks behind suspends end in jumps.
pub fn exit_blocks_are_paid()
    ensures { (m : Module) → AreLocalsNamed m → AreExitsKept m → AllJumpBehind m → (layouts : Layouts) (entry : ℕ)
        (args : List Word) (answers : List ℤ) → AgreesBy (IsMovedIn m (exits_split m))
        (IsNear (framed_machine (exits_split m) layouts entry args answers) 2 (IsMovedIn m (exits_split m)))
        (framed_machine m layouts entry args answers) (λ s. 4)
        (framed_machine (exits_split m) layouts entry args answers)
        (part_price (framed_given (exits_split m) layouts.coroutines answers)) }
{}

/// So both passes in a row keep states beside each other, where the parts of the module with these blocks keep calls.
pub fn split_runs_keep_states()
    ensures { (layouts : Layouts) (m : Module) → AreLocalsNamed m → AreExitsKept m → AllJumpBehind m
        → PartsKeepCalls layouts (exits_split m) → (entry other : ℕ) (args : List Word) (answers : List ℤ)
        → IsEntryOfParts layouts (exits_split m) entry other → AreArguments (exits_split m) entry args
        → SplitKeeps layouts m entry other args answers }
{}

/// So a framed run agrees within 4 with the run of the parts, where that with these blocks keeps calls.
pub fn split_runs_agree()
    ensures { (layouts : Layouts) (m : Module) → AreLocalsNamed m → AreExitsKept m → AllJumpBehind m
        → PartsKeepCalls layouts (exits_split m) → (entry other : ℕ) (args : List Word) (answers : List ℤ)
        → IsEntryOfParts layouts (exits_split m) entry other → AreArguments (exits_split m) entry args
        → AgreesWithin 4 (at (framed_machine m layouts entry args answers))
        (at (plain_machine (parted_module layouts (exits_split m)) other args answers)) }
{}
