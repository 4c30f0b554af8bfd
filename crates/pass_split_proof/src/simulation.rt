//! A framed run and the run of the parts of its module keep states beside each other.

ghost use Rattle.std.specs.Prelude.{ℕ, ℤ, List, ◌≡◌, ◌≤◌, false, length};
ghost use Rattle.pass_proofs.specs.frame_layout.declared.layout.Layouts.{Layouts};
ghost use Rattle.pass_proofs.specs.ir_base.declared.outcome.Word.{Word};
ghost use Rattle.pass_proofs.specs.ir_model.Names.{function_at};
ghost use Rattle.pass_proofs.specs.ir_model.declared.module.Module.{Module};
ghost use Rattle.pass_cleanup.specs.Cleaned.{plain_machine};
ghost use Rattle.pass_proofs.specs.pass_intrinsics.declared.shape.Part.{Part};
ghost use Rattle.pass_split_proof.specs.first_exits.Parted.{parted_module};
ghost use Rattle.pass_split_proof.specs.places.Places.{IsCodeOf, IsPlace};
ghost use Rattle.pass_split_proof.specs.simulation.Followed.{AreStepsFollowed};
ghost use Rattle.pass_split_proof.specs.simulation.Statement.{IsEntryOfParts, IsPartable, PartsKeepStates, parts_given};
ghost use Rattle.pass_split_proof.specs.states.Instances.{part_position};
ghost use Rattle.pass_split_proof.specs.states.Memories.{AreContents};
ghost use Rattle.pass_split_proof.specs.states.Related.{AreRelated};
ghost use Rattle.pass_proofs.specs.pass_split.Parts.{plain_shape};
ghost use Rattle.pass_proofs.specs.run_agreement.Agreements.{AgreesWithin};
ghost use Rattle.pass_proofs.specs.run_agreement.Machines.{at};
ghost use Rattle.pass_proofs.specs.run_framed.Framed.{FramedGiven, framed_given};
ghost use Rattle.run_access_worked.specs.run_plain.Plain.{PlainGiven, plain_first};
ghost use Rattle.pass_proofs.specs.run_source.Source.{first_state};
ghost use Rattle.pass_proofs.specs.run_states.moved_states.Beside.{framed_machine};
ghost use Rattle.pass_proofs.specs.run_step.Step.{first_world};

/// The states in which the runs start are related, where the entry is no coroutine and the other is what becomes of it.
pub fn runs_start_related()
    ensures { (g : FramedGiven) (h : PlainGiven) (entry other : ℕ) (args : List Word)
        → (function_at g.given.code entry).coroutine ≡ false
        → IsCodeOf (function_at g.given.code entry) (function_at h.code other)
        (plain_shape (function_at g.given.code entry)) Part.Ramp
        → IsPlace (plain_shape (function_at g.given.code entry)) Part.Ramp (function_at g.given.code entry)
        (function_at h.code other) 0 0 0 0
        → (function_at h.code other).params ≡ (function_at g.given.code entry).params
        → length (function_at g.given.code entry).names ≤ length (function_at h.code other).names
        → other ≡ part_position g entry Part.Ramp → first_world h.code ≡ first_world g.given.code
        → AreContents g.given.code
        → AreRelated g h (first_state g.given.code entry args) (plain_first h.code other args) }
{}

/// Where states are kept beside each other the runs agree within 4.
pub fn states_of_parts_bound_steps()
    ensures { (ls : Layouts) (m : Module) → PartsKeepStates ls m → (entry other : ℕ) (args : List Word)
        (answers : List ℤ) → IsEntryOfParts ls m entry other
        → AgreesWithin 4 (at (framed_machine m ls entry args answers))
        (at (plain_machine (parted_module ls m) other args answers)) }
{}

/// The runs of a framed module and of its parts start in related states.
pub fn runs_of_parts_start_related()
    ensures { (ls : Layouts) (m : Module) → IsPartable ls m → (entry other : ℕ) (args : List Word) (answers : List ℤ)
        → IsEntryOfParts ls m entry other
        → AreRelated (framed_given m ls.coroutines answers) (parts_given ls m answers) (first_state m entry args)
        (plain_first (parted_module ls m) other args) }
{}

/// Where each step of framed runs is followed in the parts, states are kept beside each other.
pub fn followed_steps_keep_states()
    ensures { (ls : Layouts) (m : Module)
        → ((entry other : ℕ) (args : List Word) (answers : List ℤ) → IsEntryOfParts ls m entry other
        → AreRelated (framed_given m ls.coroutines answers) (parts_given ls m answers) (first_state m entry args)
        (plain_first (parted_module ls m) other args))
        → ((entry other : ℕ) (args : List Word) (answers : List ℤ) → IsEntryOfParts ls m entry other
        → AreStepsFollowed (framed_given m ls.coroutines answers) (parts_given ls m answers) entry args)
        → PartsKeepStates ls m }
{}
