//! Splitting in whole, where calls give frames.
//!
//! The relation of states doesn't say where a ramp was given its frame, nor which part an instance runs in. That is
//! `KnowsGiven`, which each step keeps (`IsFollowed`). From states that know it each step of a framed run that gives
//! frames well is followed (`given_steps_are_followed`), and so the runs agree (`parts_keep_given_calls`).

ghost use Rattle.pass_cleanup.specs.Cleaned.{plain_machine};
ghost use Rattle.pass_split_proof.specs.pass_proofs.exits.states.Exits.{AreExitsKept, exits_split};
ghost use Rattle.pass_split_proof.specs.pass_proofs.frame_layout.declared.layout.Layouts.{Layouts};
ghost use Rattle.pass_split_proof.specs.pass_proofs.ir_base.declared.outcome.Outcome.{Outcome};
ghost use Rattle.pass_split_proof.specs.pass_proofs.ir_base.declared.outcome.Word.{Word};
ghost use Rattle.pass_split_proof.specs.pass_proofs.ir_laws.facts.sound_states.Named.{AreLocalsNamed};
ghost use Rattle.pass_split_proof.specs.pass_proofs.ir_model.Names.{function_at};
ghost use Rattle.pass_split_proof.specs.pass_proofs.ir_model.declared.module.Module.{Module};
ghost use Rattle.pass_split_proof.specs.pass_proofs.rule_names.declared.stage.Stage.{Stage};
ghost use Rattle.pass_split_proof.specs.pass_proofs.run_agreement.Agreements.{AgreesWithin};
ghost use Rattle.pass_split_proof.specs.pass_proofs.run_agreement.Machines.{IsFine, at};
ghost use Rattle.pass_split_proof.specs.pass_proofs.run_framed.Framed.{FramedGiven, framed_given, framed_state_at, framed_step};
ghost use Rattle.pass_split_proof.specs.pass_proofs.run_source.Source.{first_state};
ghost use Rattle.pass_split_proof.specs.pass_proofs.run_states.moved_states.Beside.{framed_machine};
ghost use Rattle.pass_split_given.specs.Premises.{AreGivenPremisesMet, GivesFramesWell, ReleasesWhenDestroyed};
ghost use Rattle.pass_split_given.specs.Whole.{PartsKeepGivenCalls};
ghost use Rattle.pass_split_proof.specs.first_exits.Parted.{parted_module};
ghost use Rattle.pass_split_proof.specs.given_begins.Runs.{NestsNoFrames};
ghost use Rattle.pass_split_proof.specs.given_calls.Ramps.{HasCalledRamps};
ghost use Rattle.pass_split_proof.specs.priced.Returns.{AllJumpBehind};
ghost use Rattle.pass_split_proof.specs.priced.Split.{SplitKeeps};
ghost use Rattle.pass_split_proof.specs.ready.Module.{IsFollowableIn};
ghost use Rattle.pass_split_proof.specs.simulation.Followed.{IsFollowed};
ghost use Rattle.pass_split_proof.specs.simulation.Knowing.{KnowsGiven};
ghost use Rattle.pass_split_proof.specs.simulation.Premises.{ArePremisesMet};
ghost use Rattle.pass_split_proof.specs.simulation.Statement.{IsEntryOfParts, parts_given};
ghost use Rattle.pass_split_proof.specs.states.Related.{AreRelated};
ghost use Rattle.run_access_worked.specs.run_plain.Plain.{PlainGiven, plain_first};
ghost use Rattle.run_access_worked.specs.run_plain.declared.state.PlainState.{PlainState as ThePlainState};
ghost use Rattle.std.specs.Prelude.{◌≡◌, ℕ, ℤ, List, false};

/// The states in which the runs start know all of frames that callers give: there are none.
pub fn runs_start_knowing()
    ensures { (g : FramedGiven) (h : PlainGiven) (entry other : ℕ) (args : List Word)
        → KnowsGiven g (first_state g.given.code entry args) (plain_first h.code other args) }
{}

/// In a run that gives frames well each step is followed from states that know of them.
pub fn given_steps_are_followed()
    ensures { (g : FramedGiven) (h : PlainGiven) → ArePremisesMet g h → AreGivenPremisesMet g h → (entry : ℕ)
        (args : List Word) → (function_at g.given.code entry).coroutine ≡ false
        → GivesFramesWell g entry args → (n : ℕ) (t : ThePlainState)
        (r : AreRelated g h (framed_state_at g entry args n) t) → KnowsGiven g (framed_state_at g entry args n) t
        → (framed_state_at g entry args n).outcome ≡ Outcome.Running
        → IsFine (framed_step g (framed_state_at g entry args n)).outcome
        → IsFollowed g h (framed_state_at g entry args n) t }
{}

/// A framed module and its parts keep states beside each other in runs that give frames well, where what steps ask of
/// the module is met and the runs start in related states.
pub fn parts_keep_given_calls()
    ensures { (ls : Layouts) (m : Module)
        → ((entry other : ℕ) (args : List Word) (answers : List ℤ) → IsEntryOfParts ls m entry other
        → AreRelated (framed_given m ls.coroutines answers) (parts_given ls m answers) (first_state m entry args)
        (plain_first (parted_module ls m) other args))
        → ((answers : List ℤ) → ArePremisesMet (framed_given m ls.coroutines answers) (parts_given ls m answers))
        → ((answers : List ℤ) → AreGivenPremisesMet (framed_given m ls.coroutines answers)
        (parts_given ls m answers)) → PartsKeepGivenCalls ls m }
{}

/// So it is of a module whose runs may be followed by the rules of another, which has the ramps that are called. A part
/// that a resume calls comes to no release, where calls give frames.
pub fn ruled_modules_keep_given_calls()
    ensures { (stage : Stage) (r : Module) (ls : Layouts) (m : Module) → IsFollowableIn stage r ls m
        → HasCalledRamps r m
        → ((answers : List ℤ) → NestsNoFrames (framed_given m ls.coroutines answers))
        → ((answers : List ℤ) → ReleasesWhenDestroyed (framed_given m ls.coroutines answers)
        (parts_given ls m answers)) → PartsKeepGivenCalls ls m }
{}

/// So the runs agree within 4.
pub fn given_calls_of_parts_bound_steps()
    ensures { (ls : Layouts) (m : Module) → PartsKeepGivenCalls ls m → (entry other : ℕ) (args : List Word)
        (answers : List ℤ) → IsEntryOfParts ls m entry other
        → GivesFramesWell (framed_given m ls.coroutines answers) entry args
        → AgreesWithin 4 (at (framed_machine m ls entry args answers))
        (at (plain_machine (parted_module ls m) other args answers)) }
{}

/// Both passes in a row keep states beside each other, with blocks on edges that leave windows.
pub fn given_split_runs_keep_states()
    ensures { (layouts : Layouts) (m : Module) → AreLocalsNamed m → AreExitsKept m → AllJumpBehind m
        → PartsKeepGivenCalls layouts (exits_split m) → (entry other : ℕ) (args : List Word) (answers : List ℤ)
        → IsEntryOfParts layouts (exits_split m) entry other
        → GivesFramesWell (framed_given (exits_split m) layouts.coroutines answers) entry args
        → SplitKeeps layouts m entry other args answers }
{}

/// And within 4 behind blocks on edges that leave windows, which the edges pay.
pub fn given_split_runs_agree()
    ensures { (layouts : Layouts) (m : Module) → AreLocalsNamed m → AreExitsKept m → AllJumpBehind m
        → PartsKeepGivenCalls layouts (exits_split m) → (entry other : ℕ) (args : List Word) (answers : List ℤ)
        → IsEntryOfParts layouts (exits_split m) entry other
        → GivesFramesWell (framed_given (exits_split m) layouts.coroutines answers) entry args
        → AgreesWithin 4 (at (framed_machine m layouts entry args answers))
        (at (plain_machine (parted_module layouts (exits_split m)) other args answers)) }
{}
