//! The statements of elision, of each call of an entry.

ghost use Rattle.pass_elide_apart.specs.pass_elide_proof.Assembling.{KnowsSteps, elided_after, framed_after};
ghost use Rattle.pass_elide_apart.specs.pass_elide_proof.Counts.{LosesCalls, uncounted};
ghost use Rattle.pass_elide_apart.specs.pass_elide_proof.Elision.{Elision, elided};
ghost use Rattle.pass_elide_apart.specs.pass_elide_proof.Invariant.{DoGivenFramesLive};
ghost use Rattle.pass_elide_apart.specs.pass_elide_proof.Statement.{AreRelated, IsEntryCall, elided_run};
ghost use Rattle.pass_elide_lacks.specs.Keeps.{KeepsAsked};
ghost use Rattle.pass_elide_theorem.specs.Carried.{AgreesWithElided, AreCarried, DoFramesLive, FollowsLive};
ghost use Rattle.pass_elide_theorem.specs.Exact.{CoversShapes, exact_run, is_exact};
ghost use Rattle.pass_elide_theorem.specs.Ready.{IsElisionReady};
ghost use Rattle.pass_elide_apart.specs.pass_proofs.ir_base.declared.outcome.Word.{Word};
ghost use Rattle.pass_elide_apart.specs.pass_proofs.ir_model.declared.module.Module.{Module};
ghost use Rattle.pass_elide_apart.specs.pass_proofs.run_agreement.Agreements.{NeverUndefined};
ghost use Rattle.pass_elide_apart.specs.pass_proofs.run_agreement.Machines.{IsFine, at, state_at};
ghost use Rattle.pass_elide_apart.specs.pass_proofs.run_source.declared.state.State.{State};
ghost use Rattle.pass_elide_apart.specs.pass_elide_edges.States.{EndsFramed};
ghost use Rattle.std.specs.Prelude.{Bool, List, ◌≡◌, ℕ};

use pass_elide_kept::keeping::{destroyed_ends_have_freed, related_states_stay_related};
use pass_elide_kept::starting::runs_start_kept;
use pass_elide_lacks::states::giving_runs_lack_nothing;

/// What is carried through both runs is had where they start.
pub fn runs_start_carried()
    ensures { (e : Elision) (source : Module) (most entry : ℕ) (args : List Word) → IsElisionReady e source most
        → IsEntryCall e entry args → AreCarried e (framed_after e entry args 0) (elided_after e entry args 0) }
{
    runs_start_kept();
}

/// From what is carried each step of the exact run that isn't undefined is of a known kind. Behind it the next states
/// are carried.
pub fn carried_states_know_steps()
    ensures { (e : Elision) (callees : ℕ → Bool) (source : Module) (most entry : ℕ) (args : List Word)
        → IsElisionReady e source most
        → KeepsAsked e → IsEntryCall e entry args → CoversShapes e callees
        → KnowsSteps e entry args (is_exact e callees) (AreCarried e) }
{
    giving_runs_lack_nothing();
    runs_start_kept();
    destroyed_ends_have_freed();
    related_states_stay_related();
}

/// So the exact run of a call of an entry agrees with the one that gives frames, at a price of at most one step and one
/// for each site of a function. Where both have returned, the second made fewer allocator calls by the calls that it
/// executed without allocation.
pub fn elided_entry_calls_keep_states()
    ensures states { (e : Elision) (callees : ℕ → Bool) (source : Module) (most entry : ℕ) (args : List Word)
        → IsElisionReady e source most → KeepsAsked e → CoversShapes e callees → IsEntryCall e entry args
        → AgreesWithElided e callees most entry args }
    ensures calls { (e : Elision) (callees : ℕ → Bool) (source : Module) (most entry : ℕ) (args : List Word)
        → IsElisionReady e source most → KeepsAsked e → CoversShapes e callees → IsEntryCall e entry args
        → LosesCalls (exact_run e callees entry args) (elided_run e entry args) }
{
    carried_states_know_steps();
}

/// In each state of the run that gives frames that stands beside one of the framed run, the block of each frame that
/// was given lives while its instance isn't Finished.
pub fn given_frames_live_beside()
    ensures related { (e : Elision) (s t : State) → AreRelated e s t → EndsFramed e s → DoFramesLive t }
    ensures runs { (e : Elision) (source : Module) (most entry : ℕ) (args : List Word) (n m : ℕ)
        → IsElisionReady e source most
        → AreCarried e (framed_after e entry args n) (elided_after e entry args m)
        → DoFramesLive (elided_after e entry args m) }
{}

/// So the block of each frame that was given lives while its instance isn't Finished: in each state of the run that
/// gives frames if the exact run is never undefined, else in each one up to where it follows the exact run.
pub fn given_frames_live()
    ensures always { (e : Elision) (callees : ℕ → Bool) (source : Module) (most entry : ℕ) (args : List Word)
        → IsElisionReady e source most → KeepsAsked e → CoversShapes e callees → IsEntryCall e entry args
        → NeverUndefined (at (uncounted (exact_run e callees entry args))) → DoGivenFramesLive (elided e) entry args }
    ensures until { (e : Elision) (callees : ℕ → Bool) (source : Module) (most entry : ℕ) (args : List Word) (n : ℕ)
        → IsElisionReady e source most → KeepsAsked e → CoversShapes e callees → IsEntryCall e entry args
        → IsFine (state_at (exact_run e callees entry args) n).outcome → FollowsLive e callees entry args n }
{
    carried_states_know_steps();
}
