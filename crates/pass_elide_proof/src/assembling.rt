//! Steps that are followed make runs that agree.

ghost use Rattle.std.specs.Prelude.{Bool, List, Some, false, length, slice_get, ◌<◌, ◌^◌, ◌≡◌, ℕ};
ghost use Rattle.pass_elide_proof.specs.Assembling.{KnowsSteps, WaitsBehind};
ghost use Rattle.pass_elide_proof.specs.Checked.{ElisionKeepsStates, ElisionLosesCalls, checked_run};
ghost use Rattle.pass_elide_proof.specs.Elision.{Elision, elided_code, function_in};
ghost use Rattle.pass_elide_proof.specs.Passing.{PassesOn};
ghost use Rattle.pass_elide_proof.specs.Statement.{AreRelated, IsElisionOf, IsEntryCall, framed_run};
ghost use Rattle.pass_proofs.specs.ir_base.declared.outcome.Word.{Word};
ghost use Rattle.pass_proofs.specs.ir_model.declared.module.Module.{Module};
ghost use Rattle.pass_proofs.specs.run_agreement.Costs.{AgreesBy};
ghost use Rattle.pass_proofs.specs.run_agreement.Machines.{Machine};
ghost use Rattle.pass_proofs.specs.run_laws.memory.Standing.{Embeds, own_homes};
ghost use Rattle.pass_proofs.specs.run_memory.Memory.{owner_rights};
ghost use Rattle.pass_proofs.specs.run_memory.declared.block.MemoryBlock.{MemoryBlock};
ghost use Rattle.pass_proofs.specs.run_source.Source.{first_state};
ghost use Rattle.pass_proofs.specs.run_source.declared.state.State.{State};
ghost use Rattle.pass_proofs.specs.run_step.Step.{first_world};

/// Where each step from related states that pass is of a known kind and leaves them related, the run that gives frames
/// keeps the states of the checked run, at a price of at most one step and one for each site of a function. Where both
/// have returned, it made one allocator call less for each frame that was given.
pub fn known_steps_keep_states()
    ensures states { (e : Elision) (source : Module) (most : ℕ) (passes : State → Bool) → IsElisionOf e source most
        → ((func : ℕ) → WaitsBehind (function_in e func) (e.shape func))
        → ((entry : ℕ) (args : List Word) → IsEntryCall e entry args
        → KnowsSteps e entry args passes (AreRelated e))
        → ElisionKeepsStates e passes most }
    ensures calls { (e : Elision) (source : Module) (most : ℕ) (passes : State → Bool) → IsElisionOf e source most
        → ((func : ℕ) → WaitsBehind (function_in e func) (e.shape func))
        → ((entry : ℕ) (args : List Word) → IsEntryCall e entry args
        → KnowsSteps e entry args passes (AreRelated e))
        → ElisionLosesCalls e passes }
{}

/// Relations between states of a run and of the framed run: one at corresponding steps, and one in which all states of
/// the framed run stand.
pub trait RelatesStates {
    ghost corresponds: { State → State → Type 0 };

    ghost stands: { State → State → Type 0 };
}

/// A run that agrees with the framed run agrees with the checked one, if the framed run's states pass as far as the
/// first isn't undefined.
pub fn passing_runs_agree<Q: RelatesStates>()
    ensures { (e : Elision) (passes : State → Bool) (entry : ℕ) (args : List Word) (a : Machine State)
        (price cost : State → ℕ) → AgreesBy Q.corresponds Q.stands a price (framed_run e entry args) cost
        → PassesOn Q.corresponds a (framed_run e entry args) passes
        → AgreesBy Q.corresponds Q.stands a price (checked_run e passes entry args) cost }
{}

/// The states in which both runs start are related, since nothing has begun there. Globals stand in themselves, and have
/// small sizes.
pub fn runs_start_related()
    ensures { (e : Elision) (entry : ℕ) (args : List Word) → (function_in e entry).coroutine ≡ false
        → Embeds owner_rights owner_rights (own_homes 0 (length (first_world e.code).memory))
        (first_world e.code).memory
        (first_world e.code).memory
        → ((b : ℕ) (x : MemoryBlock) → slice_get (first_world e.code).memory b ≡ Some x → x.size < 2 ^ 64)
        → AreRelated e (first_state e.code entry args) (first_state (elided_code e) entry args) }
{}
