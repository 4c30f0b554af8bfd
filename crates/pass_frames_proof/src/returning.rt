//! Returns, from state to state: slots of the activation that returns die in both runs, and the one below it goes on
//! behind its call.

ghost use Rattle.std.specs.Prelude.{◌≡◌, ℕ, List, Option, false};
ghost use Rattle.pass_frames_steps.specs.ir_base.declared.outcome.Outcome.{Outcome};
ghost use Rattle.pass_frames_steps.specs.ir_model.declared.operand.Arg.{Arg};
ghost use Rattle.pass_frames_steps.specs.Followed.{IsFollowed};
ghost use Rattle.pass_frames_steps.specs.Related.{AreBuiltOf, Building, is_coroutine};
ghost use Rattle.pass_frames_steps.specs.Returning.{GoesBehind, HasOwnSlots, HasSlotKinds, HasSlotsListed, IsAtLast, IsAtReturn, IsGivenBehind, MayReturn, OwnsSlots};
ghost use Rattle.pass_frames_steps.specs.Stepping.{AreGiven};
ghost use Rattle.pass_frames_steps.specs.pass_renewed_proof.Renewed.{RenewedGiven};
ghost use Rattle.pass_frames_steps.specs.run_laws.memory.Pointers.{IsValue};
ghost use Rattle.pass_frames_steps.specs.run_memory.declared.pointer.Value.{Value};
ghost use Rattle.pass_frames_steps.specs.run_source.declared.state.Activation.{Activation};
ghost use Rattle.pass_frames_steps.specs.run_source.declared.state.State.{State};

/// An activation that is given the result of its call stores it into its cell, if it is a coroutine's and the result is
/// kept. Then the states are related.
pub fn results_are_stored_behind_calls()
    ensures { (b : Building) (g : RenewedGiven) → AreGiven b g → (s t : State) (r : AreBuiltOf b s t)
        → t.outcome ≡ Outcome.Running → (o : Option ℕ) (v u : Value) → IsValue r.homes v u → GoesBehind b s.top o v
        → IsGivenBehind b s t o v u }
{}

/// A return is followed: of a function that is no coroutine, of a coroutine's ramp, which fetches what it returns, and
/// of the entry function, by which the run has returned.
pub fn returns_are_followed()
    ensures others { (b : Building) (g : RenewedGiven) → AreGiven b g → (s t : State) (r : AreBuiltOf b s t)
        (arg : Option Arg) (a : Activation) (more : List Activation) → IsAtReturn b g s arg a more
        → is_coroutine b s.top.func ≡ false → OwnsSlots b s t r → IsFollowed b g s t }
    ensures ramps { (b : Building) (g : RenewedGiven) → AreGiven b g → (s t : State) (r : AreBuiltOf b s t)
        (arg : Option Arg) (a : Activation) (more : List Activation) → IsAtReturn b g s arg a more
        → MayReturn b g s t r arg → OwnsSlots b s t r → IsFollowed b g s t }
    ensures run { (b : Building) (g : RenewedGiven) → AreGiven b g → (s t : State) (r : AreBuiltOf b s t)
        (arg : Option Arg) (o : Outcome) → IsAtLast b g s arg o → OwnsSlots b s t r → IsFollowed b g s t }
{}

/// By what each of the two runs has of slots nothing of the source stands in a slot of the framed activation on top but
/// its own slots.
pub fn slots_are_owned()
    ensures { (b : Building) (s t : State) (r : AreBuiltOf b s t) → HasSlotsListed s → HasSlotKinds s → HasOwnSlots t
        → OwnsSlots b s t r }
{}
