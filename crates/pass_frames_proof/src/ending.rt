//! Ends of coroutines, from state to state: the instance is over in both runs, where the activation hasn't left.

ghost use Rattle.std.specs.Prelude.{ℕ, Bool, List, Option};
ghost use Rattle.pass_frames_steps.specs.ir_model.Ty.{Ty};
ghost use Rattle.pass_frames_steps.specs.ir_model.declared.operand.Arg.{Arg};
ghost use Rattle.pass_frames_steps.specs.Ending.{GoesOnPast, IsAtEnd, LeadsBack};
ghost use Rattle.pass_frames_steps.specs.Followed.{IsFollowed};
ghost use Rattle.pass_frames_steps.specs.Related.{AreBuiltOf, Building};
ghost use Rattle.pass_frames_steps.specs.Stepping.{AreGiven};
ghost use Rattle.pass_frames_steps.specs.pass_renewed_proof.Renewed.{RenewedGiven};
ghost use Rattle.pass_frames_steps.specs.run_source.declared.state.Activation.{Activation};
ghost use Rattle.pass_frames_steps.specs.run_source.declared.state.State.{State};

/// The end of a coroutine is followed: a resumed activation leads back to its resumer, behind its call, and a ramp is
/// given false and goes on behind it.
pub fn ends_of_coroutines_are_followed()
    ensures resumed { (b : Building) (g : RenewedGiven) → AreGiven b g → (s t : State) → AreBuiltOf b s t
        → (result : Option ℕ) (must_tail : Bool) (ty : Option Ty) (args : List Arg)
        → IsAtEnd b g s result must_tail ty args → (a : Activation) (more : List Activation) → LeadsBack b s t a more
        → IsFollowed b g s t }
    ensures ramps { (b : Building) (g : RenewedGiven) → AreGiven b g → (s t : State) → AreBuiltOf b s t
        → (result : Option ℕ) (must_tail : Bool) (ty : Option Ty) (args : List Arg)
        → IsAtEnd b g s result must_tail ty args → GoesOnPast b s result → IsFollowed b g s t }
{}
