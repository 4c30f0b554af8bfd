//! memcpy.

ghost use Rattle.std.specs.Prelude.{Bool, List, Option};
ghost use Rattle.pass_frames_code.specs.ir_model.Ty.{Ty};
ghost use Rattle.pass_frames_code.specs.ir_model.declared.operand.Arg.{Arg};
ghost use Rattle.pass_frames_code.specs.ir_model.declared.operand.Intrinsic.{Intrinsic};
ghost use Rattle.pass_frames_code.specs.Copying.{IsAtCopying, IsAtOtherCopying};
ghost use Rattle.pass_frames_code.specs.Followed.{IsFollowed};
ghost use Rattle.pass_frames_code.specs.Related.{AreBuiltOf, Building};
ghost use Rattle.pass_frames_code.specs.Stepping.{AreFieldsSpared, AreGiven};
ghost use Rattle.pass_frames_code.specs.pass_renewed_proof.Renewed.{RenewedGiven};
ghost use Rattle.pass_frames_code.specs.run_source.declared.state.State.{State};
ghost use Rattle.pass_frames_code.specs.run_step.Step.{Work};

/// A memcpy is followed, in a coroutine and in a function that is none, where no live slot lies in the fields of
/// suspended instances.
pub fn copies_are_followed()
    ensures coroutine { (b : Building) (g : RenewedGiven) → AreGiven b g → (s t : State) (r : AreBuiltOf b s t)
        (i : Intrinsic) (must_tail : Bool) (ty : Option Ty) (args : List Arg) (v : Work)
        → IsAtCopying b g s i must_tail ty args v → AreFieldsSpared b s t r → IsFollowed b g s t }
    ensures other { (b : Building) (g : RenewedGiven) → AreGiven b g → (s t : State) (r : AreBuiltOf b s t)
        (i : Intrinsic) (must_tail : Bool) (ty : Option Ty) (args : List Arg) (v : Work)
        → IsAtOtherCopying b g s i must_tail ty args v → AreFieldsSpared b s t r → IsFollowed b g s t }
{}
