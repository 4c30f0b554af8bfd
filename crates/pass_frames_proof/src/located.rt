//! Accesses before begin of slots that are used there.

ghost use Rattle.pass_frames_steps.specs.ir_model.declared.instr.Instr.{Instr};
ghost use Rattle.pass_frames_steps.specs.Followed.{IsFollowed};
ghost use Rattle.pass_frames_steps.specs.Located.{IsAtAccess};
ghost use Rattle.pass_frames_steps.specs.Related.{AreBuiltOf, Building};
ghost use Rattle.pass_frames_steps.specs.Stepping.{AreFieldsSpared, AreGiven};
ghost use Rattle.pass_frames_steps.specs.Temporaries.{HasLedSlots};
ghost use Rattle.pass_frames_steps.specs.pass_renewed_proof.Renewed.{RenewedGiven};
ghost use Rattle.pass_frames_steps.specs.run_source.declared.state.State.{State};
ghost use Rattle.pass_frames_steps.specs.run_step.Step.{Work};

/// A load, a store or a memcpy is followed that goes by the addresses in the cells of slots that are used before begin,
/// where no live slot lies in the fields of suspended instances.
pub fn located_accesses_are_followed()
    ensures { (b : Building) (g : RenewedGiven) → AreGiven b g → (s t : State) (r : AreBuiltOf b s t) → HasLedSlots t
        → (i : Instr) (v : Work) → IsAtAccess b g s i v → AreFieldsSpared b s t r → IsFollowed b g s t }
{}
