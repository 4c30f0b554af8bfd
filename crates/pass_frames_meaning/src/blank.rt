//! Before begin slots in the frame hold nothing that no access uses there.
//!
//! Such a slot is hidden, and no pointer into it is about. Its name is used by no access before begin (K9). So no step
//! writes into it: it is blank still where begin makes it a slot of the frame.

ghost use Rattle.std.specs.Prelude.{◌≡◌, ℕ, Bool, List};
ghost use Rattle.pass_frames_proof.specs.ir_base.declared.outcome.Outcome.{Outcome};
ghost use Rattle.pass_frames_proof.specs.ir_base.declared.outcome.Word.{Word};
ghost use Rattle.pass_frames_proof.specs.ir_model.declared.module.Module.{Module as TheModule};
ghost use Rattle.pass_frames_meaning.specs.Blank.{
  AreUsesEarly,
  IsAwayFrom,
  IsBlankAt,
  IsBlankState,
  KeepsBlank,
  KeepsEarlywise,
};
ghost use Rattle.pass_frames_meaning.specs.Known.{IsKnown, KeepsKnown};
ghost use Rattle.pass_frames_meaning.specs.Setting.{KeepsAll, Setting};
ghost use Rattle.pass_frames_proof.specs.Related.{AreBuiltOf};
ghost use Rattle.pass_frames_proof.specs.pass_renewed_proof.Renewed.{RenewedGiven, renewed_step};
ghost use Rattle.pass_renewed_meaning.specs.run_hooks.Hooks.{Hooks, hooked_context, step_of};
ghost use Rattle.pass_renewed_meaning.specs.run_hooks.Meanings.{renewed_hooks};
ghost use Rattle.pass_frames_proof.specs.run_source.Source.{first_state};
ghost use Rattle.pass_frames_proof.specs.run_source.State.{function_of, work_of};
ghost use Rattle.pass_frames_proof.specs.run_source.declared.state.State.{State as TheState};
ghost use Rattle.pass_frames_proof.specs.run_step.Step.{fetch};

/// A step leaves a block that holds nothing so, where no operand of an access at the place leads there. New blocks hold
/// nothing, and markers leave nothing in a block.
pub fn blank_blocks_stay()
    ensures step { (h : Hooks) → KeepsBlank h → (n : ℕ) (s : TheState) → IsBlankAt s.world.memory n
        → IsAwayFrom n (hooked_context h s) (work_of s) (fetch (function_of h.given s) s.top.block s.top.at)
        → IsBlankAt (step_of h s).world.memory n }
    ensures hooks { (g : RenewedGiven) → KeepsBlank (renewed_hooks g) }
    ensures slots { (g : RenewedGiven) → KeepsEarlywise (renewed_hooks g) }
{}

/// Before begin a slot in the frame holds nothing, if no access uses it there: at the start, and behind a step from a state
/// that is related to one of the framed run.
pub fn unused_slots_stay_blank()
    ensures first { (c : Setting) (m : TheModule) (entry : ℕ) (args : List Word)
        → IsBlankState c (first_state m entry args) }
    ensures step { (c : Setting) (counts own : ℕ → ℕ → Bool) → KeepsAll c → KeepsKnown c counts → AreUsesEarly c
        → (s t : TheState) → AreBuiltOf c.b s t → IsKnown c counts own s → s.outcome ≡ Outcome.Running
        → IsBlankState c s → IsBlankState c (renewed_step c.g s) }
{}
