//! Accesses of coroutines at places ahead of begin are followed, which go by the addresses in cells of slots.

ghost use Rattle.std.specs.Prelude.{◌≡◌, true};
ghost use Rattle.pass_frames_proof.specs.ir_base.declared.outcome.Outcome.{Outcome};
ghost use Rattle.pass_frames_proof.specs.ir_model.declared.instr.Instr.{Instr};
ghost use Rattle.pass_frames_proof.specs.pass_copies.Uses.{is_access};
ghost use Rattle.pass_frames_meaning.specs.Accesses.{MayAccess};
ghost use Rattle.pass_frames_meaning.specs.Coroutines.{MayFollow};
ghost use Rattle.pass_frames_meaning.specs.Setting.{AreOfRuns, KeepsAll, Setting};
ghost use Rattle.pass_frames_proof.specs.Code.{is_ahead};
ghost use Rattle.pass_frames_proof.specs.Followed.{IsFollowed};
ghost use Rattle.pass_frames_proof.specs.Related.{AreBuiltOf, is_coroutine};
ghost use Rattle.pass_frames_proof.specs.Stepping.{IsNotEntering, state_in};
ghost use Rattle.pass_frames_proof.specs.Temporaries.{HasLedSlots};
ghost use Rattle.pass_frames_proof.specs.pass_renewed_proof.Renewed.{renewed_step};
ghost use Rattle.pass_frames_proof.specs.run_agreement.Machines.{IsFine};
ghost use Rattle.pass_frames_proof.specs.run_source.State.{function_of};
ghost use Rattle.pass_frames_proof.specs.run_source.declared.state.State.{State as TheState};
ghost use Rattle.pass_frames_proof.specs.run_step.Step.{AtInstr, fetch};

/// A load, a store or a memcpy is followed where names of slots of the framed run lead to them, but for what is in
/// `MayAccess`. Whether an operand is a slot that is used before begin isn't asked.
pub fn accesses_of_coroutines_are_followed()
    ensures { (c : Setting) → KeepsAll c → (s t : TheState) (r : AreBuiltOf c.b s t) → AreOfRuns c s t r
        → s.outcome ≡ Outcome.Running → IsFine (renewed_step c.g s).outcome → is_coroutine c.b s.top.func ≡ true
        → IsNotEntering s.top.mode → MayFollow c s → HasLedSlots t → (i : Instr)
        → fetch (function_of c.g.given s) s.top.block s.top.at ≡ AtInstr i → is_access i ≡ true
        → is_ahead (state_in (c.b.framing s.top.func) s.top.block s.top.at) ≡ true → MayAccess c s i
        → IsFollowed c.b c.g s t }
{}
