//! Ordinary instructions of coroutines stand as the laws on them ask.

ghost use Rattle.std.specs.Prelude.{◌≡◌, ℕ, None, Some, true};
ghost use Rattle.pass_frames_proof.specs.ir_base.declared.outcome.Outcome.{Outcome};
ghost use Rattle.pass_frames_proof.specs.ir_model.declared.instr.Instr.{Instr};
ghost use Rattle.pass_frames_proof.specs.ir_parts.Contents.{result_of};
ghost use Rattle.pass_frames_proof.specs.pass_cells.Kept.{entry};
ghost use Rattle.pass_frames_meaning.specs.Ordinary.{MayBeOrdinary};
ghost use Rattle.pass_frames_meaning.specs.Plain.{IsNoAlloca};
ghost use Rattle.pass_frames_meaning.specs.Setting.{KeepsAll, Setting};
ghost use Rattle.pass_frames_meaning.specs.Standing.{IsStaying, MayStand};
ghost use Rattle.pass_frames_proof.specs.Here.{IsHere, IsLined};
ghost use Rattle.pass_frames_proof.specs.Operands.{IsAtFetch};
ghost use Rattle.pass_frames_proof.specs.Places.{plan};
ghost use Rattle.pass_frames_proof.specs.Related.{is_coroutine};
ghost use Rattle.pass_frames_proof.specs.Stepping.{IsAtOrdinary, IsCommon, IsNotEntering};
ghost use Rattle.pass_frames_proof.specs.run_source.Source.{context_of};
ghost use Rattle.pass_frames_proof.specs.run_source.State.{function_of, work_of};
ghost use Rattle.pass_frames_proof.specs.run_source.declared.state.State.{State as TheState};
ghost use Rattle.pass_frames_proof.specs.run_states.sound_states.Sound.{IsSound};
ghost use Rattle.pass_frames_proof.specs.run_step.Step.{AtInstr, Done, Work, fetch, instr_action};

/// What such a law asks of the code comes of the framing and of rules. What is left is in `MayBeOrdinary`.
pub fn ordinary_instructions_are_ready()
    ensures { (c : Setting) → KeepsAll c → (s : TheState) → IsSound c.g.given.code s → s.outcome ≡ Outcome.Running
        → is_coroutine c.b s.top.func ≡ true → IsNotEntering s.top.mode → (i : Instr)
        → fetch (function_of c.g.given s) s.top.block s.top.at ≡ AtInstr i → IsCommon i → (v : Work)
        → instr_action (context_of c.g.given s) (work_of s) i ≡ Done v → MayBeOrdinary c s i v
        → IsAtOrdinary c.b c.g s i v }
{}

/// So is it for instructions whose operands are fetched, but that are calls, say, or are followed on a line. These are no
/// markers and name no promise.
pub fn fetched_instructions_are_ready()
    ensures fetched { (c : Setting) → KeepsAll c → (s : TheState) → IsSound c.g.given.code s
        → is_coroutine c.b s.top.func ≡ true → IsNotEntering s.top.mode → (i : Instr)
        → fetch (function_of c.g.given s) s.top.block s.top.at ≡ AtInstr i → IsStaying i → MayStand c s i
        → IsAtFetch c.b s i }
    ensures lined { (c : Setting) → KeepsAll c → (s : TheState) → IsSound c.g.given.code s
        → is_coroutine c.b s.top.func ≡ true → IsNotEntering s.top.mode → (i : Instr)
        → fetch (function_of c.g.given s) s.top.block s.top.at ≡ AtInstr i → IsStaying i → MayStand c s i
        → IsNoAlloca i
        → ((r : ℕ) → result_of i ≡ Some r → entry (plan (c.b.framing s.top.func)).cells r ≡ None)
        → s.outcome ≡ Outcome.Running → IsLined i → IsHere c.b s i }
{}
