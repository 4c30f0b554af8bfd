//! The framed run on a straight line of its code.

ghost use Rattle.std.specs.Prelude.{◌≡◌, ◌<◌, ℕ, List, length};
ghost use Rattle.pass_proofs.specs.ir_base.declared.outcome.Outcome.{Outcome};
ghost use Rattle.pass_proofs.specs.ir_model.declared.instr.Instr.{Instr};
ghost use Rattle.pass_frames_code.specs.Lined.{GivesNone, lined};
ghost use Rattle.pass_proofs.specs.run_framed.Framed.{FramedGiven, framed_context, framed_step};
ghost use Rattle.pass_proofs.specs.run_laws.access.Lines.{Runs, StandAt};
ghost use Rattle.pass_proofs.specs.run_laws.changed.Changed.{Each};
ghost use Rattle.pass_proofs.specs.run_source.State.{function_of, work_of};
ghost use Rattle.pass_proofs.specs.run_source.declared.state.State.{State};
ghost use Rattle.pass_proofs.specs.run_step.Runs.{iterate};
ghost use Rattle.pass_proofs.specs.run_step.Step.{Work};

/// Each instruction of a line that is done is a step of the framed run. Behind some of them it is so far on.
pub fn lines_lead_on()
    ensures last { (h : FramedGiven) (t : State) (line : List Instr) (x : Work) → t.outcome ≡ Outcome.Running
        → StandAt (function_of h.given t) t.top.block t.top.at line → Each (GivesNone h.given.code) line
        → Runs (framed_context h t) line (work_of t) x
        → iterate (framed_step h) (length line) t ≡ lined t (length line) x }
    ensures between { (h : FramedGiven) (t : State) (line : List Instr) (x : Work) → t.outcome ≡ Outcome.Running
        → StandAt (function_of h.given t) t.top.block t.top.at line → Each (GivesNone h.given.code) line
        → Runs (framed_context h t) line (work_of t) x → (k : ℕ) → k < length line
        → (u : Work) × (iterate (framed_step h) k t ≡ lined t k u) }
{}
