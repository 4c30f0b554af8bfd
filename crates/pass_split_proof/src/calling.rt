//! Calls and returns of a framed run are followed in its parts.

ghost use Rattle.std.specs.Prelude.{◌≡◌, Option};
ghost use Rattle.pass_proofs.specs.ir_base.declared.outcome.Outcome.{Outcome};
ghost use Rattle.pass_proofs.specs.ir_model.declared.instr.Terminator.{Terminator};
ghost use Rattle.pass_proofs.specs.ir_model.declared.operand.Arg.{Arg};
ghost use Rattle.pass_split_proof.specs.branching.Terminators.{IsAtTerm};
ghost use Rattle.pass_split_proof.specs.calling.Named.{IsAtCall};
ghost use Rattle.pass_split_proof.specs.simulation.Followed.{IsFollowed};
ghost use Rattle.pass_split_proof.specs.states.Related.{AreRelated};
ghost use Rattle.pass_proofs.specs.run_agreement.Machines.{IsFine};
ghost use Rattle.pass_proofs.specs.run_framed.Framed.{FramedGiven, framed_step};
ghost use Rattle.run_access_worked.specs.run_plain.Plain.{PlainGiven};
ghost use Rattle.run_access_worked.specs.run_plain.declared.state.PlainState.{PlainState as ThePlainState};
ghost use Rattle.pass_proofs.specs.run_source.declared.state.State.{State as TheState};

/// A return to a caller is followed in one step, and so is that of the run.
pub fn returns_are_followed()
    ensures { (g : FramedGiven) (h : PlainGiven) (s : TheState) (t : ThePlainState) (r : AreRelated g h s t)
        → s.outcome ≡ Outcome.Running → IsFine (framed_step g s).outcome → (value : Option Arg)
        → IsAtTerm g h s t r (Terminator.Ret value) → IsFollowed g h s t }
{}

/// A call of a function, or of a ramp that isn't given its frame, is followed in one step: the part calls the function's
/// first part by the same name.
pub fn calls_are_followed()
    ensures { (g : FramedGiven) (h : PlainGiven) (s : TheState) (t : ThePlainState) (r : AreRelated g h s t)
        → s.outcome ≡ Outcome.Running → IsAtCall g h s t r → IsFollowed g h s t }
{}
