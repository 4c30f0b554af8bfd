//! Terminators of a framed run are followed in its parts, up to returns.

ghost use Rattle.std.specs.Prelude.{◌≡◌, List, false, negsuc, true};
ghost use Rattle.pass_proofs.specs.ir_base.declared.outcome.Outcome.{Outcome};
ghost use Rattle.pass_proofs.specs.ir_model.Names.{function_at};
ghost use Rattle.pass_proofs.specs.ir_model.declared.instr.Case.{Case};
ghost use Rattle.pass_proofs.specs.ir_model.declared.instr.Terminator.{Terminator};
ghost use Rattle.pass_proofs.specs.ir_model.declared.module.Module.{Module};
ghost use Rattle.pass_proofs.specs.ir_model.declared.operand.Arg.{Arg};
ghost use Rattle.pass_split_proof.specs.branching.Terminators.{IsAtTerm, is_return};
ghost use Rattle.pass_split_proof.specs.places.Places.{Enters};
ghost use Rattle.pass_split_proof.specs.simulation.Followed.{IsFollowed};
ghost use Rattle.pass_split_proof.specs.states.Activations.{is_entering};
ghost use Rattle.pass_split_proof.specs.states.Related.{AreRelated};
ghost use Rattle.pass_proofs.specs.rule_shape.Switches.{are_both};
ghost use Rattle.pass_proofs.specs.run_agreement.Machines.{IsFine};
ghost use Rattle.pass_proofs.specs.run_framed.Framed.{FramedGiven, framed_step};
ghost use Rattle.run_access_worked.specs.run_plain.Plain.{PlainGiven};
ghost use Rattle.run_access_worked.specs.run_plain.declared.state.PlainState.{PlainState as ThePlainState};
ghost use Rattle.pass_proofs.specs.run_source.State.{function_of};
ghost use Rattle.pass_proofs.specs.run_source.declared.state.State.{State as TheState};
ghost use Rattle.pass_proofs.specs.run_step.Step.{AtTerm, fetch};
ghost use Rattle.pass_proofs.specs.run_step.Values.{arg_value, integer};

/// A jump, a branch or a switch is followed in the part, whose terminator is the redirected one. The part takes one step,
/// or two where the edge leads through the mark of the end. A run that comes to `unreachable` is undefined.
pub fn branches_are_followed()
    ensures { (g : FramedGiven) (h : PlainGiven) (s : TheState) (t : ThePlainState) (r : AreRelated g h s t)
        (term : Terminator) → s.outcome ≡ Outcome.Running → IsFine (framed_step g s).outcome → IsAtTerm g h s t r term
        → is_return term ≡ false → IsFollowed g h s t }
{}

/// Behind a suspend the part is at the jump to the end. The framed run's switch leads there on -1, and both enter it.
pub fn switches_are_followed()
    ensures { (g : FramedGiven) (h : PlainGiven) (s : TheState) (t : ThePlainState) (r : AreRelated g h s t)
        (m : Module) (arg : Arg) (cases : List Case)
        → fetch (function_of g.given s) s.top.block s.top.at ≡ AtTerm (Terminator.Switch arg r.top.shape.end cases)
        → are_both cases ≡ true → arg_value m s.top.values arg ≡ integer 8 (negsuc 0)
        → s.outcome ≡ Outcome.Running → IsFine (framed_step g s).outcome → is_entering s.top.mode ≡ false
        → fetch (function_at h.code t.top.func) t.top.block t.top.at ≡ AtTerm (Terminator.Jump r.top.shape.end)
        → Enters r.top.shape r.top.part (function_of g.given s) (function_at h.code t.top.func) s.top.block
        t.top.block r.top.shape.end → IsFollowed g h s t }
{}
