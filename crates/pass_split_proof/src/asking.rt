//! What asks for a frame or for its promise is followed in the parts.

ghost use Rattle.pass_proofs.specs.ir_model.declared.operand.Intrinsic.{Intrinsic};
ghost use Rattle.pass_split_proof.specs.asking.Asking.{ArePromisesInFront, IsAsking, IsFrameThere};
ghost use Rattle.pass_split_proof.specs.simulation.Followed.{IsFollowed};
ghost use Rattle.pass_split_proof.specs.states.Related.{AreRelated};
ghost use Rattle.pass_proofs.specs.run_agreement.Machines.{IsFine};
ghost use Rattle.pass_proofs.specs.run_framed.Framed.{FramedGiven, framed_step};
ghost use Rattle.run_access_worked.specs.run_plain.Plain.{PlainGiven};
ghost use Rattle.run_access_worked.specs.run_plain.declared.state.PlainState.{PlainState as ThePlainState};
ghost use Rattle.pass_proofs.specs.run_source.declared.state.State.{State as TheState};
ghost use Rattle.pass_proofs.specs.run_step.Values.{arg_value};

/// Whether a coroutine is at its final suspend is told in two steps: its header names no function there. Without a name
/// for the result the part takes no step.
pub fn done_is_followed()
    ensures { (g : FramedGiven) (h : PlainGiven) (s : TheState) (t : ThePlainState) (r : AreRelated g h s t)
        (k : IsAsking g h s t r Intrinsic.CoroDone) → IsFine (framed_step g s).outcome
        → IsFrameThere s (arg_value g.given.code s.top.values k.at.arg) → IsFollowed g h s t }
{}

/// From a frame to its promise the part goes 16 bytes on in one step, and from a promise to its frame back.
pub fn promises_are_followed()
    ensures { (g : FramedGiven) (h : PlainGiven) (s : TheState) (t : ThePlainState) (r : AreRelated g h s t)
        (k : IsAsking g h s t r Intrinsic.CoroPromise) → IsFine (framed_step g s).outcome → ArePromisesInFront g s
        → IsFollowed g h s t }
{}
