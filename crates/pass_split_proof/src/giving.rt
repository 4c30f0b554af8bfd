//! Coro intrinsics that only give a value are followed in the parts of a coroutine.

ghost use Rattle.std.specs.Prelude.{◌≡◌, false, true};
ghost use Rattle.pass_proofs.specs.ir_base.declared.outcome.Outcome.{Outcome};
ghost use Rattle.pass_proofs.specs.ir_model.declared.operand.Intrinsic.{Intrinsic};
ghost use Rattle.pass_split_proof.specs.code.Positions.{is_given};
ghost use Rattle.pass_split_proof.specs.ends.Ending.{HasOwnFrame};
ghost use Rattle.pass_split_proof.specs.giving.Intrinsics.{HasOwnSize, IsAtIntrinsic, is_constant};
ghost use Rattle.pass_split_proof.specs.simulation.Followed.{IsFollowed};
ghost use Rattle.pass_split_proof.specs.states.Related.{AreRelated};
ghost use Rattle.pass_proofs.specs.run_framed.Framed.{FramedGiven};
ghost use Rattle.run_access_worked.specs.run_plain.Plain.{PlainGiven};
ghost use Rattle.run_access_worked.specs.run_plain.declared.state.PlainState.{PlainState as ThePlainState};
ghost use Rattle.pass_proofs.specs.run_source.declared.state.State.{State as TheState};

/// The size and the alignment of a frame and `coro.alloc` are followed in one step. They are in none where the result has
/// no name.
pub fn constants_are_followed()
    ensures { (g : FramedGiven) (h : PlainGiven) (s : TheState) (t : ThePlainState) (r : AreRelated g h s t)
        → s.outcome ≡ Outcome.Running → HasOwnSize g s r.top.shape → (x : Intrinsic) → is_constant x ≡ true
        → IsAtIntrinsic g h s t r x → IsFollowed g h s t }
{}

/// `coro.id` stays, and takes a step of both runs. `coro.frame` gives the address of the frame in one step, or in none
/// where it has no name.
pub fn frames_are_followed()
    ensures id { (g : FramedGiven) (h : PlainGiven) (s : TheState) (t : ThePlainState) (r : AreRelated g h s t)
        → s.outcome ≡ Outcome.Running → IsAtIntrinsic g h s t r Intrinsic.CoroId → IsFollowed g h s t }
    ensures frame { (g : FramedGiven) (h : PlainGiven) (s : TheState) (t : ThePlainState) (r : AreRelated g h s t)
        → s.outcome ≡ Outcome.Running → IsAtIntrinsic g h s t r Intrinsic.CoroFrame → IsFollowed g h s t }
{}

/// A release of an instance whose frame was allocated gives the frame's address, in one step or in none.
pub fn frees_are_followed()
    ensures { (g : FramedGiven) (h : PlainGiven) (s : TheState) (t : ThePlainState) (r : AreRelated g h s t)
        → s.outcome ≡ Outcome.Running → IsAtIntrinsic g h s t r Intrinsic.CoroFree
        → is_given r.top.part ≡ false → HasOwnFrame s → IsFollowed g h s t }
{}
