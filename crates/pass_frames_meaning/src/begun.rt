//! What stands of a coroutine's own frame: begin's value.

ghost use Rattle.pass_frames_proof.specs.Framings.{IsFraming};
ghost use Rattle.pass_frames_proof.specs.Places.{Framing};
ghost use Rattle.pass_frames_proof.specs.Stepping.{IsBeginPlain};

/// Begin's value never crosses a suspend, so it has no cell. No alloca gives it, so it is no slot of the frame.
pub fn begin_is_plain()
    ensures { (x : Framing) → IsFraming x → IsBeginPlain x }
{}
