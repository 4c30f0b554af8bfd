//! A coroutine whose frame is built is the coroutine that it was: what splitting asks of its calls stays under
//! each of the passes that build frames.
//!
//! The passes that build a frame leave the calls of a coroutine (`framed_coroutines_are_kept`).
