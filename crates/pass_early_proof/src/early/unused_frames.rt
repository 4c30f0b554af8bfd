//! What `coro.frame` makes is used nowhere once the first pass has turned its uses into uses of begin's value.
//!
//! What the first pass makes of a coroutine of an accepted source has no operand that is a value of `coro.frame`
//! (`early_coroutines_use_no_frame`). It has none where edges have blocks (`edge_blocks_use_no_frame`). So none is
//! needed behind a suspend once the frame is built (`no_frame_is_needed_in_framed_coroutines`).
