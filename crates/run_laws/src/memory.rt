//! A source memory standing in a target memory, and what operations keep of that: what the proofs of the passes
//! are about.
//!
//! A source memory stands in a target memory by `Embeds`. Then loads, stores, copies and comparisons that aren't
//! refused in the source aren't in the target, and keep that. Private writes and growth of the target keep it, and
//! fresh blocks that both make. Blocks of the source that die, come, move, live again or change their rights keep it.
//! Changes that both make, of a block and of its home, keep it (`load_is_kept` and ten more). A memory stands in
//! itself.

pub mod blocks;
pub mod operations;
