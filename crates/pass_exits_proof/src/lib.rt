//! Exit blocks keep meaning and rules. Parts of split coroutines break none.
#![tactic(auto)]

pub mod exits;
pub mod split;
