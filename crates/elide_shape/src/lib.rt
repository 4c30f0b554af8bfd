//! What stands in a coroutine whose frame may lie in a caller: how its allocation is asked for, what its rets give, and what
//! stands right after each coro.free ("Coroutines in LLVM", "llvm.coro.alloc" and "llvm.coro.free").
#![tactic(auto)]

mod calls;
mod edges;
mod facts;
mod frames;
mod frees;
mod guard;

pub use calls::value_at;
pub use edges::{Edge, edges_of};
pub use facts::{Facts, facts_of};
pub use frames::{Choice, counts_of};
