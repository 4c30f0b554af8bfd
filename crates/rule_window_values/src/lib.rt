//! Values made between a save and its suspend and used behind it (rule K7; "Coroutines in LLVM", "llvm.coro.save"): the
//! coroutine may be resumed, and destroyed, while they are made, and then finds none of them.
//!
//! It gives the first place that breaks K7, said by paths (`IsFirstKept`).
#![tactic(auto)]

mod chunk;
mod labels;
mod numbers;
mod operands;
mod rule;
mod scan;
mod spans;
mod words;

pub use rule::first_kept_value;
pub use rule_shape as rule_shape_library;
