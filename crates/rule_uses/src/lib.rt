//! Uses of values that some path from a function's entry reaches without the definition (rule F2).
//!
//! It gives the first place that breaks F2, said by paths (`IsFirstUndefined`).
#![tactic(auto)]

mod locals;
mod numbers;
mod open_use;
mod rule;
mod scan;
mod words;

pub use flow_blocks as flow_blocks_library;
pub use flow_blocks::run_step_library;
pub use rule::first_undefined_use;
