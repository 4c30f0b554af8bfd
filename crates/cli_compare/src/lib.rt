//! What the program answers where a source and what it was lowered to are compared: the report of both runs.
//!
//! `compare_lowered` asks that the runs agree, as `compiler_theorem` says of what is lowered. So there is no answer for
//! disagreement.
#![tactic(auto)]

mod answers;
mod text;

pub use answers::compare_lowered;
pub use cli_runs as cli_runs_library;
pub use compiler as compiler_library;
pub use compiler::frame_acceptance_library;
