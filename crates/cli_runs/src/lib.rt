//! Runs of modules as the program answers them: the text of what is seen of a run.
//!
//! It is seen of a source (`SourceAt`, with the frame sizes of its layouts), of a framed form (`FramedAt`) or of a module
//! without coroutines (`PlainAt`).
#![tactic(auto)]

mod runs;

pub use cli_entries as cli_entries_library;
pub use run_whole as run_whole_library;
pub use runs::{run_framed, run_module, run_source, sizes_of};
