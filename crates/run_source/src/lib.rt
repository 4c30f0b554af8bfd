//! The meaning of a source, which keeps a suspended coroutine as a whole activation ("Coroutines in LLVM"), and the machine
//! that runs it.
//!
//! The meaning is `SourceAt`. `SourceMachine` is given the facts about its functions' paths. `run(n)` of a machine
//! that made k steps is the source outcome for these facts (`SeenOf`) at k + n; `events()` and `allocs()` are its
//! counts. A step that finds no memory leaves the machine as it was.
#![tactic(auto)]

mod blocks;
pub mod calls;
pub mod effects;
pub mod ending;
pub mod frames;
mod instances;
mod machine;
pub mod progress;
pub mod promise;
pub mod resuming;
pub mod starting;
mod state;
pub mod stepping;

pub use effects::Stop;
pub use machine::SourceMachine;
pub use progress::Progress;
pub use run_source_tables as run_source_tables_library;
pub use run_step_code as run_step_code_library;
pub use state::{Activation, Instance, Instances, Mode, Saved, State, Status};
