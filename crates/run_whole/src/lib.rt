//! Runs of modules alone: the facts of paths that a machine is given are made here.
//!
//! What is seen of the machine that `start_source` gives is what is seen of the source (`SourceAt`), after each number of
//! steps. `run_source` makes so many of them. `start_framed` and `run_framed` are the same of framed modules
//! (`FramedAt`). So no caller needs to know what facts are. `run_plain` runs a module without coroutines (`PlainAt`), which
//! needs none.
//!
//! A view is dropped by a function of this crate. So what lets a view go needn't prove anew that its machine may go.
#![tactic(auto)]

mod framed;
mod plain;
mod source;

pub use framed::{FramedView, run_framed, start_framed};
pub use plain::{PlainView, run_plain, start_plain};
pub use source::{SourceView, run_source, start_source};
