//! What the program reads from and writes to: sources and sinks of bytes whose faults are counted.
//!
//! `read_all` gives all bytes that are left. It gives `TooLong` only where more than the limit were there, and
//! `ReadFault` only where the count of faults rose. `write_all` appends the bytes, or a prefix and a fault. Memory
//! sources and sinks fail exactly at the listed calls. The adapters tell what std's reader or writer tells, and count
//! each failed call. What a sink over a writer tells as written was flushed (`Flushing`).
#![tactic(auto)]

mod adapters;
mod calls;
mod flushing;
mod memory;
mod traits;
mod whole;

pub use adapters::{ReadSource, WriteSink};
pub use memory::{ByteSink, ByteSource};
pub use traits::{Failed, Sink, Source};
pub use whole::{ReadAllError, WriteFault, read_all, write_all};
