//! What speaks of several passes: each source that breaks no rule can be lowered, and what is lowered of it is
//! accepted, printable and cleaned.

pub mod cleanable_sources;
pub mod cleaned_sources;
pub mod elided_forms;
pub mod exit_sources;
pub mod exits;
pub mod lowered_sources;
pub mod names_apart;
pub mod numbers;
pub mod printed_forms;
pub mod printed_order;
pub mod unnamed_intrinsics;
pub mod unused_frames;
