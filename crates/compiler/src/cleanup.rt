//! What the last pass removes is named by nothing, and what it leaves is accepted as a module without coroutines.

pub mod accepted;
pub mod cleanable;
pub mod cleanable_names;
pub mod exits;
pub mod front_rules;
pub mod names;
pub mod outside;
pub mod rules;
pub mod spelled;
pub mod unnamed_intrinsics;
