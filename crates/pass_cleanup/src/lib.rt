//! The last pass of lowering: the calls of `coro.id` go, and the declarations of the coro intrinsics.
//!
//! `clean` is `clean_module`. What calls no coro intrinsic but `coro.id` calls and declares none afterwards (clause
//! `free`). Each run of a module as the pass before leaves it agrees within 1 with the run of the result. Both have
//! as many allocator calls (clause `agrees`).
#![tactic(auto)]

pub mod cleaned_runs;
mod pass;

pub use pass::clean;
