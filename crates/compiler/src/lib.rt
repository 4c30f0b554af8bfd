//! The passes in a row: from a module with coroutines to one without.
//!
//! `lower` gives what the written definition says of the bytes (`IsLowering`). Of an accepted module that is the
//! layouts, the framed form, and what `split_module` and `clean_module` make of it. The text of that stands behind
//! the frame lines. Else it is the count of items, or the first broken rule with its place.
//!
//! What is lowered has no coroutine, and neither calls nor declares a coro intrinsic (clause `plain`). What is
//! lowered of a text breaks none of the rules of modules without coroutines (clause `accepted`). Its framed form is a
//! framed module, as splitting asks (clause `framed`, `IsReady`). The text that is written stands for the lowered
//! module with the names of each function in the order of their first occurrence. That breaks none of these rules
//! either (clause `printed`). `lower_module` does the same for a module, each function of which has fewer than 2^64
//! names once it is lowered (clause `few`).
//!
//! `compiler_theorem` puts all passes in a row. `cleanup`, `order`, `fit` and `whole` have what it takes of the last
//! passes, of good layouts and of what is lowered.
#![tactic(auto)]

pub mod cleanup;
pub mod fit;
mod lowered;
pub mod order;
mod passes;
pub mod whole;

pub use frame_acceptance as frame_acceptance_library;
pub use lowered::{Lowered, Lowering, lower, lower_module};
pub use passes::{framed_module, lowered_module};
