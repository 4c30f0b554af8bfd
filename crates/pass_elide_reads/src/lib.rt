//! Names that the shape of a coroutine tells are read where it says alone, in blocks to which paths lead.
#![tactic(auto)]

pub mod reads;
