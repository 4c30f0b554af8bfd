//! Steps that stay in their activation are followed in the framed form: allocations, markers, saves, heaps, copies.
#![tactic(auto)]

pub mod allocating;
pub mod asking;
pub mod copying;
pub mod heaps;
pub mod marking;
pub mod saving;
pub mod suspending;
