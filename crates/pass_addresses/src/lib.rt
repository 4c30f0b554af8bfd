//! Frame slots become bytes of the frame: each use of one is an address behind begin's value.
//!
//! The pass is its definition, `with_frame_addresses`.
#![tactic(auto)]

mod addresses;
mod markers;
mod promise;
mod slots;

pub use addresses::with_frame_addresses;
