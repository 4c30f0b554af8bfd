//! Modules that are accepted: no rule is broken, and each frame has a layout. The rule on the size of frames (K12) has its
//! place among the other rules here, since it asks for the layouts.
//!
//! `accept` gives the first broken rule, K12 in its place among the others, with its first place. Where no rule is
//! broken, it gives the layouts of the frames (`IsAcceptance`). `refused_for` gives that rule and place alone
//! (`IsRefusedFor`), and makes layouts only where a frame may be too large.
#![tactic(auto)]

mod accepting;
mod order;

pub use accepting::{Acceptance, accept, refused_for};
