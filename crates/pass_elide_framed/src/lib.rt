//! Framed forms of accepted sources have what laws on elision ask of modules.
#![tactic(auto)]

pub mod elided;
pub mod framed;
