//! Activations of both runs stay in blocks of their own only as the relation says, also where instances are woken.
#![tactic(auto)]

pub mod apart;
pub mod behind;
