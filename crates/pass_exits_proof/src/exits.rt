//! Blocks on edges that leave windows keep the meaning of framed modules, and the rules.

pub mod exited;
pub mod names;
pub mod numbers;
pub mod rules;
pub mod spelled;
pub mod states;
