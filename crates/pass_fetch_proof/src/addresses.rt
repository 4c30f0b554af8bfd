//! Slots that are bytes of the frame leave the rules as they are.

pub mod begin_order;
pub mod crossing;
pub mod numbers;
pub mod rules;
pub mod shape;
pub mod spelled;
