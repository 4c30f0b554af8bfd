//! Slots that are copied at begin leave the rules as they are.

pub mod begin_order;
pub mod crossing;
pub mod rules;
pub mod shape;
pub mod spelled;
