//! Operands that are fetched anew before each use leave the rules as they are.

pub mod begin_order;
pub mod cells;
pub mod crossing;
pub mod numbers;
pub mod rules;
pub mod shape;
pub mod spelled;
