//! Values that are kept in cells leave the rules as they are, and nothing crosses a suspend behind them.

pub mod begin_order;
pub mod crossing;
pub mod numbers;
pub mod rules;
pub mod shape;
pub mod spelled;
