//! What splitting asks of a coroutine, and that its parts break no rule of modules without coroutines.

pub mod crossing;
pub mod edges;
pub mod exited;
pub mod exits;
pub mod front_rules;
pub mod names;
pub mod names_apart;
pub mod plain_functions;
pub mod rules;
pub mod spelled;
pub mod uses;
