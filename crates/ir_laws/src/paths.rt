//! Laws of points, edges, paths and windows, and of functions whose paths lead over further points.

pub mod alike_functions;
pub mod alike_slots;
pub mod begin_order;
pub mod branches;
pub mod counted;
pub mod crossing;
pub mod edges;
pub mod expanded;
pub mod local_rules;
pub mod named_locals;
pub mod needed;
pub mod order_meaning;
pub mod path_rules;
pub mod renamed;
pub mod replaced;
pub mod rows;
pub mod saved;
pub mod shape;
pub mod short_names;
pub mod source_rules;
pub mod sources;
pub mod threaded;
pub mod threads;
pub mod unused;
pub mod uses;
pub mod woven_rules;
