//! What stays of the analyses of frames in functions that are alike, and what is needed behind a suspend.

pub mod alike_crossing;
pub mod alike_frames;
pub mod alike_slots;
pub mod begin_order;
pub mod counted;
pub mod crossing;
pub mod edges;
pub mod front_rules;
pub mod needed;
pub mod replaced;
pub mod rows;
pub mod same_names;
pub mod shape;
pub mod spared;
pub mod spelled;
pub mod suspend_counts;
pub mod threaded;
pub mod turned;
pub mod unused;
pub mod uses;
pub mod woven_shape;
