//! Lemmas on facts.

pub mod begin_order;
pub mod branches;
pub mod counted;
pub mod crossing;
pub mod expanded;
pub mod function_rules;
pub mod known_labels;
pub mod local_rules;
pub mod names_apart;
pub mod order_meaning;
pub mod order_rules;
pub mod renamed;
pub mod replaced;
pub mod same_names;
pub mod sound_states;
pub mod spelled;
pub mod threads;
pub mod uses;
pub mod woven_rules;
