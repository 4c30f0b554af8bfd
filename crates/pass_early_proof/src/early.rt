//! The first pass keeps meaning, rules, and what the analyses see: begins named, uses of `coro.frame` renamed,
//! saves written out.

pub mod begin_naming;
pub mod crossing;
pub mod early_states;
pub mod elision;
pub mod frames;
pub mod function_rules;
pub mod labels;
pub mod local_rules;
pub mod meaning;
pub mod named_sources;
pub mod names;
pub mod numbers;
pub mod path_rules;
pub mod renaming;
pub mod save_simulation;
pub mod save_states;
pub mod saves;
pub mod slots;
pub mod source_rules;
pub mod sources;
pub mod spelled;
pub mod unused_frames;
pub mod widths;
