//! Where the slots of a function are used: the addresses of its allocas, what takes them, their lifetime markers, and which
//! of them escape, for up to 64 slots at once (LLVM Language Reference, "getelementptr", "llvm.lifetime.start").
//!
//! It gives the allocas of a function, and for each name the slots that it is an address of. It tells where slots are
//! used, started and ended, and which escape. Each is exact.
#![tactic(auto)]

mod addresses;
mod edge;
mod edges;
mod escaped;
mod markers;
mod rows;
mod slots;
mod words;

pub use addresses::{address_words, slot_words};
pub use edge::{EdgeWord, PhiUse};
pub use edges::{edge_words, phi_uses};
pub use escaped::escaped_word;
pub use markers::{Mark, Marker, mark_rows, marker_rows, marker_word};
pub use rows::use_rows;
pub use rule_slots::{flow_facts_library, rule_windows_library};
pub use rule_window_values::rule_shape_library;
pub use run_step as run_step_library;
pub use slots::{chunk_of, slots_of};
pub use words::{name_word, used, with_term};
