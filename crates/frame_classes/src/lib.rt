//! Where the slots of a coroutine live: the classes of its allocas ("Coroutines in LLVM", "Coroutine Representation"; LLVM
//! Language Reference, "llvm.lifetime.start").
//!
//! `classes` gives the class of each alloca, ramp, local or frame, by the four sentences on paths (`AreClasses`).
#![tactic(auto)]

mod answer;
mod chunk;
mod class;
mod frame;
mod plan;
mod rows;
mod ways;

pub use answer::classes;
pub use class::SlotClass;
pub use flow_reach as flow_reach_library;
pub use flow_reach::flow_blocks_library;
pub use frame_slots as frame_slots_library;
pub use frame_slots::{rule_shape_library, rule_windows_library};
