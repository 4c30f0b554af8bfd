//! What is done with the slots of a coroutine that aren't its ramp's alone: their markers (rule K8), and their addresses
//! before begin (rule K9; "Coroutines in LLVM", "llvm.coro.begin").
//!
//! It gives the first place that breaks K8 and K9, each said by paths (`IsFirstMarked`, `IsFirstEarly`).
#![tactic(auto)]

mod closed;
mod early;
mod ends;
mod faults;
mod marked;
mod names;
mod slots;
mod steps;
mod uses;

pub use faults::{SlotFaults, slot_faults};
pub use flow_facts as flow_facts_library;
pub use rule_windows as rule_windows_library;
