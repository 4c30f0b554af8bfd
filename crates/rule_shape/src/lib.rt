//! The shape of a coroutine: its id, begin, end, suspends and promise, and the rules by which it has one of each ("Coroutines
//! in LLVM", "Coroutine Structure Intrinsics").
//!
//! It gives the first place of a function that breaks K2, K3, K4, K10 or K11, each by its sentence. `shape_of` gives
//! the first broken of K2 to K6, K10, K11 with its place, or else id, begin, the end's block, suspends and promise.
#![tactic(auto)]

mod one_of_each;
mod places;
mod promise;
mod shape;
mod suspends;
mod switches;
mod uses;

pub use one_of_each::first_wrong_call;
pub use places::{is_spot, places_where};
pub use promise::{allocas_of, first_wrong_promise, promise_slot, slot_of};
pub use shape::{Answer, Shape, shape_of};
pub use suspends::{first_second_final, first_suspend_too_many, suspends_of};
pub use switches::{end_block, first_wrong_switch};
pub use uses::{Uses, uses_in};
