//! Which slots of a frame may be alive at which suspends, and which of them may not share bytes ("Coroutines in LLVM",
//! "Coroutine Representation"; LLVM Language Reference, "llvm.lifetime.start").
//!
//! `alive_at` gives exactly the frame slots that may be alive at each suspend (`AreAliveAt`). `conflicts` gives
//! exactly the pairs of frame slots that conflict (`AreConflicts`). Both are in order. `alive_by` and `conflicts_by`
//! give the same by the slots' classes, which are then asked for once. `parts_by` tells who conflicts without the
//! pairs: the slots that conflict with all, and the pairs of the others (`parts_stand_for_pairs`).
#![tactic(auto)]

mod answer;
mod bits;
mod early;
mod facts;
mod law;
mod looked;
mod meeting;
mod pairs;
mod parts;
mod spots;
mod started;
mod suspended;

pub use answer::{alive_at, alive_by, conflicts, conflicts_by};
pub use frame_classes as frame_classes_library;
pub use frame_classes::rule_windows_library;
pub use law::parts_stand_for_pairs;
pub use parts::{SlotParts, parts_by};
