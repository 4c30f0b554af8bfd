//! The words that all crates share: numbers of a width, events, places, outcomes, rules, causes, statuses, names and lists.
//!
//! `copied` gives the same data. `is_same` is true exactly for the same data (trait `Data`, for names, texts and
//! lists too). `Status::code`, `Cause::word` and `Rule::word` are the tables of `specs/Words`.
#![tactic(auto)]

mod cause;
mod data;
mod items;
mod name;
mod ops;
mod outcome;
mod rule;
mod short;
mod status;
mod text;

pub use cause::Cause;
pub use data::{Data, are_same};
pub use items::Items;
pub use name::Name;
pub use ops::{BinOp, CastOp, Flags, Pred};
pub use outcome::{BlockId, Event, FuncId, Item, Outcome, Place, SlotId, SuspendId, ValueId, Word};
pub use rule::Rule;
pub use short::Short;
pub use status::{Options, Status};
pub use text::Text;
