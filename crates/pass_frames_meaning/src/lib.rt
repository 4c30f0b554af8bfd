//! Building frames keeps meaning: from the run in which a resume hands on some values to the framed one.
#![tactic(auto)]

pub mod accesses;
pub mod anew;
pub mod begun;
pub mod blank;
pub mod called;
pub mod coroutines;
pub mod covered;
pub mod ends;
pub mod executed;
pub mod framed;
pub mod giving;
pub mod kinds;
pub mod known;
pub mod led;
pub mod once;
pub mod order;
pub mod ordinary;
pub mod others;
pub mod owned;
pub mod placed;
pub mod plain;
pub mod pointers;
pub mod sized;
pub mod slotted;
pub mod spared;
pub mod unbegun;
pub mod woken;
