//! The theorem: what is lowered of a source agrees with it, by all passes in a row.
//!
//! `theorem` has one row a pass, and the rows in turn. `parts` has the row on functions that are split, up to facts of
//! framed forms. `known`, `kinds`, `ends`, `woken`, `apart`, `made`, `accesses` and `temporaries` derive what laws on
//! steps of frames ask of accepted sources and of their runs. `one_answer` says that the answer for a source is one.
//! `rows` has the rows as laws, and `calls` the two calls that build frames and split functions, with what they keep.
//!
//! The clause `headline` of `cli_drive::drive` says it of the bytes that were read and written.
#![tactic(auto)]

pub mod accesses;
pub mod apart;
pub mod calls;
pub mod ends;
pub mod kinds;
pub mod known;
pub mod made;
pub mod narrow;
pub mod one_answer;
pub mod parts;
pub mod rows;
pub mod temporaries;
pub mod theorem;
pub mod woken;
