//! The analyses of elision find the same in what the first pass makes of a source.

pub mod early;
pub mod sources;
