//! Accepted sources keep what is asked where a resume hands on only the values that cross its suspend.

pub mod sources;
