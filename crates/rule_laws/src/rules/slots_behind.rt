//! Lemmas on slots behind.
