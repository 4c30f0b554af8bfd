//! Lemmas on saved.
