//! Lemmas on outside.
