//! Lemmas on renamed.
