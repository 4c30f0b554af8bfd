//! Lemmas on unused.
