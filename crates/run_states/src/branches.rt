//! Lemmas on branches.
