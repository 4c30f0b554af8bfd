//! Lemmas on exited.
