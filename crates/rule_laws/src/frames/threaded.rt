//! Lemmas on threaded.
