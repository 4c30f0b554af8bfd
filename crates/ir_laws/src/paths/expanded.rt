//! Lemmas on expanded.
