//! Lemmas on counted.
