//! Lemmas on cells.
