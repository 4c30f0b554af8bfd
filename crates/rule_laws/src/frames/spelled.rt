//! Lemmas on spelled.
