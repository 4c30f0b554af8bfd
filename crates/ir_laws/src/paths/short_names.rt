//! Lemmas on short names.
