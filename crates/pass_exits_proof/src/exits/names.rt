//! Lemmas on names.
