//! Lemmas on uses.
