//! Lemmas on replaced.
