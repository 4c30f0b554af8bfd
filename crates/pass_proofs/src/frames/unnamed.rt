//! Lemmas on unnamed.
