//! Lemmas on needed.
