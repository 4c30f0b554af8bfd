//! Lemmas on exits.
