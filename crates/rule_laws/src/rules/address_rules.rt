//! Lemmas on address rules.
