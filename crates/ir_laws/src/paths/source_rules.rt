//! Lemmas on source rules.
