//! Lemmas on path rules.
