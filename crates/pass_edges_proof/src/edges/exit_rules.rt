//! Lemmas on exit rules.
