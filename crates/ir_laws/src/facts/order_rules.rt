//! Lemmas on order rules.
