//! Lemmas on woven rules.
