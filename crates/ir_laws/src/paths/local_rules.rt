//! Lemmas on local rules.
