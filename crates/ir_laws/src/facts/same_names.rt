//! Lemmas on same names.
