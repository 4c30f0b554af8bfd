//! Lemmas on rows.
