//! Lemmas on labels.
