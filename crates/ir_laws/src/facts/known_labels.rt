//! Lemmas on known labels.
