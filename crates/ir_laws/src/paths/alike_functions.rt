//! Lemmas on alike functions.
