//! Lemmas on alike frames.
