//! Lemmas on shape.
