//! Lemmas on numbers.
