//! Lemmas on alike crossing.
