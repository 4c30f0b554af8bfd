//! Lemmas on alike slots.
