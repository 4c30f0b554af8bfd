//! Lemmas on order meaning.
