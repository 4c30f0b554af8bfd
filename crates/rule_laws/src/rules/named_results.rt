//! Lemmas on named results.
