//! Lemmas on named.
