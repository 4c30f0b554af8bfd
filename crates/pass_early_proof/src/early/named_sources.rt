//! Lemmas on named sources.
