//! Lemmas on threads.
