//! Lemmas on edges.
