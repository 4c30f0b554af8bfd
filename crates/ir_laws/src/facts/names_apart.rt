//! Lemmas on names apart.
