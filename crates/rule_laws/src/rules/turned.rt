//! Lemmas on turned.
