//! Lemmas on sound states.
