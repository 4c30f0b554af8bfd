//! Lemmas on early states.
