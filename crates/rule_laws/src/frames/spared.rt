//! Lemmas on spared.
