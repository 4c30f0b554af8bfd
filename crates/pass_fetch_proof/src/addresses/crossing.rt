//! Lemmas on crossing.
