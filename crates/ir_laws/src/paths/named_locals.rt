//! Lemmas on named locals.
