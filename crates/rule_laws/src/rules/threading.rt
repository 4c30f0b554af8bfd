//! Lemmas on threading.
