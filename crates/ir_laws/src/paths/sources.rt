//! Lemmas on sources.
