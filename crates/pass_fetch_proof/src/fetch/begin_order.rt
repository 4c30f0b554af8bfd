//! Lemmas on begin order.
