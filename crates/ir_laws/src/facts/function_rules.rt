//! Lemmas on function rules.
