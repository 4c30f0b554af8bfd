//! Lemmas on fetching rules.
