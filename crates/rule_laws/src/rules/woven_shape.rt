//! Functions into which instructions are woven are the coroutines that they were, where the calls by which they
//! are coroutines stay.
//!
//! K2 and K3, begin's value, the suspends and their edges stay (`woven_functions_are_shaped`). Still nothing that
//! asks for begin stands before it.
