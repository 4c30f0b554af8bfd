//! Calls in coroutines whose callees' frames may lie in the frame of the coroutine that calls: definitions alone.
//!
//! Such a call is a candidate (`IsCandidate`). It is dropped where candidates would lead from its callee back to its
//! caller (`IsDropped`), so that the candidates that are left make no circle. No code looks for candidates yet.
#![tactic(auto)]

pub mod laws;
