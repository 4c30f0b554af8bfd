//! What rewriting a function leaves of the rules, of texts, and of the analyses of frames, whatever pass does it.
#![tactic(auto)]

pub mod frames;
pub mod rules;
pub mod texts;
