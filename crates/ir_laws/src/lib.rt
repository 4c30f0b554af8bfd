//! Laws of modules as data, of no rule, no pass and no run: of lists and truth, and of points, edges and paths.
#![tactic(auto)]

pub mod facts;
pub mod paths;
