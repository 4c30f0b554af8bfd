//! One solver for all analyses of graphs: at each node the least upper bound of the facts that paths carry there.
//!
//! `solve` gives it at each node, of the facts that all paths from the starts carry there, and bottom where none
//! leads (clauses `nodes` and `least`). It does so for each analysis that obeys the laws of the trait `Flow`; the
//! first analysis is `flow_bits`.
#![tactic(auto)]

mod flow;
mod graph;
mod rows;
mod state;
mod worklist;

pub use flow::Flow;
pub use graph::Graph;
pub use worklist::solve;
