//! To which points of a function the paths of up to 64 questions lead: each question has points behind which its paths begin and
//! points where they end.
//!
//! `reached_points` answers them. A point's word has a question's bit exactly where a path of that question leads
//! there (`IsReached`).
#![tactic(auto)]

mod question;
mod reach;
mod row;

pub use flow_blocks as flow_blocks_library;
pub use flow_solver::Graph;
pub use question::{Pass, Passes};
pub use reach::reached_points;
