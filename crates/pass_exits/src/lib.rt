//! Blocks with marks on the edges of coroutines that leave a window.
//!
//! `with_exit_blocks` gives the function with a block on each edge that leaves a window, but for those of a suspend's
//! switch. A block is labelled with the number of the window's suspend and of the edge. Which edges leave which
//! window goes by the windows of `ir_paths`.
#![tactic(auto)]

mod blocks;
mod exit;
mod exits;
mod fronts;
mod leaving;
mod names;
mod pass;
mod regions;
mod rows;
mod terms;

pub use exit::Exit;
pub use pass::with_exit_blocks;
