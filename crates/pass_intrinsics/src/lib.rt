//! What stands in the place of each coro intrinsic in the parts of a coroutine, and the shape of a coroutine by which these
//! are made.
#![tactic(auto)]

mod cuts;
mod lowered;
mod shape;
mod shapes;
mod small;

pub use cuts::{Cut, cut_at, goes_on};
pub use lowered::{index_bytes, names_taken, push_lowered};
pub use shape::{Part, Shape, SuspendPoint};
pub use shapes::{part_name, saves_of, shape_of, suspends_of};
pub use small::{address, later, number_arg, pointer_arg};
