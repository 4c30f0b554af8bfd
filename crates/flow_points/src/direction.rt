//! Which way edges are followed.

/// Along the edges, or against them.
#[derive(Clone, Copy, Debug, PartialEq, Eq, Drop)]
pub enum Direction {
    Forward,
    Backward,
}
