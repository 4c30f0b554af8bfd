//! Small graphs whose answers are found by hand.

ghost use Rattle.std.specs.Prelude.{◌≤◌, ◌&&◌, nat_lt, IsTrue, length};
ghost use Rattle.std.specs.List.{list_all};

use flow_bits::{Graph, reached};
use ir_base::Items;
use std::alloc::{AllocError, Global};
use std::test::Fail;

const TOP: u64 = 1 << 63;

fn words(
    alloc: Global,
    nodes: usize,
    edges: &[(usize, usize)],
    starts: &[(usize, u64)],
    kept: &[u64],
) -> Result<Vec<u64>, AllocError>
    requires edges { IsTrue (list_all (λ e. nat_lt e.0 nodes && nat_lt e.1 nodes) edges.now) }
    requires starts { IsTrue (list_all (λ s. nat_lt s.0 nodes) starts.now) }
    requires kept { length edges.now ≤ length kept.now }
{
    let edges = Items::from_vec(Vec::from_slice(alloc, edges)?);
    reached(alloc, &Graph { nodes, edges }, starts, kept)
}

#[test]
fn paths_are_followed(rt: HostRuntime) -> Result<(), Fail> {
    let alloc = rt.alloc();
    let diamond = [(0, 1), (0, 2), (1, 3), (2, 3)];
    let all = words(alloc, 4, &diamond, &[(0, 3)], &[1, 2, 3, 0])?;
    assert_eq!(rt; all.as_slice(), [3, 1, 2, 1].as_slice());
    let cycle = [(0, 1), (1, 2), (2, 0)];
    let all = words(alloc, 3, &cycle, &[(1, 5)], &[7, 7, 4])?;
    assert_eq!(rt; all.as_slice(), [4, 5, 5].as_slice());
    let parallel = [(0, 1), (0, 1)];
    let all = words(alloc, 2, &parallel, &[(0, 7)], &[1, 2])?;
    assert_eq!(rt; all.as_slice(), [7, 3].as_slice());
    let middle = [(0, 1), (1, 2)];
    let all = words(alloc, 3, &middle, &[(1, 8), (1, TOP)], &[TOP, TOP])?;
    assert_eq!(rt; all.as_slice(), [0, TOP + 8, TOP].as_slice());
    let all = words(alloc, 0, &[], &[], &[])?;
    assert_eq!(rt; all.len(), 0);
    Ok(())
}
