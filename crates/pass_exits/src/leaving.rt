//! Which edges of a function leave a window.

ghost use Rattle.std.specs.Prelude.{IfOk};
ghost use Rattle.pass_exits.specs.Leaving.{AreLeaving};
ghost use Rattle.pass_exits.specs.Regions.{AreRegionsOf};

use crate::regions::{Region, first_mark, regions_of};
use crate::rows::{Rows, row_at, rows_of};
use flow_facts::windows_of;
use flow_points::PointGraph;
use ir_base::{BlockId, Items, SuspendId, ValueId};
use ir_model::Function;
use ir_paths::Window;
use pass_intrinsics::{saves_of, suspends_of};
use std::alloc::{AllocError, Global};

/// What is looked up to tell which edges of a function leave a window.
#[derive(Drop)]
pub struct Leaving {
    pub graph: PointGraph,
    pub regions: Items<Region>,
    pub rows: Rows,
}

fn regions_by(
    alloc: Global,
    function: &Function,
    windows: &[Window],
) -> Result<Items<Region>, AllocError>
    ensures { IfOk result (AreRegionsOf function.now windows.now) }
{
    let suspends = suspends_of(alloc, function)?;
    let numbers = saves_of(alloc, function, suspends.as_slice())?;
    regions_of(alloc, function, numbers.as_slice(), windows)
}

/// What tells which edges of a function leave a window. It takes no more time than the points of the windows ask for.
pub fn leaving_of(alloc: Global, function: &Function) -> Result<Leaving, AllocError>
    ensures { IfOk result (AreLeaving function.now) }
{
    let mut graph = PointGraph::new(alloc, function)?;
    let windows = windows_of(alloc, function, &mut graph)?;
    Ok(Leaving {
        graph,
        regions: regions_by(alloc, function, windows.as_slice())?,
        rows: rows_of(alloc, function, windows.as_slice())?,
    })
}

impl Leaving {
    ghost use Rattle.std.specs.Prelude.{◌≡◌};
    ghost use Rattle.pass_exits.specs.Exits.{mark_of};
    ghost use Rattle.pass_exits.specs.Leaving.{AreLeaving};

    /// The number of the suspend of the first window that the edge from a block to a label leaves, unless the block's
    /// switch is a suspend's.
    pub fn mark(&self, function: &Function, block: BlockId, label: ValueId) -> Option<SuspendId>
        requires { AreLeaving function.now self.now }
        ensures { result ≡ mark_of function.now block label }
    {
        let entry = self.graph.entry(function, label);
        first_mark(&self.regions, row_at(&self.rows, block), entry.block)
    }
}
