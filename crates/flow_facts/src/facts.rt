//! The facts about paths of a module's functions.

ghost use Rattle.std.specs.Prelude.{IfOk};
ghost use Rattle.flow_points.specs.ir_paths.Facts.{AreFactsOf};
ghost use Rattle.flow_facts.specs.HaveFacts.{HaveFacts};

use crate::slots::slots_by;
use crate::windows::windows_of;
use flow_points::PointGraph;
use flow_points::ir_paths_library::Facts;
use ir_base::Items;
use ir_model::Function;
use std::alloc::{AllocError, Global};

/// The facts about paths of a function: the windows of its saves, and its ramp slots.
fn facts_of(alloc: Global, function: &Function) -> Result<Facts, AllocError>
    ensures { IfOk result (λ facts. AreFactsOf function.now facts) }
{
    let mut graph = PointGraph::new(alloc, function)?;
    let windows = windows_of(alloc, function, &mut graph)?;
    let ramp_slots = slots_by(alloc, function, &mut graph)?;
    Ok(Facts {
        windows,
        ramp_slots,
    })
}

/// The facts about paths of each function, in their order.
pub fn all_facts(alloc: Global, functions: &[Function]) -> Result<Items<Facts>, AllocError>
    ensures { IfOk result (λ facts. HaveFacts functions.now facts) }
{
    let mut all = Items::new(alloc);
    for function in functions {
        all.push(facts_of(alloc, function)?)?;
    }
    Ok(all)
}
