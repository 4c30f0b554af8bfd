//! The facts about paths of a framed module's functions.

ghost use Rattle.std.specs.Prelude.{IfOk};
ghost use Rattle.run_framed_facts.specs.FramedFacts.{AreFramedFacts, HaveFramedFacts};

use flow_facts::windows_of;
use flow_points::PointGraph;
use ir_base::Items;
use ir_model::Function;
use ir_paths::Facts;
use rule_shape::allocas_of;
use std::alloc::{AllocError, Global};

/// The facts about paths of a function: the windows of its saves, and its allocas, all of which are its activations' own.
fn facts_of(alloc: Global, function: &Function) -> Result<Facts, AllocError>
    ensures { IfOk result (λ facts. AreFramedFacts function.now facts) }
{
    let mut graph = PointGraph::new(alloc, function)?;
    let windows = windows_of(alloc, function, &mut graph)?;
    let ramp_slots = allocas_of(alloc, function)?;
    Ok(Facts {
        windows,
        ramp_slots,
    })
}

/// The facts about paths of each function of a framed module, in their order.
pub fn all_framed_facts(alloc: Global, functions: &[Function]) -> Result<Items<Facts>, AllocError>
    ensures { IfOk result (λ facts. HaveFramedFacts functions.now facts) }
{
    let mut all = Items::new(alloc);
    for function in functions {
        all.push(facts_of(alloc, function)?)?;
    }
    Ok(all)
}
