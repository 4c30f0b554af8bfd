//! Where a solver stands.

ghost use Rattle.std.specs.Prelude.{◌≡◌, ◌<◌, OnOk, IfOk, length, replicate, false, [], Some, slice_get};
ghost use Rattle.flow_solver.specs.Steps.{AreFacts, IsPut, IsRaised, IsWaiting};

use crate::flow::Flow;
use ir_base::Items;
use std::alloc::{AllocError, Global};
use std::collections::VecDeque;

/// The facts found so far, and the nodes whose edges are still to be followed.
#[derive(Drop)]
pub struct State<T> {
    pub facts: Items<T>,
    /// For each node whether it is in the list of those to be visited.
    pub waiting: Items<bool>,
    pub todo: VecDeque<usize>,
    /// Whether lower nodes are to be visited first, else higher ones.
    pub rises: bool,
}

/// Bottom at each node, and none to be visited.
pub fn blank<F: Flow>(
    alloc: Global,
    flow: &F,
    nodes: usize,
    rises: bool,
) -> Result<State<F::Fact>, AllocError>
    ensures facts { IfOk result (λ s. s.facts ≡ replicate nodes (F.domain flow.now).bottom) }
    ensures waiting { IfOk result (λ s. s.waiting ≡ replicate nodes false) }
    ensures todo { IfOk result (λ s. s.todo.items ≡ []) }
{
    let mut facts = Items::new(alloc);
    let mut waiting = Items::new(alloc);
    for _ in 0..nodes {
        facts.push(flow.bottom(alloc)?)?;
        waiting.push(false)?;
    }
    Ok(State {
        facts,
        waiting,
        todo: VecDeque::new(alloc),
        rises,
    })
}

/// The fact of a node.
pub fn fact_at<T>(state: &State<T>, node: usize) -> &T
    requires { node < length state.now.facts }
    ensures { slice_get state.now.facts node ≡ Some result.now }
{
    &state.facts.as_slice()[node]
}

/// Whether a node is to be visited before the first one listed.
fn is_before(todo: &VecDeque<usize>, rises: bool, node: usize) -> bool {
    match todo.front() {
        None => false,
        Some(first) => { if rises { node < *first } else { *first < node } }
    }
}

/// Lists a node that is to be visited: in front where its turn is before that of the first one listed, else behind. So facts
/// that start at many nodes meet before they go on together.
fn put(todo: &mut VecDeque<usize>, rises: bool, node: usize) -> Result<(), AllocError>
    ensures { OnOk result (IsPut node todo.old.items todo.new.items) }
{
    if is_before(todo, rises, node) {
        todo.push_front(node)?;
    } else {
        todo.push_back(node)?;
    }
    Ok(())
}

/// Lists a node, unless it is listed.
fn wait(
    waiting: &mut Items<bool>,
    todo: &mut VecDeque<usize>,
    rises: bool,
    node: usize,
) -> Result<(), AllocError>
    requires { node < length waiting.old }
    ensures { OnOk result (IsWaiting node waiting.old waiting.new todo.old.items todo.new.items) }
{
    if waiting.as_slice()[node] {
        return Ok(());
    }
    put(todo, rises, node)?;
    waiting.set(node, true);
    Ok(())
}

/// Joins a fact to that of a node. Where that says more than before, the node is to be visited.
pub fn raise<F: Flow>(
    alloc: Global,
    flow: &F,
    state: &mut State<F::Fact>,
    node: usize,
    fact: &F::Fact,
) -> Result<(), AllocError>
    requires node { node < length state.old.facts }
    requires waiting { length state.old.waiting ≡ length state.old.facts }
    requires facts { AreFacts (F.domain flow.now) state.old.facts }
    requires fact { (F.domain flow.now).IsFact fact.now }
    ensures { OnOk result (IsRaised (F.domain flow.now) node fact.now state.old.facts state.new.facts state.old.waiting state.new.waiting state.old.todo.items state.new.todo.items) }
{
    let old = &state.facts.as_slice()[node];
    let joined = flow.join(alloc, old, fact)?;
    if flow.same(&joined, old) {
        return Ok(());
    }
    let rises = state.rises;
    wait(&mut state.waiting, &mut state.todo, rises, node)?;
    state.facts.set(node, joined);
    Ok(())
}
