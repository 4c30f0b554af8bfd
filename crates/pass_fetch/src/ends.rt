//! What is fetched for phis at the ends of the blocks from which their operands come.

ghost use Rattle.std.specs.Prelude.{◌≡◌, ◌++◌, [], IfOk, OnOk, replicate};
ghost use Rattle.pass_fetch.specs.Fetching.{fetch_of, next_after};
ghost use Rattle.pass_fetch.specs.Blocks.{end_at, ends_of_blocks, ends_of_incoming, ends_of_phis, next_after_phi, next_after_phis, next_after_phis_by, with_end};

use crate::fetch::{Fetch, fetch_into, later};
use crate::operands::fetch_of;
use ir_base::{Data, Items, ValueId};
use ir_model::{Block, Incoming, Instr, Phi};
use std::alloc::{AllocError, Global};

/// For each label what is fetched for phis at the end of its block.
#[derive(Drop)]
pub struct Ends {
    lists: Vec<Items<Instr>>,
}

impl Ends {
    fn new(alloc: Global, count: usize) -> Result<Ends, AllocError>
        ensures { IfOk result (λ x. x.lists.items ≡ replicate count []) }
    {
        let mut lists = Vec::new(alloc);
        for _ in 0..count {
            lists.push(Items::new(alloc))?;
        }
        Ok(Ends { lists })
    }

    /// What is fetched at the end of a block.
    pub fn at(&self, label: ValueId) -> &[Instr]
        ensures { result.now ≡ end_at self.now.lists.items label }
    {
        match self.lists.get(label) {
            None => &[],
            Some(list) => list.as_slice(),
        }
    }

    fn add(
        &mut self,
        alloc: Global,
        label: ValueId,
        id: ValueId,
        fetch: &Fetch,
    ) -> Result<(), AllocError>
        ensures { OnOk result (self.new.lists.items ≡ with_end self.old.lists.items label id (Some fetch.now)) }
    {
        if label < self.lists.len() {
            self.lists[label].push(fetch_into(alloc, id, fetch)?)?;
        }
        Ok(())
    }

    fn add_incoming(
        &mut self,
        alloc: Global,
        fetches: &[Option<Fetch>],
        next: ValueId,
        incoming: &Incoming,
    ) -> Result<ValueId, AllocError>
        ensures ends { OnOk result (self.new.lists.items ≡ with_end self.old.lists.items incoming.now.from next (fetch_of fetches.now incoming.now.value)) }
        ensures next { IfOk result (λ n. n ≡ next_after fetches.now next incoming.now.value) }
    {
        match fetch_of(fetches, &incoming.value) {
            None => Ok(next),
            Some(fetch) => {
                self.add(alloc, incoming.from, next, fetch)?;
                later(next)
            }
        }
    }

    fn add_phi(
        &mut self,
        alloc: Global,
        fetches: &[Option<Fetch>],
        first: ValueId,
        phi: &Phi,
    ) -> Result<ValueId, AllocError>
        ensures ends { OnOk result (self.new.lists.items ≡ ends_of_incoming fetches.now first self.old.lists.items phi.now.incoming) }
        ensures next { IfOk result (λ n. n ≡ next_after_phi fetches.now first phi.now) }
    {
        let mut next = first;
        for incoming in phi.incoming.as_slice() {
            next = self.add_incoming(alloc, fetches, next, incoming)?;
        }
        Ok(next)
    }

    fn add_phis(
        &mut self,
        alloc: Global,
        fetches: &[Option<Fetch>],
        first: ValueId,
        phis: &[Phi],
    ) -> Result<ValueId, AllocError>
        ensures ends { OnOk result (self.new.lists.items ≡ ends_of_phis fetches.now first self.old.lists.items phis.now) }
        ensures next { IfOk result (λ n. n ≡ next_after_phis fetches.now first phis.now) }
    {
        let mut next = first;
        for phi in phis {
            next = self.add_phi(alloc, fetches, next, phi)?;
        }
        Ok(next)
    }

    fn add_blocks(
        &mut self,
        alloc: Global,
        fetches: &[Option<Fetch>],
        first: ValueId,
        blocks: &[Block],
    ) -> Result<ValueId, AllocError>
        ensures ends { OnOk result (self.new.lists.items ≡ ends_of_blocks fetches.now first self.old.lists.items blocks.now) }
        ensures next { IfOk result (λ n. n ≡ next_after_phis_by fetches.now first blocks.now) }
    {
        let mut next = first;
        for block in blocks {
            next = self.add_phis(alloc, fetches, next, block.phis.as_slice())?;
        }
        Ok(next)
    }
}

/// For each of so many labels what is fetched for phis at the end of its block, and the next new name.
pub fn ends_of(
    alloc: Global,
    fetches: &[Option<Fetch>],
    first: ValueId,
    blocks: &[Block],
) -> Result<(Ends, ValueId), AllocError>
    ensures ends { IfOk result (λ x. x.0.lists.items ≡ ends_of_blocks fetches.now first (replicate first []) blocks.now) }
    ensures next { IfOk result (λ x. x.1 ≡ next_after_phis_by fetches.now first blocks.now) }
{
    let mut ends = Ends::new(alloc, first)?;
    let next = ends.add_blocks(alloc, fetches, first, blocks)?;
    Ok((ends, next))
}
