//! Words of bits as the facts of an analysis.

use flow_solver::Flow;
use std::alloc::{AllocError, Global};

/// An analysis whose facts are words of bits. An edge keeps of a word the bits that its own word has.
#[derive(Drop)]
pub struct Kept<'a> {
    pub kept: &'a [u64],
}

impl Flow for Kept<'_> {
    ghost use Rattle.flow_bits.specs.Bits.{words};
    ghost use Rattle.flow_bits.specs.Laws.{words_are_lattice};

    type Fact = u64;

    ghost domain = { λ flow. words flow.kept.now };

    ghost laws = { λ flow. words_are_lattice flow.kept.now };

    fn bottom(&self, _alloc: Global) -> Result<u64, AllocError> {
        Ok(0)
    }

    fn copy(&self, _alloc: Global, a: &u64) -> Result<u64, AllocError> {
        Ok(*a)
    }

    fn join(&self, _alloc: Global, a: &u64, b: &u64) -> Result<u64, AllocError> {
        Ok(*a | *b)
    }

    fn transfer(&self, _alloc: Global, edge: usize, a: &u64) -> Result<u64, AllocError> {
        Ok(*a & self.kept[edge])
    }

    fn same(&self, a: &u64, b: &u64) -> bool {
        *a == *b
    }

    fn height(&self) -> u128 {
        64
    }
}
