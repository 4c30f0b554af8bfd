//! What a solver is told of the facts of an analysis.

ghost use Rattle.std.specs.Prelude.{◌≡◌, ◌↔◌, IsTrue, IfOk};
ghost use Rattle.flow_solver.specs.Domain.{Domain, IsLattice, MeansSame};

use std::alloc::{AllocError, Global};

/// The facts of an analysis: their order, and what each edge makes of them. Every call but `same` and `height` may find no
/// memory.
pub trait Flow {
    type Fact: Drop;

    /// What the facts of this analysis mean.
    ghost domain: { Self → Domain Self.Fact };

    /// The fact that is below all others.
    fn bottom(&self, alloc: Global) -> Result<Self::Fact, AllocError>
        ensures { IfOk result (λ x. x ≡ (domain self.now).bottom) };

    /// The same fact again.
    fn copy(&self, alloc: Global, a: &Self::Fact) -> Result<Self::Fact, AllocError>
        ensures { IfOk result (λ x. x ≡ a.now) };

    /// The least fact above both.
    fn join(&self, alloc: Global, a: &Self::Fact, b: &Self::Fact) -> Result<Self::Fact, AllocError>
        requires first { (domain self.now).IsFact a.now }
        requires second { (domain self.now).IsFact b.now }
        ensures { IfOk result (λ x. x ≡ (domain self.now).joined a.now b.now) };

    /// What an edge, named by its position in the graph's list, makes of a fact.
    fn transfer(&self, alloc: Global, edge: usize, a: &Self::Fact) -> Result<Self::Fact, AllocError>
        requires known { (domain self.now).HasEdge edge }
        requires fact { (domain self.now).IsFact a.now }
        ensures { IfOk result (λ x. x ≡ (domain self.now).carried edge a.now) };

    /// Whether both mean the same.
    fn same(&self, a: &Self::Fact, b: &Self::Fact) -> bool
        requires first { (domain self.now).IsFact a.now }
        requires second { (domain self.now).IsFact b.now }
        ensures { IsTrue result ↔ MeansSame (domain self.now) a.now b.now };

    /// A bound on the steps of a rising chain of facts.
    fn height(&self) -> u128
        ensures { result ≡ (domain self.now).height };

    ghost laws: { (flow : Self) → IsLattice (domain flow) };
}
