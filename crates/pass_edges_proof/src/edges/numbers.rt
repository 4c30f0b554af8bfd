//! Lemmas on numbers.

ghost use Rattle.std.specs.Prelude.{◌≡◌, length};
ghost use Rattle.pass_edges.specs.EdgeBlocks.{with_edge_blocks};
ghost use Rattle.pass_early_proof.specs.pass_intrinsics.Shapes.{suspends_of};
ghost use Rattle.ir_model.specs.declared.module.Function.{Function};

/// Blocks on edges add no suspend, and take none.
pub fn suspends_are_as_many_where_edges_have_blocks()
    ensures { (f : Function) → length (suspends_of (with_edge_blocks f)) ≡ length (suspends_of f) }
{}
