//! Lemmas on numbers.

ghost use Rattle.std.specs.Prelude.{◌≡◌, length};
ghost use Rattle.pass_fetch_proof.specs.pass_intrinsics.Shapes.{suspends_of};
ghost use Rattle.ir_model.specs.declared.module.Function.{Function};
ghost use Rattle.pass_split.specs.pass_exits.ExitBlocks.{with_exit_blocks};

/// Nor do those on the edges that leave windows.
pub fn suspends_are_as_many_where_exits_have_blocks()
    ensures { (f : Function) → length (suspends_of (with_exit_blocks f)) ≡ length (suspends_of f) }
{}
