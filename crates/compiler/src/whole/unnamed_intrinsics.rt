//! Lemmas on unnamed intrinsics.

ghost use Rattle.std.specs.Prelude.{ℕ};
ghost use Rattle.pass_early.specs.Early.{early_function};
ghost use Rattle.ir_model.specs.declared.module.Function.{Function};
ghost use Rattle.compiler.specs.cleanup.unnamed_intrinsics.Unnamed.{NamesNoIntrinsic};
ghost use Rattle.pass_proofs.specs.pass_edges.EdgeBlocks.{with_edge_blocks};

/// Nor do they where saves are written out.
pub fn early_functions_name_no_intrinsic()
    ensures { (k : ℕ) (f : Function) → NamesNoIntrinsic k f → NamesNoIntrinsic k (early_function f) }
{}

/// Nor where edges have blocks.
pub fn edge_blocks_name_no_intrinsic()
    ensures { (k : ℕ) (f : Function) → NamesNoIntrinsic k f → NamesNoIntrinsic k (with_edge_blocks f) }
{}
