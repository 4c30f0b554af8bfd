//! Lemmas on unused frames.

ghost use Rattle.std.specs.Prelude.{ℕ};
ghost use Rattle.pass_edges.specs.EdgeBlocks.{with_edge_blocks};
ghost use Rattle.ir_model.specs.declared.module.Function.{Function};
ghost use Rattle.pass_early_proof.specs.rule_laws.rules.unused.Unused.{AreFramesUnused};

/// Nor is one where edges have blocks.
pub fn edge_blocks_use_no_frame()
    ensures { (k : ℕ) (f : Function) → AreFramesUnused k f → AreFramesUnused k (with_edge_blocks f) }
{}
