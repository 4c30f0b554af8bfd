//! Lemmas on widths.

ghost use Rattle.std.specs.Prelude.{◌≡◌, ℕ, None};
ghost use Rattle.pass_early_proof.specs.rule_laws.rules.counted.Widths.{first_other_width};
ghost use Rattle.pass_edges.specs.EdgeBlocks.{with_edge_blocks};
ghost use Rattle.ir_model.specs.declared.module.Function.{Function};

/// And where edges have blocks.
pub fn edge_blocks_have_known_widths()
    ensures { (k : ℕ) (f : Function) → first_other_width k f ≡ None → first_other_width k (with_edge_blocks f) ≡ None }
{}
