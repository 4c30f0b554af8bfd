//! Lemmas on spelled.

ghost use Rattle.pass_edges.specs.EdgeBlocks.{with_edge_blocks};
ghost use Rattle.ir_model.specs.declared.module.Function.{Function};
ghost use Rattle.pass_early_proof.specs.rule_laws.rules.spelled.Spelled.{IsSpelledFunction};

/// And where edges have blocks.
pub fn edge_blocks_can_be_spelled()
    ensures { (f : Function) → IsSpelledFunction f → IsSpelledFunction (with_edge_blocks f) }
{}
