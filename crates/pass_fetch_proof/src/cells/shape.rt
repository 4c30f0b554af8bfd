//! Lemmas on shape.

ghost use Rattle.std.specs.Prelude.{◌≡◌, ℕ, true, None};
ghost use Rattle.pass_edges_proof.specs.rule_laws.frames.crossing.Crossed.{AreSuspendsApart};
ghost use Rattle.pass_edges_proof.specs.rule_shape.OneOfEach.{wrong_call};
ghost use Rattle.pass_edges_proof.specs.rule_shape.Switches.{wrong_switch};
ghost use Rattle.pass_edges.specs.EdgeBlocks.{with_edge_blocks};
ghost use Rattle.pass_edges_proof.specs.rule_laws.rules.function_rules.Kept.{KeepsFunctionRules};
ghost use Rattle.ir_model.specs.declared.module.Function.{Function};
ghost use Rattle.ir_model.specs.declared.module.Module.{Module};

/// Where edges have blocks, a suspend is the last of its block, its resume and destroy edges lead to blocks without phis, and what it makes isn't needed behind them.
pub fn suspends_stand_apart_where_edges_have_blocks()
    ensures { (m : Module) (k : ℕ) (f : Function) → KeepsFunctionRules m k f → f.coroutine ≡ true → wrong_call k f ≡ None → wrong_switch k f ≡ None → AreSuspendsApart (with_edge_blocks f) }
{}
