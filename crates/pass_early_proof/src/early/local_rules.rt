//! What the first pass leaves of a source that breaks no rule: none of the rules that speak of no paths is broken
//! there.
//!
//! These rules are N1, N2, Y1 to Y5, F3, P1, K1 and K13 (`first_pass_breaks_no_local_rule`).

ghost use Rattle.std.specs.Prelude.{None};
ghost use Rattle.rule_laws.specs.rules.local_rules.Local.{BreaksNoLocalRule};
ghost use Rattle.pass_early.specs.Early.{early_module};
ghost use Rattle.rule_laws.specs.rules.source_rules.Named.{AreTabled};
ghost use Rattle.rule_laws.specs.rule_all.Refused.{IsRefused};
ghost use Rattle.ir_model.specs.declared.module.Module.{Module};
ghost use Rattle.rule_laws.specs.rule_names.declared.stage.Stage.{Stage};

/// Nor does what the first pass makes of it, where the locals that coroutines define are positions of their tables of names.
pub fn first_pass_breaks_no_local_rule()
    ensures { (m : Module) → IsRefused Stage.Source m None → AreTabled m → BreaksNoLocalRule (early_module m) }
{}
