//! Lemmas on local rules.

ghost use Rattle.std.specs.Prelude.{None};
ghost use Rattle.rule_laws.specs.rules.local_rules.Local.{BreaksNoLocalRule};
ghost use Rattle.rule_all.specs.Refused.{IsRefused};
ghost use Rattle.ir_laws.specs.ir_model.declared.module.Module.{Module};
ghost use Rattle.rule_names.specs.declared.stage.Stage.{Stage};

/// A source that breaks no rule breaks none of those that speak of no paths.
pub fn accepted_sources_break_no_local_rule()
    ensures { (m : Module) → IsRefused Stage.Source m None → BreaksNoLocalRule m }
{}
