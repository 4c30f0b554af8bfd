//! Lemmas on function rules.

ghost use Rattle.std.specs.Prelude.{None};
ghost use Rattle.pass_early.specs.Early.{early_module};
ghost use Rattle.rule_laws.specs.rules.function_rules.Kept.{AllKeepFunctionRules};
ghost use Rattle.rule_laws.specs.rules.function_rules.Tabled.{AreAllTabled};
ghost use Rattle.rule_laws.specs.rule_all.Refused.{IsRefused};
ghost use Rattle.ir_model.specs.declared.module.Module.{Module};
ghost use Rattle.rule_laws.specs.rule_names.declared.stage.Stage.{Stage};
ghost use Rattle.rule_laws.specs.ir_laws.facts.sound_states.Named.{AreLocalsNamed, AreUsesNamed};

/// The functions that the first pass makes of a source that breaks no rule break none of these.
pub fn early_functions_keep_rules()
    ensures { (m : Module) → IsRefused Stage.Source m None → AreAllTabled m → AreLocalsNamed m → AreUsesNamed m → AllKeepFunctionRules (early_module m) }
{}
