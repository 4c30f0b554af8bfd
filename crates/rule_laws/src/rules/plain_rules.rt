//! Modules that break none of the rules of modules without coroutines.
//!
//! A module whose items and functions break no rule and that has no coroutine is accepted by the rules of modules
//! without coroutines (`plain_modules_are_accepted`).

ghost use Rattle.std.specs.Prelude.{None};
ghost use Rattle.rule_all.specs.Refused.{IsRefused};
ghost use Rattle.ir_laws.specs.ir_model.declared.module.Module.{Module};
ghost use Rattle.rule_names.specs.declared.stage.Stage.{Stage};
ghost use Rattle.rule_laws.specs.rules.plain_rules.Items.{KeepsItemRules};
ghost use Rattle.rule_laws.specs.rules.plain_rules.Kept.{AllKeepPlainRules, HasNoCoroutine};

/// A module whose items and functions break none of the rules, and that has no coroutine left, is refused for nothing as a plain one.
pub fn plain_modules_are_accepted()
    ensures { (m : Module) → KeepsItemRules Stage.Plain m → AllKeepPlainRules m → HasNoCoroutine m → IsRefused Stage.Plain m None }
{}

/// The items of a module that is refused for nothing break no rule.
pub fn accepted_modules_keep_item_rules()
    ensures { (stage : Stage) (m : Module) → IsRefused stage m None → KeepsItemRules stage m }
{}
