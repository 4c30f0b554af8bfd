//! What becomes of the names and types of a module's functions when its coroutines are split.
//!
//! The parts of coroutines have names that no other item has, and the module stays known
//! (`split_modules_have_the_parts`, `split_modules_keep_item_rules`).

ghost use Rattle.ir_laws.specs.ir_model.declared.module.Module.{Module};
ghost use Rattle.rule_names.specs.declared.stage.Stage.{Stage};
ghost use Rattle.rule_laws.specs.rules.plain_rules.Items.{KeepsItemRules};
ghost use Rattle.ir_laws.specs.facts.same_names.Same.{HaveSameNames};

/// A pass that changes neither items nor the names of functions leaves no fault in items.
pub fn modules_with_the_same_names_keep_item_rules()
    ensures { (stage : Stage) (m n : Module) → HaveSameNames m n → KeepsItemRules stage m → KeepsItemRules stage n }
{}
