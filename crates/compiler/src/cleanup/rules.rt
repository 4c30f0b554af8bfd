//! What the last pass leaves breaks none of the rules of plain modules, where what it is given breaks none.
//!
//! The last pass leaves functions and items that break no rule so (`cleaned_modules_keep_plain_rules`,
//! `cleaned_modules_keep_item_rules`), and no coroutine (`cleaned_modules_have_no_coroutine`).

ghost use Rattle.compiler.specs.cleanup.rules.Clean.{NameNothingGone};
ghost use Rattle.pass_cleanup.specs.Cleanup.{clean_module};
ghost use Rattle.ir_model.specs.declared.module.Module.{Module};
ghost use Rattle.pass_proofs.specs.rule_laws.rules.plain_rules.Kept.{AllKeepPlainRules, HasNoCoroutine};
ghost use Rattle.pass_proofs.specs.rule_names.declared.stage.Stage.{Stage};
ghost use Rattle.pass_proofs.specs.rule_laws.rules.plain_rules.Items.{KeepsItemRules};
ghost use Rattle.std.specs.Prelude.{not, true, ◌≡◌};
ghost use Rattle.std.specs.List.{list_all};
ghost use Rattle.pass_cleanup.specs.Free.{calls_id_alone};

/// Functions without the calls of `coro.id` break no rule, where nothing names what goes.
pub fn cleaned_modules_keep_plain_rules()
    ensures { (m : Module) → AllKeepPlainRules m → NameNothingGone m → AllKeepPlainRules (clean_module m) }
{}

/// Nor do items without the declarations of coro intrinsics.
pub fn cleaned_modules_keep_item_rules()
    ensures { (m : Module) → KeepsItemRules Stage.Plain m → KeepsItemRules Stage.Plain (clean_module m) }
{}

/// Nothing of a coroutine is left, where no function was one and of the coro intrinsics `coro.id` alone was called.
pub fn cleaned_modules_have_no_coroutine()
    ensures { (m : Module) → list_all (λ f. not f.coroutine) m.functions ≡ true → calls_id_alone m ≡ true → NameNothingGone m → HasNoCoroutine (clean_module m) }
{}
