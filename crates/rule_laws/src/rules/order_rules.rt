//! That the rules of modules without coroutines go by no order of names.
//!
//! The names of a function are put in the order of their first occurrence. That gives its locals other positions, no
//! two of them one (`ordered_functions_are_renumbered`). It breaks each rule of plain functions at the place where
//! the function did (`renumbering_keeps_each_fault`). So the order of names neither breaks a rule of plain modules
//! nor hides a broken one (`names_in_order_break_no_rule`, `names_in_order_hide_no_fault`).

ghost use Rattle.std.specs.Prelude.{ℕ, None};
ghost use Rattle.ir_laws.specs.ir_model.declared.module.Function.{Function};
ghost use Rattle.ir_laws.specs.ir_model.declared.module.Module.{Module};
ghost use Rattle.ir_laws.specs.facts.order_rules.Renumbered.{IsRenumbered};
ghost use Rattle.rule_laws.specs.rules.order_rules.Same.{HaveSameFaults};
ghost use Rattle.rule_laws.specs.rules.plain_rules.Kept.{AllKeepPlainRules, HasNoCoroutine, KeepsPlainRules};
ghost use Rattle.rule_all.specs.Refused.{IsRefused};
ghost use Rattle.rule_names.specs.declared.stage.Stage.{Stage};
ghost use Rattle.ir_laws.specs.facts.function_rules.Signatures.{HaveSameSignatures};

/// A function whose locals stand at other positions, no two at one, breaks each rule of plain functions at the place where it did.
pub fn renumbering_keeps_each_fault()
    ensures { (m : Module) (k : ℕ) (f g : Function) → IsRenumbered f g → HaveSameFaults m k f g }
{}

/// The functions of a plain module that is refused for nothing break none of the rules of plain functions, and none is a coroutine.
pub fn accepted_modules_keep_plain_rules()
    ensures { (m : Module) → IsRefused Stage.Plain m None → AllKeepPlainRules m × HasNoCoroutine m }
{}

/// A function that breaks none of these rules in a module breaks none in another one with the same types, globals and declarations,
/// whose functions are called alike.
pub fn plain_rules_go_by_signatures()
    ensures { (m n : Module) (k : ℕ) (f : Function) → HaveSameSignatures m n → KeepsPlainRules m k f → KeepsPlainRules n k f }
{}
