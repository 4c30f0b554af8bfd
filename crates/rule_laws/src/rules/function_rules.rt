//! Functions that break none of the rules of functions, but that they may be coroutines: what the passes that
//! build frames keep.
//!
//! The functions that the first pass makes of an accepted source break none of the rules of functions
//! (`KeepsFunctionRules`: N1, N2, L1 of types, Y1 to Y5, F1 to F3, P1, K13; `early_functions_keep_rules`). These go
//! by types, globals, declarations and how functions are called (`rules_go_by_signatures`). Further functions break none
//! of them (`rules_hold_with_further_functions`).

ghost use Rattle.rule_laws.specs.rules.function_rules.Tabled.{AreAllTabled};
ghost use Rattle.ir_laws.specs.ir_model.declared.module.Module.{Module};
ghost use Rattle.text_canonical.specs.order.Shape.{IsShaped};
ghost use Rattle.std.specs.Prelude.{ℕ};
ghost use Rattle.rule_laws.specs.frames.same_names.Parts.{HasFunctionsOf};
ghost use Rattle.rule_laws.specs.rules.function_rules.Kept.{KeepsFunctionRules, KeepsFunctionRulesAt};
ghost use Rattle.rule_names.specs.declared.stage.Stage.{Stage};
ghost use Rattle.ir_laws.specs.facts.function_rules.Signatures.{HaveSameSignatures};
ghost use Rattle.ir_laws.specs.ir_model.declared.module.Function.{Function};

/// In a module whose parts are parts of the grammar, as in each that a text stands for, what functions define are positions of
/// their tables of names.
pub fn shaped_modules_are_all_tabled()
    ensures { (m : Module) → IsShaped m → AreAllTabled m }
{}

/// A function that breaks none of them in a module breaks none in another one with the same types, globals and declarations,
/// whose functions are called alike.
pub fn rules_go_by_signatures()
    ensures { (m n : Module) (k : ℕ) (f : Function) → HaveSameSignatures m n → KeepsFunctionRules m k f → KeepsFunctionRules n k f }
{}

/// Nor does it in a module that has further functions, none of which the first only declares or has as a global.
pub fn rules_hold_with_further_functions()
    ensures { (stage : Stage) (m n : Module) (k : ℕ) (f : Function) → HasFunctionsOf m n → KeepsFunctionRulesAt stage m k f
        → KeepsFunctionRulesAt stage n k f }
{}

/// Where no alloca of it is larger than a stage allows, none is larger than plain modules allow.
pub fn limits_of_plain_modules_are_the_widest()
    ensures { (stage : Stage) (m : Module) (k : ℕ) (f : Function) → KeepsFunctionRulesAt stage m k f
        → KeepsFunctionRulesAt Stage.Plain m k f }
{}
