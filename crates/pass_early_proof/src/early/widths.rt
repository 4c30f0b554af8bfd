//! Lemmas on widths.

ghost use Rattle.pass_early.specs.Early.{early_module, early_function};
ghost use Rattle.ir_model.specs.declared.module.Module.{Module};
ghost use Rattle.rule_laws.specs.ir_laws.facts.same_names.Same.{HaveSameNames};
ghost use Rattle.rule_laws.specs.ir_laws.facts.function_rules.Signatures.{HaveSameSignatures};
ghost use Rattle.std.specs.Prelude.{◌≡◌, ℕ, None};
ghost use Rattle.rule_laws.specs.rules.counted.Widths.{first_other_width};
ghost use Rattle.ir_model.specs.declared.module.Function.{Function};

/// The first pass leaves types, globals and declarations, and the names of functions, and which of them are coroutines.
pub fn early_modules_have_the_same_names()
    ensures { (m : Module) → HaveSameNames m (early_module m) }
{}

/// It leaves their results and the types of their parameters.
pub fn early_modules_have_the_same_signatures()
    ensures { (m : Module) → HaveSameSignatures m (early_module m) }
{}

/// They have them still where saves are written out.
pub fn early_functions_have_known_widths()
    ensures { (k : ℕ) (f : Function) → first_other_width k f ≡ None → first_other_width k (early_function f) ≡ None }
{}
