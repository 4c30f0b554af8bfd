//! Lemmas on names.

ghost use Rattle.std.specs.Prelude.{◌≡◌, [], true};
ghost use Rattle.pass_early.specs.Early.{early_function};
ghost use Rattle.ir_model.specs.declared.module.Function.{Function};
ghost use Rattle.rule_laws.specs.rules.names_apart.Words.{AreFew, IsTableOf, early_words};

/// The first pass gives a coroutine names of its own words, and all stay different.
pub fn early_names_are_apart()
    ensures { (f : Function) → f.coroutine ≡ true → IsTableOf [] f.names → AreFew (early_function f).names → IsTableOf early_words (early_function f).names }
{}
