//! Lemmas on spelled.

ghost use Rattle.pass_early.specs.Early.{early_function};
ghost use Rattle.ir_model.specs.declared.module.Function.{Function};
ghost use Rattle.rule_laws.specs.rules.spelled.Spelled.{IsSpelledFunction};

/// So they can where saves are written out.
pub fn early_functions_can_be_spelled()
    ensures { (f : Function) → IsSpelledFunction f → IsSpelledFunction (early_function f) }
{}
