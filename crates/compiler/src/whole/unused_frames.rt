//! Lemmas on unused frames.

ghost use Rattle.std.specs.Prelude.{◌≡◌, ℕ, List, None, Some, slice_get, true};
ghost use Rattle.pass_early.specs.Early.{early_module};
ghost use Rattle.pass_proofs.specs.rule_all.Refused.{IsRefused};
ghost use Rattle.pass_proofs.specs.text_grammar.Text.{StandsFor};
ghost use Rattle.ir_model.specs.declared.module.Function.{Function};
ghost use Rattle.ir_model.specs.declared.module.Module.{Module};
ghost use Rattle.pass_proofs.specs.rule_laws.rules.unused.Unused.{AreFramesUnused};
ghost use Rattle.pass_proofs.specs.rule_names.declared.stage.Stage.{Stage};

/// In what the first pass makes of a coroutine of a source that a text stands for and that breaks no rule, no operand is a value of `coro.frame`.
pub fn early_coroutines_use_no_frame()
    ensures { (text : List ℕ) (m : Module) → StandsFor text m → IsRefused Stage.Source m None → (k : ℕ) (f : Function) → slice_get (early_module m).functions k ≡ Some f → f.coroutine ≡ true → AreFramesUnused k f }
{}
