//! That the coroutines of a source that breaks no rule keep what the first pass's theorem asks of them.
//!
//! They keep it once begins have names (`named_coroutines_keep_rules`).

ghost use Rattle.std.specs.Prelude.{None, ℕ, ℤ, List};
ghost use Rattle.pass_early_proof.specs.early.renaming.Regular.{AllKeepRules};
ghost use Rattle.rule_laws.specs.rules.source_rules.Named.{AreTabled, HaveNamedBegins};
ghost use Rattle.rule_laws.specs.rule_all.Refused.{IsRefused};
ghost use Rattle.ir_model.specs.declared.module.Module.{Module};
ghost use Rattle.rule_laws.specs.rule_names.declared.stage.Stage.{Stage};
ghost use Rattle.pass_early_proof.specs.early.renaming.Passes.{named_module, renamed_module};
ghost use Rattle.rule_laws.specs.run_agreement.Agreements.{AgreesWithin};
ghost use Rattle.rule_laws.specs.ir_base.declared.outcome.Word.{Word};
ghost use Rattle.rule_laws.specs.run_source.Source.{SourceAt};
ghost use Rattle.ir_model.specs.declared.module.Frame.{Frame};

/// A source that breaks no rule, in which begins have names, keeps what the theorem on the renaming asks.
pub fn accepted_coroutines_keep_rules()
    ensures { (m : Module) → IsRefused Stage.Source m None → AreTabled m → HaveNamedBegins m → AllKeepRules m }
{}

/// Any source that breaks no rule keeps it, once its begins have got names.
pub fn named_coroutines_keep_rules()
    ensures { (m : Module) → IsRefused Stage.Source m None → AreTabled m → AllKeepRules (named_module m) }
{}

/// So in any source that breaks no rule the uses of values of `coro.frame` may become uses of begin's value, once that has a
/// name: each run agrees within 1 with the run before.
pub fn renaming_keeps_meaning_of_sources()
    ensures { (m : Module) → IsRefused Stage.Source m None → AreTabled m → (sizes : List Frame) (entry : ℕ) (args : List Word) (answers : List ℤ) → AgreesWithin 1 (SourceAt (named_module m) sizes entry args answers) (SourceAt (renamed_module (named_module m)) sizes entry args answers) }
{}
