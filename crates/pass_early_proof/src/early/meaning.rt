//! That the first pass as a whole keeps the meaning of sources.
//!
//! Locals stay positions of their functions' tables (`names_stay`), and the three passes in a row keep the meaning
//! (`early_keeps_meaning`).

ghost use Rattle.pass_early_proof.specs.early.renaming.Passes.{named_module, renamed_module};
ghost use Rattle.pass_early_proof.specs.early.renaming.Regular.{AllKeepRules};
ghost use Rattle.ir_model.specs.declared.module.Module.{Module};
ghost use Rattle.rule_laws.specs.ir_laws.facts.sound_states.Named.{AreLocalsNamed, AreUsesNamed};
ghost use Rattle.std.specs.Prelude.{ℕ, ℤ, List};
ghost use Rattle.rule_laws.specs.run_agreement.Agreements.{AgreesWithin};
ghost use Rattle.rule_laws.specs.ir_base.declared.outcome.Word.{Word};
ghost use Rattle.rule_laws.specs.run_source.Source.{SourceAt};
ghost use Rattle.pass_early.specs.Early.{early_module};
ghost use Rattle.ir_model.specs.declared.module.Frame.{Frame};

/// Where begin's value gets a name and uses of `coro.frame` become uses of it, locals stay positions of their functions' tables.
pub fn names_stay()
    ensures { (m : Module) → AreLocalsNamed m → AreUsesNamed m → AllKeepRules (named_module m) → AreLocalsNamed (renamed_module (named_module m)) × AreUsesNamed (renamed_module (named_module m)) }
{}

/// Each run of a module in which locals are positions of their functions' tables, and whose coroutines keep the rules where
/// begin's value has a name, agrees within 2 with the run of what the first pass makes of it.
pub fn early_keeps_meaning()
    ensures { (m : Module) → AreLocalsNamed m → AreUsesNamed m → AllKeepRules (named_module m) → (sizes : List Frame) (entry : ℕ) (args : List Word) (answers : List ℤ) → AgreesWithin 2 (SourceAt m sizes entry args answers) (SourceAt (early_module m) sizes entry args answers) }
{}
