//! That the first pass keeps the meaning of sources.
//!
//! The pass is three in a row: begin's value named, uses of `coro.frame` renamed, saves written out
//! (`early_is_three_passes`). The second of them agrees within 1 where coroutines keep the rules
//! (`renaming_keeps_meaning`).

ghost use Rattle.std.specs.Prelude.{◌≡◌, ℕ, ℤ, List};
ghost use Rattle.pass_early_proof.specs.early.renaming.Passes.{named_module, renamed_module};
ghost use Rattle.pass_early.specs.Early.{early_module};
ghost use Rattle.ir_model.specs.declared.module.Module.{Module};
ghost use Rattle.pass_early_proof.specs.early.saves.SavesWritten.{saves_written};
ghost use Rattle.rule_laws.specs.run_agreement.Agreements.{AgreesWithin};
ghost use Rattle.rule_laws.specs.ir_base.declared.outcome.Word.{Word};
ghost use Rattle.rule_laws.specs.run_source.Source.{SourceAt};
ghost use Rattle.pass_early_proof.specs.early.renaming.Regular.{AllKeepRules};
ghost use Rattle.ir_model.specs.declared.module.Frame.{Frame};

/// The first pass is three in a row: begin's value gets a name, uses of `coro.frame` become uses of it, and saves are
/// written out.
#[tactic(auto, using(crate::proofs::early::renaming::Composition::early_in_turn))]
pub fn early_is_three_passes()
    ensures { (m : Module) → early_module m ≡ saves_written (renamed_module (named_module m)) }
{}

/// Where the uses of values of `coro.frame` become uses of begin's value, each run agrees within 1 with the run of the module.
pub fn renaming_keeps_meaning()
    ensures { (m : Module) → AllKeepRules m → (sizes : List Frame) (entry : ℕ) (args : List Word) (answers : List ℤ) → AgreesWithin 1 (SourceAt m sizes entry args answers) (SourceAt (renamed_module m) sizes entry args answers) }
{}
