//! Lemmas on begin naming.

ghost use Rattle.std.specs.Prelude.{ℕ, ℤ, List};
ghost use Rattle.rule_laws.specs.run_agreement.Agreements.{AgreesWithin};
ghost use Rattle.rule_laws.specs.ir_base.declared.outcome.Word.{Word};
ghost use Rattle.rule_laws.specs.run_source.Source.{SourceAt};
ghost use Rattle.pass_early_proof.specs.early.renaming.Passes.{named_module};
ghost use Rattle.ir_model.specs.declared.module.Frame.{Frame};
ghost use Rattle.ir_model.specs.declared.module.Module.{Module};
ghost use Rattle.rule_laws.specs.ir_laws.facts.sound_states.Named.{AreLocalsNamed, AreUsesNamed};

/// Where begin's value gets a name, each run agrees within 1 with the run of the module.
pub fn naming_keeps_meaning()
    ensures { (m : Module) → AreLocalsNamed m → AreUsesNamed m → (sizes : List Frame) (entry : ℕ) (args : List Word) (answers : List ℤ) → AgreesWithin 1 (SourceAt m sizes entry args answers) (SourceAt (named_module m) sizes entry args answers) }
{}
