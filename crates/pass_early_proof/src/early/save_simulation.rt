//! That writing the saves of suspends out keeps the meaning of sources.
//!
//! The two agree within 2, where locals are positions of their functions' tables of names
//! (`written_saves_keep_meaning`).

ghost use Rattle.std.specs.Prelude.{ℕ, ℤ, List};
ghost use Rattle.rule_laws.specs.run_agreement.Agreements.{AgreesWithin};
ghost use Rattle.rule_laws.specs.ir_base.declared.outcome.Word.{Word};
ghost use Rattle.rule_laws.specs.run_source.Source.{SourceAt};
ghost use Rattle.ir_model.specs.declared.module.Frame.{Frame};
ghost use Rattle.ir_model.specs.declared.module.Module.{Module};
ghost use Rattle.pass_early_proof.specs.early.saves.SavesWritten.{saves_written};
ghost use Rattle.rule_laws.specs.ir_laws.facts.sound_states.Named.{AreLocalsNamed, AreUsesNamed};

/// Where saves are written out, each run agrees within 2 with the run of the module, in which each local is a position of
/// its function's table of names: a suspend without a save becomes two instructions, and each other one stays one.
pub fn written_saves_keep_meaning()
    ensures { (m : Module) → AreLocalsNamed m → AreUsesNamed m → (sizes : List Frame) (entry : ℕ) (args : List Word) (answers : List ℤ) → AgreesWithin 2 (SourceAt m sizes entry args answers) (SourceAt (saves_written m) sizes entry args answers) }
{}

/// Each local that the result defines is a position of its function's table of names, where each of the module is.
pub fn written_saves_define_named_locals()
    ensures { (m : Module) → AreLocalsNamed m → AreLocalsNamed (saves_written m) }
{}

/// The same of the locals that it uses.
pub fn written_saves_use_named_locals()
    ensures { (m : Module) → AreUsesNamed m → AreUsesNamed (saves_written m) }
{}
