//! That the first pass keeps the states of sources beside each other, by what steps cost.

ghost use Rattle.std.specs.Prelude.{ℕ, ℤ, List};
ghost use Rattle.rule_laws.specs.run_agreement.Costs.{AgreesBy, IsNear};
ghost use Rattle.rule_laws.specs.ir_base.declared.outcome.Word.{Word};
ghost use Rattle.pass_early_proof.specs.early.renaming.Passes.{named_module, renamed_module};
ghost use Rattle.pass_early_proof.specs.early.early_states.Beside.{IsShortOf, source_machine, IsSameState, IsSavedOf, IsEarlyOf, IsNearlyEarlyOf};
ghost use Rattle.rule_laws.specs.ir_laws.facts.sound_states.Named.{AreLocalsNamed, AreUsesNamed};
ghost use Rattle.ir_model.specs.declared.module.Frame.{Frame};
ghost use Rattle.ir_model.specs.declared.module.Module.{Module};
ghost use Rattle.pass_early_proof.specs.early.renaming.Regular.{AllKeepRules};
ghost use Rattle.pass_early_proof.specs.early.saves.SavesWritten.{saves_written};
ghost use Rattle.pass_early.specs.Early.{early_module};

/// Where begin's value gets a name, each state has a value more, and no other difference.
pub fn naming_keeps_states()
    ensures { (m : Module) → AreLocalsNamed m → AreUsesNamed m
        → (sizes : List Frame) (entry : ℕ) (args : List Word) (answers : List ℤ)
        → AgreesBy (IsShortOf m) (IsShortOf m) (source_machine m sizes entry args answers) (λ s. 1)
        (source_machine (named_module m) sizes entry args answers) (λ t. 1) }
{}

/// Where uses of values of `coro.frame` become uses of begin's value, the states are the same.
pub fn renaming_keeps_states()
    ensures { (m : Module) → AllKeepRules m → (sizes : List Frame) (entry : ℕ) (args : List Word) (answers : List ℤ)
        → AgreesBy IsSameState IsSameState (source_machine m sizes entry args answers) (λ s. 1)
        (source_machine (renamed_module m) sizes entry args answers) (λ t. 1) }
{}

/// Where saves are written out, states are the same with their places moved, and those in between are one step away.
pub fn written_saves_keep_states()
    ensures { (m : Module) → AreLocalsNamed m → AreUsesNamed m
        → (sizes : List Frame) (entry : ℕ) (args : List Word) (answers : List ℤ)
        → AgreesBy (IsSavedOf m) (IsNear (source_machine (saves_written m) sizes entry args answers) 2 (IsSavedOf m))
        (source_machine m sizes entry args answers) (λ s. 2)
        (source_machine (saves_written m) sizes entry args answers) (λ t. 1) }
{}

/// So states stand beside each other by all three passes, where one step of the source pays for two.
pub fn early_keeps_states()
    ensures { (m : Module) → AreLocalsNamed m → AreUsesNamed m → AllKeepRules (named_module m)
        → (sizes : List Frame) (entry : ℕ) (args : List Word) (answers : List ℤ)
        → AgreesBy (IsEarlyOf m) (IsNearlyEarlyOf m sizes entry args answers)
        (source_machine m sizes entry args answers) (λ s. 2)
        (source_machine (early_module m) sizes entry args answers) (λ t. 1) }
{}
