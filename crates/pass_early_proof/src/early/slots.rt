//! Classes of slots, where slots may be alive, and which conflict, stay under each of the three passes of which
//! the first one is made.
//!
//! The classes of slots, who may be alive at suspends and who conflicts are the same (`classes_stay`, `alive_stay`,
//! `conflicts_stay`).

ghost use Rattle.std.specs.Prelude.{◌↔◌, List, ℕ};
ghost use Rattle.ir_model.specs.declared.module.Function.{Function};
ghost use Rattle.pass_early_proof.specs.early.saves.SavesWritten.{saved_function};
ghost use Rattle.rule_laws.specs.ir_laws.paths.expanded.Tokens.{HasNamedTokens};
ghost use Rattle.rule_laws.specs.frame_classes.Classes.{AreClasses};
ghost use Rattle.rule_laws.specs.frame_classes.declared.class.SlotClass.{SlotClass};
ghost use Rattle.rule_laws.specs.frame_conflicts.Conflicts.{AreAliveAt, AreConflicts};
ghost use Rattle.pass_early_proof.specs.early.renaming.Passes.{renamed_coroutine};
ghost use Rattle.pass_early_proof.specs.early.renaming.Regular.{IsRegular};
ghost use Rattle.pass_early.specs.declared.renaming.Renaming.{Renaming};
ghost use Rattle.pass_early.specs.BeginName.{with_begin_name};
ghost use Rattle.rule_laws.specs.ir_laws.facts.sound_states.Named.{HasNamedOperands};

/// The classes of slots stay where saves are written out.
pub fn classes_stay_saved()
    ensures { (f : Function) → HasNamedTokens f → (classes : List SlotClass) → AreClasses f classes ↔ AreClasses (saved_function f) classes }
{}

/// So do the slots that may be alive at suspends.
pub fn alive_stay_saved()
    ensures { (f : Function) → HasNamedTokens f → (pairs : List (ℕ × ℕ)) → AreAliveAt f pairs ↔ AreAliveAt (saved_function f) pairs }
{}

/// And those that conflict.
pub fn conflicts_stay_saved()
    ensures { (f : Function) → HasNamedTokens f → (pairs : List (ℕ × ℕ)) → AreConflicts f pairs ↔ AreConflicts (saved_function f) pairs }
{}

/// The classes of slots stay where uses of `coro.frame` are renamed.
pub fn classes_stay_renamed()
    ensures { (f : Function) (r : Renaming) → IsRegular f r → (classes : List SlotClass) → AreClasses f classes ↔ AreClasses (renamed_coroutine r f) classes }
{}

/// So do the slots that may be alive at suspends.
pub fn alive_stay_renamed()
    ensures { (f : Function) (r : Renaming) → IsRegular f r → (pairs : List (ℕ × ℕ)) → AreAliveAt f pairs ↔ AreAliveAt (renamed_coroutine r f) pairs }
{}

/// And those that conflict.
pub fn conflicts_stay_renamed()
    ensures { (f : Function) (r : Renaming) → IsRegular f r → (pairs : List (ℕ × ℕ)) → AreConflicts f pairs ↔ AreConflicts (renamed_coroutine r f) pairs }
{}

/// The classes of slots stay where begin's value gets a name.
pub fn classes_stay_named()
    ensures { (f : Function) → HasNamedOperands f → (classes : List SlotClass) → AreClasses f classes ↔ AreClasses (with_begin_name f) classes }
{}

/// So do the slots that may be alive at suspends.
pub fn alive_stay_named()
    ensures { (f : Function) → HasNamedOperands f → (pairs : List (ℕ × ℕ)) → AreAliveAt f pairs ↔ AreAliveAt (with_begin_name f) pairs }
{}

/// And those that conflict.
pub fn conflicts_stay_named()
    ensures { (f : Function) → HasNamedOperands f → (pairs : List (ℕ × ℕ)) → AreConflicts f pairs ↔ AreConflicts (with_begin_name f) pairs }
{}
