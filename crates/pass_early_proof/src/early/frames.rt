//! What frames hold, and their layouts, stay under the first pass.
//!
//! The layouts are the same, since what they are made of is the same (`layouts_stay`, and of accepted sources
//! `accepted_layouts_stay`).

ghost use Rattle.std.specs.Prelude.{◌↔◌, Bool, Result, ◌≡◌, ℕ, true, List, None};
ghost use Rattle.rule_laws.specs.frame_contents.Frames.{AreLayouts, AreContents, IsFrame};
ghost use Rattle.rule_laws.specs.frame_contents.declared.module_frames.LayoutsError.{LayoutsError};
ghost use Rattle.pass_early_proof.specs.early.renaming.Passes.{named_module, renamed_module};
ghost use Rattle.rule_laws.specs.frame_layout.declared.layout.Layouts.{Layouts};
ghost use Rattle.ir_model.specs.declared.module.Module.{Module};
ghost use Rattle.rule_laws.specs.ir_laws.facts.sound_states.Named.{AreLocalsNamed, AreUsesNamed};
ghost use Rattle.pass_early_proof.specs.early.renaming.Regular.{AllKeepRules};
ghost use Rattle.pass_early_proof.specs.early.frames.NoParams.{AreBeginsNoParams};
ghost use Rattle.pass_early_proof.specs.early.saves.SavesWritten.{saves_written};
ghost use Rattle.pass_early.specs.Early.{early_module};
ghost use Rattle.ir_model.specs.Names.{function_at};
ghost use Rattle.rule_laws.specs.frame_crossing.Crossing.{AreCrossing};
ghost use Rattle.rule_laws.specs.frame_classes.Classes.{AreClasses};
ghost use Rattle.rule_laws.specs.frame_classes.declared.class.SlotClass.{SlotClass};
ghost use Rattle.rule_laws.specs.frame_conflicts.Conflicts.{AreAliveAt, AreConflicts};
ghost use Rattle.rule_laws.specs.rule_all.Refused.{IsRefused};
ghost use Rattle.rule_laws.specs.rule_names.declared.stage.Stage.{Stage};
ghost use Rattle.rule_laws.specs.frame_contents.declared.contents.Contents.{Contents};
ghost use Rattle.rule_laws.specs.frame_contents.declared.held.Holding.{Holding};
ghost use Rattle.rule_laws.specs.frame_layout.declared.laying.LayoutError.{LayoutError};
ghost use Rattle.rule_laws.specs.frame_layout.declared.layout.Layout.{Layout};

/// The layouts of a module's coroutines stay where begin's value gets a name.
pub fn layouts_stay_named()
    ensures { (m : Module) → AreLocalsNamed m → AreUsesNamed m → (share : Bool) (result : Result Layouts LayoutsError) → AreLayouts m share result ↔ AreLayouts (named_module m) share result }
{}

/// They stay where uses of `coro.frame` are renamed, if begin's value is none of the parameters.
pub fn layouts_stay_renamed()
    ensures { (m : Module) → AllKeepRules m → AreBeginsNoParams m → (share : Bool) (result : Result Layouts LayoutsError) → AreLayouts m share result ↔ AreLayouts (renamed_module m) share result }
{}

/// And where saves are written out.
pub fn layouts_stay_saved()
    ensures { (m : Module) → AreLocalsNamed m → AreUsesNamed m → (share : Bool) (result : Result Layouts LayoutsError) → AreLayouts m share result ↔ AreLayouts (saves_written m) share result }
{}

/// So the layouts that are taken of a module are those of what the first pass makes of it.
pub fn layouts_stay()
    ensures { (m : Module) → AreLocalsNamed m → AreUsesNamed m → AllKeepRules (named_module m) → AreBeginsNoParams (named_module m) → (share : Bool) (result : Result Layouts LayoutsError) → AreLayouts m share result ↔ AreLayouts (early_module m) share result }
{}

/// The same of each coroutine of a module: the values that cross suspends are those of what the first pass makes of it.
pub fn crossing_stays()
    ensures { (m : Module) → AreLocalsNamed m → AreUsesNamed m → AllKeepRules (named_module m) → AreBeginsNoParams (named_module m) → (func : ℕ) → (function_at m func).coroutine ≡ true → (all : List (ℕ × ℕ)) → AreCrossing (function_at m func) all ↔ AreCrossing (function_at (early_module m) func) all }
{}

/// So are the classes of slots.
pub fn classes_stay()
    ensures { (m : Module) → AreLocalsNamed m → AreUsesNamed m → AllKeepRules (named_module m) → AreBeginsNoParams (named_module m) → (func : ℕ) → (function_at m func).coroutine ≡ true → (classes : List SlotClass) → AreClasses (function_at m func) classes ↔ AreClasses (function_at (early_module m) func) classes }
{}

/// The slots that may be alive at suspends.
pub fn alive_stay()
    ensures { (m : Module) → AreLocalsNamed m → AreUsesNamed m → AllKeepRules (named_module m) → AreBeginsNoParams (named_module m) → (func : ℕ) → (function_at m func).coroutine ≡ true → (pairs : List (ℕ × ℕ)) → AreAliveAt (function_at m func) pairs ↔ AreAliveAt (function_at (early_module m) func) pairs }
{}

/// And those that conflict.
pub fn conflicts_stay()
    ensures { (m : Module) → AreLocalsNamed m → AreUsesNamed m → AllKeepRules (named_module m) → AreBeginsNoParams (named_module m) → (func : ℕ) → (function_at m func).coroutine ≡ true → (pairs : List (ℕ × ℕ)) → AreConflicts (function_at m func) pairs ↔ AreConflicts (function_at (early_module m) func) pairs }
{}

/// In a source that breaks no rule begin's value is none of the parameters.
pub fn begins_are_no_params()
    ensures { (m : Module) → IsRefused Stage.Source m None → AreLocalsNamed m → AreBeginsNoParams (named_module m) }
{}

/// What a coroutine's frame holds is what that of its early form holds.
pub fn contents_stay()
    ensures { (m : Module) → AreLocalsNamed m → AreUsesNamed m → AllKeepRules (named_module m) → AreBeginsNoParams (named_module m) → (func : ℕ) → (function_at m func).coroutine ≡ true → (c : Contents) → AreContents m (function_at m func) c ↔ AreContents (early_module m) (function_at (early_module m) func) c }
{}

/// So its frame is that of its early form.
pub fn frames_stay()
    ensures { (m : Module) → AreLocalsNamed m → AreUsesNamed m → AllKeepRules (named_module m) → AreBeginsNoParams (named_module m) → (func : ℕ) → (function_at m func).coroutine ≡ true → (share : Bool) (number : ℕ) (held : List Holding) (result : Result Layout LayoutError) → IsFrame m share number (function_at m func) held result ↔ IsFrame (early_module m) share number (function_at (early_module m) func) held result }
{}
