//! That the first pass leaves elidable callees, and the sites of their calls, as they are.
//!
//! The elidable callees and the sites of a source that breaks no rule are those of what the first pass makes of it
//! (`elidable_callees_stay`, `sites_stay`).

ghost use Rattle.std.specs.Prelude.{◌↔◌, ℕ, List, None};
ghost use Rattle.pass_early_proof.specs.early.renaming.Passes.{named_module, renamed_module};
ghost use Rattle.elide_sites.specs.Elidable.{AreElidable};
ghost use Rattle.ir_model.specs.declared.module.Module.{Module};
ghost use Rattle.rule_laws.specs.ir_laws.facts.sound_states.Named.{AreLocalsNamed, AreUsesNamed};
ghost use Rattle.rule_laws.specs.ir_base.declared.outcome.Place.{Place};
ghost use Rattle.elide_sites.specs.Sites.{AreSites};
ghost use Rattle.pass_early_proof.specs.early.renaming.Regular.{AllKeepRules};
ghost use Rattle.pass_early_proof.specs.early.saves.SavesWritten.{saves_written};
ghost use Rattle.pass_early.specs.Early.{early_module};
ghost use Rattle.rule_laws.specs.rules.source_rules.Named.{AreTabled};
ghost use Rattle.rule_laws.specs.rule_all.Refused.{IsRefused};
ghost use Rattle.rule_laws.specs.rule_names.declared.stage.Stage.{Stage};

/// The elidable callees stay where begin's value gets a name.
pub fn elidable_callees_stay_named()
    ensures { (m : Module) → AreLocalsNamed m → AreUsesNamed m → (all : List ℕ) → AreElidable m all ↔ AreElidable (named_module m) all }
{}

/// So do the sites.
pub fn sites_stay_named()
    ensures { (m : Module) → AreLocalsNamed m → AreUsesNamed m → (all : List Place) → AreSites m all ↔ AreSites (named_module m) all }
{}

/// The elidable callees stay where uses of `coro.frame` become uses of begin's value.
pub fn elidable_callees_stay_renamed()
    ensures { (m : Module) → AllKeepRules m → (all : List ℕ) → AreElidable m all ↔ AreElidable (renamed_module m) all }
{}

/// So do the sites.
pub fn sites_stay_renamed()
    ensures { (m : Module) → AllKeepRules m → (all : List Place) → AreSites m all ↔ AreSites (renamed_module m) all }
{}

/// The elidable callees stay where saves are written out.
pub fn elidable_callees_stay_saved()
    ensures { (m : Module) → AreLocalsNamed m → (all : List ℕ) → AreElidable m all ↔ AreElidable (saves_written m) all }
{}

/// So do the sites.
pub fn sites_stay_saved()
    ensures { (m : Module) → AreLocalsNamed m → (all : List Place) → AreSites m all ↔ AreSites (saves_written m) all }
{}

/// The elidable callees of a source that breaks no rule, and whose locals are positions of their tables, are those of what the
/// first pass makes of it.
pub fn elidable_callees_stay()
    ensures { (m : Module) → IsRefused Stage.Source m None → AreTabled m → AreLocalsNamed m → AreUsesNamed m → (all : List ℕ) → AreElidable m all ↔ AreElidable (early_module m) all }
{}

/// So are the sites.
pub fn sites_stay()
    ensures { (m : Module) → IsRefused Stage.Source m None → AreTabled m → AreLocalsNamed m → AreUsesNamed m → (all : List Place) → AreSites m all ↔ AreSites (early_module m) all }
{}
