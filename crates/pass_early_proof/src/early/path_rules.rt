//! That what the first pass makes of a source that breaks no rule breaks none of those on edges, on the calls of
//! coroutines and on paths.
//!
//! These are F1, F2 and K2 to K11 (`early_functions_keep_shape`, `early_functions_keep_paths`).

ghost use Rattle.std.specs.Prelude.{◌≡◌, ℕ, None, Some, slice_get};
ghost use Rattle.pass_early.specs.Early.{early_module};
ghost use Rattle.rule_laws.specs.rules.path_rules.Shape.{KeepsShape};
ghost use Rattle.rule_laws.specs.rules.source_rules.Named.{AreTabled};
ghost use Rattle.rule_laws.specs.rule_all.Refused.{IsRefused};
ghost use Rattle.ir_model.specs.declared.module.Function.{Function};
ghost use Rattle.ir_model.specs.declared.module.Module.{Module};
ghost use Rattle.rule_laws.specs.rule_names.declared.stage.Stage.{Stage};
ghost use Rattle.rule_laws.specs.ir_laws.facts.sound_states.Named.{AreLocalsNamed, AreUsesNamed};
ghost use Rattle.rule_laws.specs.rules.path_rules.Paths.{KeepsPaths};

/// Nor have those that the first pass makes of them.
pub fn early_functions_keep_shape()
    ensures { (m : Module) → IsRefused Stage.Source m None → AreTabled m → AreLocalsNamed m → AreUsesNamed m → (k : ℕ) (g : Function) → slice_get (early_module m).functions k ≡ Some g → KeepsShape k g }
{}

/// Nor have those that the first pass makes of them.
pub fn early_functions_keep_paths()
    ensures { (m : Module) → IsRefused Stage.Source m None → AreTabled m → AreLocalsNamed m → AreUsesNamed m → (k : ℕ) (g : Function) → slice_get (early_module m).functions k ≡ Some g → KeepsPaths k g }
{}
