//! Lemmas on path rules.

ghost use Rattle.std.specs.Prelude.{◌≡◌, ℕ, None, Some, slice_get};
ghost use Rattle.rule_laws.specs.rules.path_rules.Shape.{KeepsShape};
ghost use Rattle.rule_all.specs.Refused.{IsRefused};
ghost use Rattle.ir_laws.specs.ir_model.declared.module.Function.{Function};
ghost use Rattle.ir_laws.specs.ir_model.declared.module.Module.{Module};
ghost use Rattle.rule_names.specs.declared.stage.Stage.{Stage};
ghost use Rattle.rule_laws.specs.rules.path_rules.Paths.{KeepsPaths};

/// The functions of a source that breaks no rule have no fault of F1, K2, K3, K4, K10 and K11.
pub fn accepted_functions_keep_shape()
    ensures { (m : Module) → IsRefused Stage.Source m None → (k : ℕ) (f : Function) → slice_get m.functions k ≡ Some f → KeepsShape k f }
{}

/// The functions of a source that breaks no rule have no fault of F2, K5, K6, K7, K8 and K9.
pub fn accepted_functions_keep_paths()
    ensures { (m : Module) → IsRefused Stage.Source m None → (k : ℕ) (f : Function) → slice_get m.functions k ≡ Some f → KeepsPaths k f }
{}
