//! Lemmas on known labels.

ghost use Rattle.std.specs.Prelude.{◌≡◌, ℕ, None};
ghost use Rattle.rule_laws.specs.rules.source_rules.Named.{HasTabledLocals};
ghost use Rattle.ir_laws.specs.paths.threads.Labels.{HasNamedLabels};
ghost use Rattle.ir_laws.specs.ir_model.declared.module.Function.{Function};
ghost use Rattle.ir_laws.specs.ir_model.declared.module.Module.{Module};
ghost use Rattle.rule_names.specs.Known.{first_unknown};

/// The labels of a function are positions of its table of names where all that it defines are, and where it has no fault of N2.
pub fn known_labels_are_named()
    ensures { (m : Module) (func : ℕ) (f : Function) → HasTabledLocals func f → first_unknown m func f ≡ None → HasNamedLabels f }
{}
