//! Lemmas on numbers.

ghost use Rattle.std.specs.Prelude.{◌≡◌, ◌≤◌, ℕ, None, Some, length, slice_get, true};
ghost use Rattle.pass_early.specs.Early.{early_module};
ghost use Rattle.rule_laws.specs.rules.source_rules.Named.{AreTabled};
ghost use Rattle.rule_laws.specs.pass_intrinsics.Shapes.{suspends_of};
ghost use Rattle.rule_laws.specs.rule_all.Refused.{IsRefused};
ghost use Rattle.ir_model.specs.declared.module.Function.{Function};
ghost use Rattle.ir_model.specs.declared.module.Module.{Module};
ghost use Rattle.rule_laws.specs.rule_names.declared.stage.Stage.{Stage};
ghost use Rattle.rule_laws.specs.ir_laws.facts.sound_states.Named.{AreLocalsNamed, AreUsesNamed};

/// And of those that the first pass makes of them.
pub fn early_suspends_are_few()
    ensures { (m : Module) → IsRefused Stage.Source m None → AreTabled m → AreLocalsNamed m → AreUsesNamed m → (k : ℕ) (f : Function) → slice_get (early_module m).functions k ≡ Some f → f.coroutine ≡ true → length (suspends_of f) ≤ 65536 }
{}
