//! Lemmas on suspend counts.

ghost use Rattle.std.specs.Prelude.{◌≡◌, ◌≤◌, ℕ, None, length, true, Some, slice_get};
ghost use Rattle.rule_shape.specs.Suspends.{suspend_too_many};
ghost use Rattle.pass_intrinsics.specs.Shapes.{suspends_of};
ghost use Rattle.ir_laws.specs.ir_model.declared.module.Function.{Function};
ghost use Rattle.rule_all.specs.Refused.{IsRefused};
ghost use Rattle.ir_laws.specs.ir_model.declared.module.Module.{Module};
ghost use Rattle.rule_names.specs.declared.stage.Stage.{Stage};

/// A coroutine that doesn't break rule K11 has at most 65,536 suspends.
pub fn suspends_are_few()
    ensures { (k : ℕ) (f : Function) → f.coroutine ≡ true → suspend_too_many k f ≡ None → length (suspends_of f) ≤ 65536 }
{}

/// So it is of the coroutines of a source that breaks no rule.
pub fn accepted_suspends_are_few()
    ensures { (m : Module) → IsRefused Stage.Source m None → (k : ℕ) (f : Function) → slice_get m.functions k ≡ Some f → f.coroutine ≡ true → length (suspends_of f) ≤ 65536 }
{}
