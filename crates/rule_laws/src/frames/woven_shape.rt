//! Lemmas on woven shape.

ghost use Rattle.std.specs.Prelude.{◌≡◌, ℕ, None, true, Some};
ghost use Rattle.rule_shape.specs.OneOfEach.{wrong_call};
ghost use Rattle.ir_laws.specs.ir_model.declared.module.Function.{Function};
ghost use Rattle.ir_laws.specs.ir_model.declared.module.Module.{Module};
ghost use Rattle.rule_laws.specs.rules.woven_rules.Blocks.{IsWoven};
ghost use Rattle.rule_laws.specs.rules.woven_rules.Weaving.{Weaving};
ghost use Rattle.rule_laws.specs.frames.woven_shape.Shaped.{KeepsCalls, IsShaped};
ghost use Rattle.rule_shape.specs.Switches.{wrong_switch};
ghost use Rattle.ir_laws.specs.ir_model.Calls.{first_result};
ghost use Rattle.ir_laws.specs.ir_model.declared.operand.Intrinsic.{Intrinsic};
ghost use Rattle.pass_intrinsics.specs.Shapes.{suspends_of};
ghost use Rattle.rule_laws.specs.rules.function_rules.Kept.{KeepsFunctionRules};
ghost use Rattle.rule_laws.specs.rules.replaced.Splittable.{AreBlocksBegun};
ghost use Rattle.rule_laws.specs.rules.woven_rules.Pairs.{AreIncomingOnce};
ghost use Rattle.rule_laws.specs.frames.replaced.Splittable.{HasOwnEdges};
ghost use Rattle.ir_laws.specs.run_laws.changed.Changed.{Each};

/// A coroutine whose calls break no rule (K2) has none that breaks it with instructions woven in.
pub fn woven_calls_break_no_rule()
    ensures { (w : Weaving) (m : Module) (k : ℕ) (f g : Function) → IsWoven w m f g → KeepsCalls w f g → f.coroutine ≡ true → wrong_call k f ≡ None → wrong_call k g ≡ None }
{}

/// Nor do the switches of its suspends (K3).
pub fn woven_switches_break_no_rule()
    ensures { (w : Weaving) (m : Module) (k : ℕ) (f g : Function) → IsWoven w m f g → KeepsCalls w f g → f.coroutine ≡ true → wrong_switch k f ≡ None → wrong_switch k g ≡ None }
{}

/// Begin's value is the same one.
pub fn begin_stays_in_woven_functions()
    ensures { (w : Weaving) (m : Module) (f g : Function) → IsWoven w m f g → KeepsCalls w f g → first_result Intrinsic.CoroBegin g ≡ first_result Intrinsic.CoroBegin f }
{}

/// The suspends are the same, with the saves that they take and the labels to which they lead.
pub fn suspends_stay_in_woven_functions()
    ensures { (w : Weaving) (m : Module) (f g : Function) → IsWoven w m f g → KeepsCalls w f g → suspends_of g ≡ suspends_of f }
{}

/// What asks for begin's value stands where that is made before.
pub fn woven_functions_have_begun()
    ensures { (w : Weaving) (m : Module) (k : ℕ) (f g : Function) → IsWoven w m f g → KeepsCalls w f g → KeepsFunctionRules m k f → AreIncomingOnce f → (begin : ℕ) → first_result Intrinsic.CoroBegin f ≡ Some begin
        → AreBlocksBegun f begin 0 f.blocks → AreBlocksBegun g begin 0 g.blocks }
{}

/// The edges of suspends lead to blocks of their own.
pub fn woven_suspends_have_own_edges()
    ensures { (w : Weaving) (m : Module) (k : ℕ) (f g : Function) → IsWoven w m f g → KeepsCalls w f g → KeepsFunctionRules m k f → AreIncomingOnce f → Each (HasOwnEdges f) (suspends_of f) → Each (HasOwnEdges g) (suspends_of g) }
{}

/// So all that splitting asks of a coroutine's calls stays.
pub fn woven_functions_are_shaped()
    ensures { (w : Weaving) (m : Module) (k : ℕ) (f g : Function) → IsWoven w m f g → KeepsCalls w f g → KeepsFunctionRules m k f → AreIncomingOnce f → (begin : ℕ) → f.coroutine ≡ true → IsShaped k f begin → IsShaped k g begin }
{}
