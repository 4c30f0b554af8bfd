//! Nothing but calls names a coro intrinsic, in a source and in what the passes make of it.
//!
//! That is `sources_name_no_intrinsic` and five more.

ghost use Rattle.std.specs.Prelude.{◌≡◌, ℕ, None, Some, slice_get, true, false};
ghost use Rattle.pass_proofs.specs.rule_all.Refused.{IsRefused};
ghost use Rattle.ir_model.specs.declared.module.Function.{Function};
ghost use Rattle.ir_model.specs.declared.module.Module.{Module};
ghost use Rattle.text_canonical.specs.order.Shape.{IsShaped};
ghost use Rattle.pass_proofs.specs.rule_names.declared.stage.Stage.{Stage};
ghost use Rattle.pass_proofs.specs.rule_laws.rules.plain_rules.Items.{KeepsItemRules};
ghost use Rattle.compiler.specs.cleanup.unnamed_intrinsics.Unnamed.{NamesNoIntrinsic};
ghost use Rattle.pass_proofs.specs.rule_laws.rules.function_rules.Kept.{KeepsFunctionRules, KeepsFunctionRulesAt};
ghost use Rattle.pass_proofs.specs.rule_laws.rules.woven_rules.Blocks.{IsWoven};
ghost use Rattle.pass_proofs.specs.rule_laws.rules.woven_rules.Pairs.{AreIncomingOnce};
ghost use Rattle.pass_proofs.specs.rule_laws.rules.woven_rules.Weaving.{Weaving};
ghost use Rattle.frame_layout.specs.declared.layout.Layout.{Layout};
ghost use Rattle.pass_proofs.specs.pass_intrinsics.Shapes.{shape_of};
ghost use Rattle.pass_proofs.specs.pass_intrinsics.declared.shape.Part.{Part};
ghost use Rattle.pass_proofs.specs.rule_laws.frames.same_names.Parts.{HasPart, HasPartsOf};
ghost use Rattle.pass_proofs.specs.split.rules.Parted.{IsPartOf};
ghost use Rattle.pass_split.specs.Parts.{plain_of, plain_shape};

/// The functions of a source that breaks no rule, and whose parts are parts of the grammar, name no coro intrinsic so.
pub fn sources_name_no_intrinsic()
    ensures { (m : Module) → IsShaped m → KeepsItemRules Stage.Source m → IsRefused Stage.Source m None → (k : ℕ) (f : Function) → slice_get m.functions k ≡ Some f → NamesNoIntrinsic k f }
{}

/// Nor where instructions are woven in.
pub fn woven_functions_name_no_intrinsic()
    ensures { (w : Weaving) (m : Module) (k : ℕ) (f g : Function) → IsWoven w m f g → KeepsFunctionRules m k f → AreIncomingOnce f → NamesNoIntrinsic k f → NamesNoIntrinsic k g }
{}

/// Nor do the parts of a coroutine, where the function is there that a given ramp stores.
pub fn parts_name_no_intrinsic()
    ensures { (m n : Module) (k l : ℕ) (layout : Layout) (part : Part) (f g : Function) → HasPartsOf m n → slice_get m.functions k ≡ Some f → f.coroutine ≡ true → IsPartOf (shape_of f layout) f part g → (part ≡ Part.GivenRamp → HasPart n (shape_of f layout).cleanup_name) → NamesNoIntrinsic k f → NamesNoIntrinsic l g }
{}

/// Nor does a function that is no coroutine, once it is turned.
pub fn turned_functions_name_no_intrinsic()
    ensures { (stage : Stage) (m : Module) (k l : ℕ) (f : Function) → f.coroutine ≡ false
        → KeepsFunctionRulesAt stage m k f → NamesNoIntrinsic k f
        → NamesNoIntrinsic l (plain_of (plain_shape f) f) }
{}
