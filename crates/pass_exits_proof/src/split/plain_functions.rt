//! Lemmas on plain functions.

ghost use Rattle.std.specs.Prelude.{◌≡◌, ℕ, Some, false, slice_get};
ghost use Rattle.pass_split.specs.Parts.{plain_of, plain_shape};
ghost use Rattle.pass_fetch_proof.specs.rule_laws.rules.function_rules.Kept.{KeepsFunctionRulesAt};
ghost use Rattle.ir_model.specs.declared.module.Function.{Function};
ghost use Rattle.ir_model.specs.declared.module.Module.{Module};
ghost use Rattle.pass_fetch_proof.specs.rule_names.declared.stage.Stage.{Stage};
ghost use Rattle.pass_fetch_proof.specs.rule_laws.rules.plain_rules.Kept.{KeepsPlainRules};
ghost use Rattle.pass_fetch_proof.specs.rule_laws.frames.same_names.Parts.{HasPartsOf};

/// A function that is no coroutine and breaks none of the rules of functions breaks none of those of modules without
/// coroutines in a module with the parts of the coroutines. Its allocas may be as large as a stage allows.
pub fn turned_functions_keep_plain_rules()
    ensures { (stage : Stage) (m n : Module) (k l : ℕ) (f : Function) → HasPartsOf m n
        → slice_get m.functions k ≡ Some f → f.coroutine ≡ false → KeepsFunctionRulesAt stage m k f
        → KeepsPlainRules n l (plain_of (plain_shape f) f) }
{}
