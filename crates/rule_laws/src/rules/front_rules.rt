//! The rules of functions, with the allocas of the entry block in front.

ghost use Rattle.std.specs.Prelude.{ℕ};
ghost use Rattle.rule_laws.specs.rules.function_rules.Kept.{KeepsFunctionRules};
ghost use Rattle.ir_laws.specs.pass_front.Front.{with_front_allocas};
ghost use Rattle.ir_laws.specs.ir_model.declared.module.Function.{Function};
ghost use Rattle.ir_laws.specs.ir_model.declared.module.Module.{Module};

/// A function that breaks none of the rules of functions breaks none with these allocas in front.
pub fn front_allocas_keep_function_rules()
    ensures { (m : Module) (k : ℕ) (f : Function) → KeepsFunctionRules m k f → KeepsFunctionRules m k (with_front_allocas f) }
{}
