//! Nothing of a split module names what the last pass removes.

ghost use Rattle.std.specs.Prelude.{◌≡◌, ℕ, Some, slice_get, true};
ghost use Rattle.compiler.specs.cleanup.rules.Clean.{NamesNothingGone};
ghost use Rattle.pass_cleanup.specs.Free.{calls_id_alone};
ghost use Rattle.ir_model.specs.declared.module.Function.{Function};
ghost use Rattle.ir_model.specs.declared.module.Module.{Module};
ghost use Rattle.pass_proofs.specs.rule_laws.rules.plain_rules.Kept.{KeepsPlainRules};
ghost use Rattle.compiler.specs.cleanup.unnamed_intrinsics.Unnamed.{NamesNoIntrinsic};

/// Where of the coro intrinsics `coro.id` alone is called, no function that breaks no rule of plain modules, and names no coro
/// intrinsic but where it calls it, names what goes with the calls of `coro.id`: their results are tokens, and no operand is one.
pub fn split_functions_name_nothing_gone()
    ensures { (m : Module) (k : ℕ) (f : Function) → slice_get m.functions k ≡ Some f → calls_id_alone m ≡ true → KeepsPlainRules m k f → NamesNoIntrinsic k f → NamesNothingGone k f }
{}
