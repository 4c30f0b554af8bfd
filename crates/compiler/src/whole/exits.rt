//! Lemmas on exits.

ghost use Rattle.std.specs.Prelude.{ℕ};
ghost use Rattle.pass_proofs.specs.edges.rules.Phis.{ArePhisEnteredByJumps};
ghost use Rattle.pass_proofs.specs.rule_laws.rules.function_rules.Kept.{KeepsFunctionRules};
ghost use Rattle.ir_model.specs.declared.module.Function.{Function};
ghost use Rattle.ir_model.specs.declared.module.Module.{Module};
ghost use Rattle.compiler.specs.cleanup.unnamed_intrinsics.Unnamed.{NamesNoIntrinsic};
ghost use Rattle.pass_proofs.specs.pass_exits.ExitBlocks.{with_exit_blocks};

/// It names no coro intrinsic but where it calls it, if it named none.
pub fn exit_blocks_name_no_intrinsic()
    ensures { (m : Module) (k : ℕ) (f : Function) → KeepsFunctionRules m k f → ArePhisEnteredByJumps f → NamesNoIntrinsic k f → NamesNoIntrinsic k (with_exit_blocks f) }
{}
