//! The names in a function with the allocas of its entry block in front.

ghost use Rattle.std.specs.Prelude.{ℕ};
ghost use Rattle.pass_proofs.specs.pass_front.Front.{with_front_allocas};
ghost use Rattle.ir_model.specs.declared.module.Function.{Function};
ghost use Rattle.compiler.specs.cleanup.unnamed_intrinsics.Unnamed.{NamesNoIntrinsic};

/// A function that names coro intrinsics only where it calls them does so with these allocas in front.
pub fn front_allocas_name_no_intrinsic()
    ensures { (k : ℕ) (f : Function) → NamesNoIntrinsic k f → NamesNoIntrinsic k (with_front_allocas f) }
{}
