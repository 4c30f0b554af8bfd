//! What is left of candidates.

ghost use Rattle.std.specs.Prelude.{ℕ};
ghost use Rattle.elide_candidates.specs.Chains.{IsChainLeft};
ghost use Rattle.ir_model.specs.declared.module.Module.{Module};

/// No chain of candidates that are left leads from a coroutine to itself. So frames can be laid out callees first.
pub fn candidates_that_are_left_make_no_circle()
    ensures { (m : Module) (func : ℕ) → IsChainLeft m func func → ⊥ }
{}
