//! That the last pass keeps the states of runs beside each other.

ghost use Rattle.std.specs.Prelude.{ℕ, ℤ, List};
ghost use Rattle.run_agreement.specs.Costs.{AgreesBy};
ghost use Rattle.ir_base.specs.declared.outcome.Word.{Word};
ghost use Rattle.pass_cleanup.specs.Cleanable.{IsCleanable};
ghost use Rattle.pass_cleanup.specs.Cleaned.{IsCleanedOf, plain_machine};
ghost use Rattle.pass_cleanup.specs.Cleanup.{clean_module};
ghost use Rattle.ir_model.specs.declared.module.Module.{Module};

/// Each state is the module's with its places moved over the calls of `coro.id`, which take no step.
pub fn cleaning_keeps_states()
    ensures { (m : Module) → IsCleanable m → (entry : ℕ) (args : List Word) (answers : List ℤ)
        → AgreesBy (IsCleanedOf m) (IsCleanedOf m) (plain_machine m entry args answers) (λ s. 1)
        (plain_machine (clean_module m) entry args answers) (λ t. 1) }
{}
