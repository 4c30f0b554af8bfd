//! A module is refused for one rule at one place, or for none.

ghost use Rattle.std.specs.Prelude.{◌≡◌, Option};
ghost use Rattle.rule_all.specs.Refused.{IsRefused};
ghost use Rattle.ir_laws.specs.ir_model.declared.module.Module.{Module};
ghost use Rattle.rule_modules.specs.declared.order.Refusal.{Refusal};
ghost use Rattle.rule_names.specs.declared.stage.Stage.{Stage};

/// Whatever a module is refused for by the definition, it is refused for nothing else.
pub fn refused_for_one()
    ensures { (stage : Stage) (m : Module) (r s : Option Refusal) → IsRefused stage m r → IsRefused stage m s → r ≡ s }
{}
