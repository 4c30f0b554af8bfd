//! Lemmas on rules.

ghost use Rattle.ir_model.specs.declared.module.Function.{Function};
ghost use Rattle.text_canonical.specs.order.Order.{function_order, module_order};
ghost use Rattle.text_canonical.specs.order.Shape.{IsFunction, IsShaped};
ghost use Rattle.pass_proofs.specs.ir_laws.facts.names_apart.Apart.{AreApart, AreNamesApart};
ghost use Rattle.pass_proofs.specs.ir_laws.facts.order_rules.Renumbered.{IsRenumbered};
ghost use Rattle.std.specs.Prelude.{None};
ghost use Rattle.pass_proofs.specs.rule_all.Refused.{IsRefused};
ghost use Rattle.ir_model.specs.declared.module.Module.{Module};
ghost use Rattle.pass_proofs.specs.rule_names.declared.stage.Stage.{Stage};

/// A function with its names in the order of their first occurrence is the function with its locals at other positions, no two at one.
pub fn ordered_functions_are_renumbered()
    ensures { (f : Function) → IsFunction f → AreApart f.names → IsRenumbered f (function_order f) }
{}

/// Where the names of each function's table are all different and its locals are positions of it, the order of the names breaks
/// no rule: what the text of a plain module that is refused for nothing stands for is refused for nothing.
pub fn names_in_order_break_no_rule()
    ensures { (m : Module) → IsShaped m → AreNamesApart m → IsRefused Stage.Plain m None → IsRefused Stage.Plain (module_order m) None }
{}

/// Nor does it hide a broken one.
pub fn names_in_order_hide_no_fault()
    ensures { (m : Module) → IsShaped m → AreNamesApart m → IsRefused Stage.Plain (module_order m) None → IsRefused Stage.Plain m None }
{}
