//! Lemmas on source rules.

ghost use Rattle.rule_laws.specs.rules.source_rules.Named.{AreTabled};
ghost use Rattle.ir_laws.specs.ir_model.declared.module.Module.{Module};
ghost use Rattle.text_canonical.specs.order.Shape.{IsShaped};

/// In a module whose parts are parts of the grammar, as in each that a text stands for, what a coroutine defines are positions
/// of its table of names.
pub fn shaped_modules_are_tabled()
    ensures { (m : Module) → IsShaped m → AreTabled m }
{}
