//! Lemmas on widths.

ghost use Rattle.std.specs.Prelude.{◌≡◌, ℕ, List, None, Some, slice_get};
ghost use Rattle.rule_laws.specs.rules.counted.Widths.{first_other_width};
ghost use Rattle.text_grammar.specs.Text.{StandsFor};
ghost use Rattle.ir_laws.specs.ir_model.declared.module.Function.{Function};
ghost use Rattle.ir_laws.specs.ir_model.declared.module.Module.{Module};

/// The integer types of a module that a text stands for have the widths that types are written with.
pub fn texts_have_known_widths()
    ensures { (text : List ℕ) (m : Module) → StandsFor text m → (k : ℕ) (f : Function) → slice_get m.functions k ≡ Some f → first_other_width k f ≡ None }
{}
