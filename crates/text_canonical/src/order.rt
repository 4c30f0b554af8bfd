//! Modules whose names stand in another order than their text has them: what their canonical text stands for.
//!
//! A module is in order where the names of each function stand in the order of their first occurrence. The canonical
//! text of a printable module stands for the module in order, if its parts are parts of the grammar (`IsShaped`,
//! `printed_in_order`). What some text stands for has that shape (`texts_have_the_shape`).

ghost use Rattle.text_canonical.specs.canonical.Items.{module_text};
ghost use Rattle.text_canonical.specs.canonical.ItemSymbols.{IsPrintable};
ghost use Rattle.text_grammar.specs.Text.{StandsFor};
ghost use Rattle.ir_model.specs.declared.module.Module.{Module};
ghost use Rattle.text_canonical.specs.order.Order.{module_order};
ghost use Rattle.text_canonical.specs.order.Shape.{IsShaped};
ghost use Rattle.std.specs.Prelude.{ℕ, List};

/// The canonical text of a printable module whose parts are parts of the grammar stands for the module with the names of each
/// function in the order of their first occurrence.
pub fn printed_in_order()
    ensures { (m : Module) → IsShaped m → IsPrintable m → StandsFor (module_text m) (module_order m) }
{}

/// A module that some text stands for has the shape.
pub fn texts_have_the_shape()
    ensures { (text : List ℕ) (m : Module) → StandsFor text m → IsShaped m }
{}
