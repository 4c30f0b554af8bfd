//! What of names, types of functions and widths of integers stays in the row of passes up to the framed form.
//!
//! That is `framed_forms_have_the_same_names` and seven more.

ghost use Rattle.std.specs.Prelude.{ℕ, List};
ghost use Rattle.text_grammar.specs.Text.{StandsFor};
ghost use Rattle.ir_laws.specs.ir_model.declared.module.Module.{Module};
ghost use Rattle.ir_laws.specs.facts.same_names.Short.{HaveShortNames};

/// Where the name of a function of a text is a number, it is below 2^64 and so written in full.
pub fn texts_have_short_names()
    ensures { (text : List ℕ) (m : Module) → StandsFor text m → HaveShortNames m }
{}
