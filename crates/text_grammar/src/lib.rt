//! The grammar of modules (docs/TEXT.md) as a relation: which text stands for which module, and with how many whole items a
//! text begins.
//!
//! The relations are `StandsFor` and `BeginsWith`. The empty text stands for the empty module.
#![tactic(auto)]

ghost use Rattle.std.specs.Prelude.{[]};
ghost use Rattle.text_grammar.specs.Items.{module_of};
ghost use Rattle.text_grammar.specs.Text.{StandsFor};

/// The empty text stands for the empty module.
#[tactic(auto, using(crate::proofs::Empty::empty_text))]
pub fn empty_text()
    ensures { StandsFor [] (module_of []) }
{}
