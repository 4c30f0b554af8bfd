//! Lemmas on names apart.

ghost use Rattle.std.specs.Prelude.{ℕ, List};
ghost use Rattle.text_grammar.specs.Text.{StandsFor};
ghost use Rattle.ir_laws.specs.ir_model.declared.module.Module.{Module};
ghost use Rattle.ir_laws.specs.facts.names_apart.Apart.{AreNamesApart};

/// The names of each function of a module that some text stands for are all different.
pub fn names_of_texts_are_apart()
    ensures { (text : List ℕ) (m : Module) → StandsFor text m → AreNamesApart m }
{}
