//! That a module that some text stands for has each local in its function's table of names.
//!
//! Locals are such positions in each module that a text stands for (`texts_name_what_they_define`,
//! `texts_name_what_they_use`).

ghost use Rattle.std.specs.Prelude.{ℕ, List};
ghost use Rattle.text_grammar.specs.Text.{StandsFor};
ghost use Rattle.ir_laws.specs.ir_model.declared.module.Module.{Module};
ghost use Rattle.ir_laws.specs.facts.sound_states.Named.{AreLocalsNamed, AreUsesNamed};

/// The locals that a function of such a module defines are positions of its table of names.
pub fn texts_name_what_they_define()
    ensures { (text : List ℕ) (m : Module) → StandsFor text m → AreLocalsNamed m }
{}

/// So are those that it uses.
pub fn texts_name_what_they_use()
    ensures { (text : List ℕ) (m : Module) → StandsFor text m → AreUsesNamed m }
{}
