//! The names of each function are all different: in what a text stands for, and in what each pass makes of it. So
//! the text of what is
//! lowered, which goes by names, stands for the module, in which locals are positions of tables.
//!
//! No two names of a function's table are the same, in what a text stands for (`names_of_texts_are_apart`). So it is
//! in what is lowered of a source that breaks no rule (`lowered_names_are_apart`). Each function has to have fewer
//! than 2^64 names, as all that lies in memory has.

ghost use Rattle.std.specs.Prelude.{◌≡◌, ℕ, List, None, Some, [], slice_get};
ghost use Rattle.rule_all.specs.Refused.{IsRefused};
ghost use Rattle.text_grammar.specs.Text.{StandsFor};
ghost use Rattle.ir_laws.specs.ir_model.declared.module.Function.{Function};
ghost use Rattle.ir_laws.specs.ir_model.declared.module.Module.{Module};
ghost use Rattle.rule_laws.specs.rules.names_apart.Words.{IsTableOf};
ghost use Rattle.rule_names.specs.declared.stage.Stage.{Stage};

/// Where the module breaks no rule of sources, no name in the tables of its functions begins with `$c.`, also none that nothing defines.
pub fn names_of_sources_are_free()
    ensures { (text : List ℕ) (m : Module) → StandsFor text m → IsRefused Stage.Source m None → (k : ℕ) (f : Function) → slice_get m.functions k ≡ Some f → IsTableOf [] f.names }
{}
