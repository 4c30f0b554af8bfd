//! Structures of a text have fewer fields than the text has bytes. So an index into one of them is small.

ghost use Rattle.std.specs.Prelude.{ℕ, List, length};
ghost use Rattle.compiler_theorem.specs.narrow.Narrow.{IsNarrowModule};
ghost use Rattle.compiler.specs.ir_model.declared.module.Module.{Module};
ghost use Rattle.compiler.specs.text_grammar.Text.{StandsFor};

/// A structure takes a token for each of its fields, so it has at most as many as its text has bytes.
pub fn texts_have_few_fields()
    ensures { (text : List ℕ) (m : Module) → StandsFor text m → IsNarrowModule (length text) m }
{}
