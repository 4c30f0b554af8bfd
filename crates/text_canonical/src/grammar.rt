//! That what is printed of a module is in the grammar again.
//!
//! Where a text of bytes stands for a module, the module is printable, and its canonical text stands for it again
//! (`printed_again`).

ghost use Rattle.std.specs.Prelude.{ℕ, List};
ghost use Rattle.text_canonical.specs.canonical.Items.{module_text};
ghost use Rattle.text_canonical.specs.canonical.ItemSymbols.{IsPrintable};
ghost use Rattle.text_grammar.specs.Text.{StandsFor};
ghost use Rattle.ir_model.specs.declared.module.Module.{Module};
ghost use Rattle.text_canonical.specs.grammar.Bytes.{AreBytes};

/// The canonical text of a module that a text of bytes stands for stands for the same module, and the module is printable.
pub fn printed_again()
    ensures again { (text : List ℕ) (m : Module) → AreBytes text → StandsFor text m → StandsFor (module_text m) m }
    ensures printable { (text : List ℕ) (m : Module) → AreBytes text → StandsFor text m → IsPrintable m }
{}

/// A text of a program is a text of bytes.
pub fn text_is_bytes(text: &[u8])
    ensures { AreBytes text.now }
{
    let _bytes = text;
}
