//! The canonical text of modules as a definition, what its tokens say, and that these are the tokens of the text.
//!
//! The canonical text of a module and what its tokens say are definitions. The tokens of a printable module's text
//! say its symbols and are all of the text (`canonical_text_is_lexed`).

ghost use Rattle.std.specs.Prelude.{◌≡◌, true};
ghost use Rattle.ir_model.specs.declared.module.Module.{Module};
ghost use Rattle.text_symbols.specs.Listing.{symbols_of};
ghost use Rattle.text_canonical.specs.canonical.Items.{module_text};
ghost use Rattle.text_canonical.specs.canonical.ItemSymbols.{module_symbols, IsPrintable};

/// The tokens of a printable module's canonical text say what its symbols are, and are all of the text.
#[tactic(auto, using(crate::proofs::canonical::ItemsLexed::module_lexed))]
pub fn canonical_text_is_lexed()
    ensures { (m : Module) → IsPrintable m → symbols_of (module_text m) ≡ record { symbols = module_symbols m; whole = true } }
{}
