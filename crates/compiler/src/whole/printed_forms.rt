//! Lemmas on printed forms.

ghost use Rattle.std.specs.Prelude.{ℕ, Bool, List, None, Ok};
ghost use Rattle.text_canonical.specs.canonical.ItemSymbols.{IsPrintable};
ghost use Rattle.pass_cleanup.specs.Cleanup.{clean_module};
ghost use Rattle.pass_split.specs.Parts.{split_module};
ghost use Rattle.pass_proofs.specs.frame_contents.Frames.{AreLayouts};
ghost use Rattle.pass_early.specs.Early.{early_module};
ghost use Rattle.frame_layout.specs.declared.layout.Layouts.{Layouts};
ghost use Rattle.pass_proofs.specs.rule_all.Refused.{IsRefused};
ghost use Rattle.pass_proofs.specs.text_grammar.Text.{StandsFor};
ghost use Rattle.ir_model.specs.declared.module.Module.{Module};
ghost use Rattle.text_canonical.specs.order.Shape.{IsShaped};
ghost use Rattle.pass_proofs.specs.rule_names.declared.stage.Stage.{Stage};
ghost use Rattle.text_canonical.specs.grammar.Bytes.{AreBytes};
ghost use Rattle.pass_frames.specs.Framed.{IsFramedForm};
ghost use Rattle.text_canonical.specs.canonical.Items.{module_text};
ghost use Rattle.text_canonical.specs.order.Order.{module_order};

/// What is lowered of a source that breaks no rule has the parts of the grammar, and can be written.
pub fn lowered_sources_are_printable()
    ensures shaped { (text : List ℕ) (m : Module) → AreBytes text → StandsFor text m → IsRefused Stage.Source m None → (share : Bool) (layouts : Layouts) → AreLayouts m share (Ok layouts) → (n : Module) → IsFramedForm layouts (early_module m) n → IsShaped (clean_module (split_module layouts n)) }
    ensures printable { (text : List ℕ) (m : Module) → AreBytes text → StandsFor text m → IsRefused Stage.Source m None → (share : Bool) (layouts : Layouts) → AreLayouts m share (Ok layouts) → (n : Module) → IsFramedForm layouts (early_module m) n → IsPrintable (clean_module (split_module layouts n)) }
{}

/// So the text that is printed of it stands for it, with the names of each function in the order of their first occurrence.
pub fn printed_texts_stand_for_lowered_modules()
    ensures { (text : List ℕ) (m : Module) → AreBytes text → StandsFor text m → IsRefused Stage.Source m None → (share : Bool) (layouts : Layouts) → AreLayouts m share (Ok layouts) → (n : Module) → IsFramedForm layouts (early_module m) n → StandsFor (module_text (clean_module (split_module layouts n))) (module_order (clean_module (split_module layouts n))) }
{}
