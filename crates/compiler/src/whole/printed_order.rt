//! Lemmas on printed order.

ghost use Rattle.std.specs.Prelude.{ℕ, ℤ, List, Bool, None, Ok};
ghost use Rattle.pass_proofs.specs.run_agreement.Costs.{AgreesBy};
ghost use Rattle.ir_base.specs.declared.outcome.Word.{Word};
ghost use Rattle.pass_cleanup.specs.Cleaned.{plain_machine};
ghost use Rattle.ir_model.specs.declared.module.Module.{Module};
ghost use Rattle.pass_proofs.specs.ir_laws.facts.names_apart.Apart.{AreNamesApart};
ghost use Rattle.text_canonical.specs.order.Order.{module_order};
ghost use Rattle.text_canonical.specs.order.Shape.{IsShaped};
ghost use Rattle.compiler.specs.order.meaning.Beside.{IsInOrderOf};
ghost use Rattle.pass_proofs.specs.run_agreement.Agreements.{AgreesWithin};
ghost use Rattle.text_canonical.specs.canonical.Items.{module_text};
ghost use Rattle.pass_cleanup.specs.Cleanup.{clean_module};
ghost use Rattle.pass_split.specs.Parts.{split_module};
ghost use Rattle.pass_proofs.specs.frame_contents.Frames.{AreLayouts};
ghost use Rattle.pass_early.specs.Early.{early_module};
ghost use Rattle.frame_layout.specs.declared.layout.Layouts.{Layouts};
ghost use Rattle.pass_proofs.specs.rule_all.Refused.{IsRefused};
ghost use Rattle.pass_proofs.specs.text_grammar.Text.{StandsFor};
ghost use Rattle.pass_proofs.specs.rule_laws.rules.names_apart.Words.{AreNamesFew};
ghost use Rattle.pass_proofs.specs.rule_names.declared.stage.Stage.{Stage};
ghost use Rattle.run_plain.specs.Plain.{PlainAt};
ghost use Rattle.text_canonical.specs.grammar.Bytes.{AreBytes};
ghost use Rattle.pass_frames.specs.Framed.{IsFramedForm};

/// At each step the values, slots and results are the same, at the names to which theirs go.
pub fn names_in_order_keep_states()
    ensures { (m : Module) → IsShaped m → AreNamesApart m → (entry : ℕ) (args : List Word) (answers : List ℤ)
        → AgreesBy (IsInOrderOf m) (IsInOrderOf m) (plain_machine m entry args answers) (λ s. 1)
        (plain_machine (module_order m) entry args answers) (λ t. 1) }
{}

/// Each run of what is lowered of a source that breaks no rule agrees within 1 with the run of what the text that is printed of it stands for.
pub fn printed_names_keep_meaning()
    ensures { (text : List ℕ) (m : Module) → AreBytes text → StandsFor text m → IsRefused Stage.Source m None → (share : Bool) (layouts : Layouts) → AreLayouts m share (Ok layouts) → (n : Module) → IsFramedForm layouts (early_module m) n
        → AreNamesFew (clean_module (split_module layouts n)) → (entry : ℕ) (args : List Word) (answers : List ℤ)
        → StandsFor (module_text (clean_module (split_module layouts n))) (module_order (clean_module (split_module layouts n)))
        × AgreesWithin 1 (PlainAt (clean_module (split_module layouts n)) entry args answers) (PlainAt (module_order (clean_module (split_module layouts n))) entry args answers) }
{}
