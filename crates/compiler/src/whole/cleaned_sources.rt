//! That the last pass keeps the meaning of what splitting gives of a source that breaks no rule.
//!
//! A text has to stand for the source; there is no other premise. Each run of what splitting gives of its framed form
//! agrees within 1 with the run of what is lowered of it (`cleaned_sources_keep_meaning`).

ghost use Rattle.std.specs.Prelude.{Bool, ℕ, ℤ, List, None, Ok};
ghost use Rattle.pass_proofs.specs.run_agreement.Agreements.{AgreesWithin};
ghost use Rattle.ir_base.specs.declared.outcome.Word.{Word};
ghost use Rattle.pass_cleanup.specs.Cleanup.{clean_module};
ghost use Rattle.pass_split.specs.Parts.{split_module};
ghost use Rattle.pass_proofs.specs.frame_contents.Frames.{AreLayouts};
ghost use Rattle.pass_early.specs.Early.{early_module};
ghost use Rattle.frame_layout.specs.declared.layout.Layouts.{Layouts};
ghost use Rattle.pass_proofs.specs.rule_all.Refused.{IsRefused};
ghost use Rattle.pass_proofs.specs.text_grammar.Text.{StandsFor};
ghost use Rattle.ir_model.specs.declared.module.Module.{Module};
ghost use Rattle.pass_proofs.specs.rule_names.declared.stage.Stage.{Stage};
ghost use Rattle.run_plain.specs.Plain.{PlainAt};
ghost use Rattle.pass_frames.specs.Framed.{IsFramedForm};

/// Each run of what splitting gives of a source that breaks no rule agrees within 1 with the run of what is lowered of it.
pub fn cleaned_sources_keep_meaning()
    ensures { (text : List ℕ) (m : Module) → StandsFor text m → IsRefused Stage.Source m None → (share : Bool) (layouts : Layouts) → AreLayouts m share (Ok layouts) → (n : Module) → IsFramedForm layouts (early_module m) n
        → (entry : ℕ) (args : List Word) (answers : List ℤ) → AgreesWithin 1 (PlainAt (split_module layouts n) entry args answers) (PlainAt (clean_module (split_module layouts n)) entry args answers) }
{}
