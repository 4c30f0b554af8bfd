//! Lemmas on sources.

ghost use Rattle.std.specs.Prelude.{ℕ, ℤ, List, None, ◌↔◌, Bool, Result};
ghost use Rattle.rule_laws.specs.run_agreement.Agreements.{AgreesWithin};
ghost use Rattle.rule_laws.specs.ir_base.declared.outcome.Word.{Word};
ghost use Rattle.rule_laws.specs.run_source.Source.{SourceAt};
ghost use Rattle.pass_early.specs.Early.{early_module};
ghost use Rattle.rule_laws.specs.rule_all.Refused.{IsRefused};
ghost use Rattle.rule_laws.specs.text_grammar.Text.{StandsFor};
ghost use Rattle.ir_model.specs.declared.module.Frame.{Frame};
ghost use Rattle.ir_model.specs.declared.module.Module.{Module as TheModule};
ghost use Rattle.rule_laws.specs.rule_names.declared.stage.Stage.{Stage};
ghost use Rattle.rule_laws.specs.frame_contents.Frames.{AreLayouts};
ghost use Rattle.rule_laws.specs.frame_contents.declared.module_frames.LayoutsError.{LayoutsError};
ghost use Rattle.rule_laws.specs.frame_layout.declared.layout.Layouts.{Layouts};

/// Each run of a source that a text stands for and that breaks no rule agrees within 2 with the run of what the first pass
/// makes of it.
pub fn accepted_sources_keep_meaning()
    ensures { (text : List ℕ) (m : TheModule) → StandsFor text m → IsRefused Stage.Source m None → (sizes : List Frame) (entry : ℕ) (args : List Word) (answers : List ℤ) → AgreesWithin 2 (SourceAt m sizes entry args answers) (SourceAt (early_module m) sizes entry args answers) }
{}

/// The layouts of such a source's frames are those of what the first pass makes of it.
pub fn accepted_layouts_stay()
    ensures { (text : List ℕ) (m : TheModule) → StandsFor text m → IsRefused Stage.Source m None → (share : Bool) (result : Result Layouts LayoutsError) → AreLayouts m share result ↔ AreLayouts (early_module m) share result }
{}
