//! Lemmas on cleanable sources.

ghost use Rattle.std.specs.Prelude.{ℕ, Bool, List, None, Ok};
ghost use Rattle.pass_cleanup.specs.Cleanable.{IsCleanable};
ghost use Rattle.pass_split.specs.Parts.{split_module};
ghost use Rattle.pass_proofs.specs.frame_contents.Frames.{AreLayouts};
ghost use Rattle.pass_early.specs.Early.{early_module};
ghost use Rattle.frame_layout.specs.declared.layout.Layouts.{Layouts};
ghost use Rattle.pass_proofs.specs.rule_all.Refused.{IsRefused};
ghost use Rattle.pass_proofs.specs.text_grammar.Text.{StandsFor};
ghost use Rattle.ir_model.specs.declared.module.Module.{Module};
ghost use Rattle.pass_proofs.specs.rule_names.declared.stage.Stage.{Stage};
ghost use Rattle.pass_frames.specs.Framed.{IsFramedForm};

/// So it is in what splitting gives of a source that a text stands for and that breaks no rule.
pub fn accepted_sources_are_cleanable()
    ensures { (text : List ℕ) (m : Module) → StandsFor text m → IsRefused Stage.Source m None → (share : Bool) (layouts : Layouts) → AreLayouts m share (Ok layouts) → (n : Module) → IsFramedForm layouts (early_module m) n → IsCleanable (split_module layouts n) }
{}
