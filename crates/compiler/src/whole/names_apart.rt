//! Lemmas on names apart.

ghost use Rattle.std.specs.Prelude.{ℕ, Bool, List, None, Ok};
ghost use Rattle.pass_cleanup.specs.Cleanup.{clean_module};
ghost use Rattle.pass_split.specs.Parts.{split_module};
ghost use Rattle.pass_proofs.specs.frame_contents.Frames.{AreLayouts};
ghost use Rattle.pass_early.specs.Early.{early_module};
ghost use Rattle.frame_layout.specs.declared.layout.Layouts.{Layouts};
ghost use Rattle.pass_proofs.specs.rule_all.Refused.{IsRefused};
ghost use Rattle.pass_proofs.specs.text_grammar.Text.{StandsFor};
ghost use Rattle.ir_model.specs.declared.module.Module.{Module};
ghost use Rattle.pass_proofs.specs.ir_laws.facts.names_apart.Apart.{AreNamesApart};
ghost use Rattle.pass_proofs.specs.rule_laws.rules.names_apart.Words.{AreNamesFew};
ghost use Rattle.pass_proofs.specs.rule_names.declared.stage.Stage.{Stage};
ghost use Rattle.pass_frames.specs.Framed.{IsFramedForm};

/// The names of each function of what is lowered of a source that breaks no rule are all different, where each function has so few that their
/// numbers are written in full.
pub fn lowered_names_are_apart()
    ensures { (text : List ℕ) (m : Module) → StandsFor text m → IsRefused Stage.Source m None → (share : Bool) (layouts : Layouts) → AreLayouts m share (Ok layouts) → (n : Module) → IsFramedForm layouts (early_module m) n
        → AreNamesFew (clean_module (split_module layouts n)) → AreNamesApart (clean_module (split_module layouts n)) }
{}
