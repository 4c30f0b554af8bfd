//! What is lowered of a source that breaks no rule breaks none of the rules of modules without coroutines.
//!
//! A text has to stand for the source. The framed form of what the first pass makes of it may be split
//! (`accepted_sources_are_ready`). So what is lowered of it is accepted (`lowered_sources_are_accepted`).

ghost use Rattle.std.specs.Prelude.{ℕ, Bool, List, None, Ok, ◌≡◌, not, true};
ghost use Rattle.pass_proofs.specs.frame_contents.Frames.{AreLayouts};
ghost use Rattle.pass_early.specs.Early.{early_module};
ghost use Rattle.frame_layout.specs.declared.layout.Layouts.{Layouts};
ghost use Rattle.pass_proofs.specs.rule_all.Refused.{IsRefused};
ghost use Rattle.pass_proofs.specs.text_grammar.Text.{StandsFor};
ghost use Rattle.ir_model.specs.declared.module.Module.{Module};
ghost use Rattle.compiler.specs.cleanup.accepted.Ready.{IsReady};
ghost use Rattle.pass_proofs.specs.rule_names.declared.stage.Stage.{Stage};
ghost use Rattle.pass_frames.specs.Framed.{IsFramedForm};
ghost use Rattle.std.specs.List.{list_all};
ghost use Rattle.pass_cleanup.specs.Cleanup.{clean_module};
ghost use Rattle.pass_cleanup.specs.Free.{calls_id_alone};
ghost use Rattle.pass_split.specs.Parts.{split_module};

/// A source that a text stands for and that breaks no rule is ready for splitting, once saves are written out and frames are built.
pub fn accepted_sources_are_ready()
    ensures { (text : List ℕ) (m : Module) → StandsFor text m → IsRefused Stage.Source m None → (share : Bool) (layouts : Layouts) → AreLayouts m share (Ok layouts) → (n : Module) → IsFramedForm layouts (early_module m) n → IsReady layouts n }
{}

/// So what is lowered of it is accepted as a module without coroutines, where no function is a coroutine and `coro.id` alone of the
/// coro intrinsics is called once it is split.
pub fn lowered_sources_are_accepted()
    ensures { (text : List ℕ) (m : Module) → StandsFor text m → IsRefused Stage.Source m None → (share : Bool) (layouts : Layouts) → AreLayouts m share (Ok layouts) → (n : Module) → IsFramedForm layouts (early_module m) n
        → list_all (λ f. not f.coroutine) (split_module layouts n).functions ≡ true → calls_id_alone (split_module layouts n) ≡ true → IsRefused Stage.Plain (clean_module (split_module layouts n)) None }
{}
