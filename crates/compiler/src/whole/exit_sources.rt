//! That the framed forms of accepted sources have what blocks on the edges that leave windows ask.
//!
//! So the framed form of each source that a text stands for and that breaks no rule keeps its meaning with them
//! (`accepted_exits_keep_framed_meaning`).

ghost use Rattle.std.specs.Prelude.{ℕ, ℤ, Bool, List, None, Ok};
ghost use Rattle.pass_proofs.specs.run_agreement.Agreements.{AgreesWithin};
ghost use Rattle.ir_base.specs.declared.outcome.Word.{Word};
ghost use Rattle.pass_proofs.specs.frame_contents.Frames.{AreLayouts};
ghost use Rattle.pass_early.specs.Early.{early_module};
ghost use Rattle.frame_layout.specs.declared.layout.Layouts.{Layouts};
ghost use Rattle.pass_proofs.specs.run_framed.Framed.{FramedAt};
ghost use Rattle.pass_proofs.specs.rule_all.Refused.{IsRefused};
ghost use Rattle.pass_proofs.specs.text_grammar.Text.{StandsFor};
ghost use Rattle.ir_model.specs.declared.module.Module.{Module};
ghost use Rattle.pass_proofs.specs.rule_names.declared.stage.Stage.{Stage};
ghost use Rattle.pass_frames.specs.Framed.{IsFramedForm};
ghost use Rattle.pass_proofs.specs.exits.states.Exits.{exits_split};
ghost use Rattle.pass_proofs.specs.run_agreement.Costs.{AgreesBy, IsNear};
ghost use Rattle.pass_proofs.specs.run_states.moved_states.Beside.{IsMovedIn, framed_machine};

/// Each framed run of the framed form of a source that a text stands for and that breaks no rule agrees within 2 with the run where
/// edges that leave windows have blocks.
pub fn accepted_exits_keep_framed_meaning()
    ensures { (text : List ℕ) (m : Module) → StandsFor text m → IsRefused Stage.Source m None → (share : Bool) (layouts : Layouts) → AreLayouts m share (Ok layouts) → (n : Module) → IsFramedForm layouts (early_module m) n
        → (entry : ℕ) (args : List Word) (answers : List ℤ) → AgreesWithin 2 (FramedAt n layouts entry args answers) (FramedAt (exits_split n) layouts entry args answers) }
{}

/// Its states stand beside those of the run where edges that leave windows have blocks.
pub fn accepted_exits_keep_framed_states()
    ensures { (text : List ℕ) (m : Module) → StandsFor text m → IsRefused Stage.Source m None
        → (share : Bool) (layouts : Layouts) → AreLayouts m share (Ok layouts) → (n : Module)
        → IsFramedForm layouts (early_module m) n
        → (entry : ℕ) (args : List Word) (answers : List ℤ)
        → AgreesBy (IsMovedIn n (exits_split n)) (IsNear
        (framed_machine (exits_split n) layouts entry args answers) 2 (IsMovedIn n (exits_split n)))
        (framed_machine n layouts entry args answers) (λ s. 2)
        (framed_machine (exits_split n) layouts entry args answers) (λ t. 1) }
{}
