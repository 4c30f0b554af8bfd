//! The framed run follows the run in which slots are made anew, step by step.

ghost use Rattle.std.specs.Prelude.{◌≡◌, ℕ, ℤ, List};
ghost use Rattle.pass_proofs.specs.frame_layout.declared.layout.Layouts.{Layouts};
ghost use Rattle.pass_proofs.specs.ir_base.declared.outcome.Word.{Word};
ghost use Rattle.pass_proofs.specs.ir_model.declared.module.Frame.{Frame};
ghost use Rattle.pass_frames_code.specs.Followed.{AreStepsFollowed, IsGiven};
ghost use Rattle.pass_frames_code.specs.Meaning.{KeepsFramedMeaning};
ghost use Rattle.pass_frames_code.specs.Related.{AreBuiltOf, Building};
ghost use Rattle.pass_proofs.specs.pass_kept_proof.Kept.{Keep};
ghost use Rattle.pass_proofs.specs.edges.states.MovedState.{edges_split};
ghost use Rattle.pass_renewed_proof.specs.Renewed.{Flags, Roots, renewed_given};
ghost use Rattle.pass_proofs.specs.run_source.Source.{first_state};
ghost use Rattle.pass_proofs.specs.run_source.declared.state.State.{State};

/// Where the starts are related and each step is followed, building frames keeps meaning by what steps cost.
pub fn frames_keep_meaning()
    ensures { (b : Building) (layouts : Layouts) (keep : Keep) (flags : Flags) (roots : Roots) (sizes : List Frame)
        (entry : ℕ) (args : List Word) (answers : List ℤ) (price : State → ℕ) → IsGiven b layouts answers
        → b.framed_code.declarations ≡ b.code.declarations
        → AreBuiltOf b (first_state (edges_split b.code) entry args) (first_state b.framed_code entry args)
        → AreStepsFollowed b (renewed_given (edges_split b.code) keep flags roots sizes answers) entry args
        → KeepsFramedMeaning b layouts keep flags roots sizes entry args answers price }
{}
