//! What both runs are given: the module with blocks on edges, and its framed form.

ghost use Rattle.std.specs.Prelude.{◌≡◌, ℕ, ℤ, List, true};
ghost use Rattle.pass_proofs.specs.frame_layout.declared.layout.Layouts.{Layouts};
ghost use Rattle.pass_proofs.specs.ir_model.declared.module.Frame.{Frame};
ghost use Rattle.pass_frames_code.specs.Followed.{IsGiven};
ghost use Rattle.pass_frames_code.specs.Framings.{IsFraming};
ghost use Rattle.pass_frames_code.specs.Givens.{KeepsNames};
ghost use Rattle.pass_frames_code.specs.Related.{AreBuilt, Building, is_coroutine};
ghost use Rattle.pass_frames_code.specs.Stepping.{AreGiven};
ghost use Rattle.pass_proofs.specs.pass_kept_proof.Kept.{Keep};
ghost use Rattle.pass_proofs.specs.edges.states.MovedState.{edges_split};
ghost use Rattle.pass_renewed_proof.specs.Renewed.{Flags, Roots, renewed_given};

/// The first run is given the module with blocks on its edges, and the other one its framed form: what steps ask of the
/// two, where frames are built, framings break no rule and names stay.
pub fn runs_are_given()
    ensures { (b : Building) (layouts : Layouts) (keep : Keep) (flags : Flags) (roots : Roots) (sizes : List Frame)
        (answers : List ℤ) → AreBuilt b → IsGiven b layouts answers
        → ((func : ℕ) → is_coroutine b func ≡ true → IsFraming (b.framing func)) → KeepsNames b
        → AreGiven b (renewed_given (edges_split b.code) keep flags roots sizes answers) }
{}
