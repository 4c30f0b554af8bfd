//! Branches of a coroutine leave the same windows in both runs.

ghost use Rattle.std.specs.Prelude.{◌≡◌, [], ℕ, false, length};
ghost use Rattle.pass_frames_steps.specs.Code.{end_code, front_code, last_state};
ghost use Rattle.pass_frames_steps.specs.FromEdges.{IsAtReturn};
ghost use Rattle.pass_frames_steps.specs.Leaving.{IsAtBranch, IsBranch, further};
ghost use Rattle.pass_frames_steps.specs.Places.{is_return};
ghost use Rattle.pass_frames_steps.specs.Related.{AreBuiltOf, Building};
ghost use Rattle.pass_frames_steps.specs.Stepping.{AreGiven};
ghost use Rattle.pass_frames_steps.specs.pass_renewed_proof.Renewed.{RenewedGiven};
ghost use Rattle.pass_frames_steps.specs.run_source.Source.{left_windows};
ghost use Rattle.pass_frames_steps.specs.run_source.declared.state.State.{State};

/// Where windows of the framed form are those of the coroutine at their places, a branch leaves the same ones. It leaves
/// none in either run, or some in both. From a block on a resume or destroy edge it leaves none.
pub fn branches_leave_the_same_windows()
    ensures ends { (b : Building) (g : RenewedGiven) → AreGiven b g → (s t : State) → AreBuiltOf b s t → (label : ℕ)
        → IsAtBranch b g s label → is_return (b.framing s.top.func) s.top.block ≡ false
        → IsBranch b g s (further t
        (length (end_code (b.framing s.top.func) s.top.block (last_state (b.framing s.top.func) s.top.block)))) label }
    ensures edges { (b : Building) (g : RenewedGiven) → AreGiven b g → (s t : State) → AreBuiltOf b s t → (label : ℕ)
        → IsAtBranch b g s label → (order : ℕ) → IsAtReturn b s label order
        → left_windows b.given.given (further (further t (length (front_code (b.framing s.top.func) s.top.block)))
        (length (end_code (b.framing s.top.func) s.top.block (last_state (b.framing s.top.func) s.top.block)))) label
        ≡ [] }
{}
