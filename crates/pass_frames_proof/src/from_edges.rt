//! Jumps of a coroutine from blocks on resume and destroy edges are followed.

ghost use Rattle.pass_frames_steps.specs.Code.{end_code, end_term, front_code, last_state};
ghost use Rattle.pass_frames_steps.specs.Edges.{EndsLed, PhisGiven};
ghost use Rattle.pass_frames_steps.specs.Followed.{IsFollowed};
ghost use Rattle.pass_frames_steps.specs.FromEdges.{IsAtReturn, IsFrontDone, IsOutOfEdge};
ghost use Rattle.pass_frames_steps.specs.Jumps.{MayJumpBy};
ghost use Rattle.pass_frames_steps.specs.Leaving.{further};
ghost use Rattle.pass_frames_steps.specs.Lined.{lined};
ghost use Rattle.pass_frames_steps.specs.Passes.{block_at};
ghost use Rattle.pass_frames_steps.specs.Places.{edged};
ghost use Rattle.pass_frames_steps.specs.Related.{AreBuiltOf, Building};
ghost use Rattle.pass_frames_steps.specs.Stepping.{AreGiven};
ghost use Rattle.pass_frames_steps.specs.pass_renewed_proof.Renewed.{RenewedGiven, renewed_step};
ghost use Rattle.pass_frames_steps.specs.run_agreement.Machines.{IsFine};
ghost use Rattle.pass_frames_steps.specs.run_source.Source.{left_windows};
ghost use Rattle.pass_frames_steps.specs.run_source.declared.state.State.{State};
ghost use Rattle.std.specs.Prelude.{◌≡◌, [], ℕ, length};

/// In front of a block on a resume or destroy edge addresses of slots go to their cells, and what crosses comes from
/// its fields. Then all cells are right.
pub fn fronts_of_edges_are_executed()
    ensures { (b : Building) (g : RenewedGiven) → AreGiven b g → (s t : State) (r : AreBuiltOf b s t) (label order : ℕ)
        → IsAtReturn b s label order
        → IsFrontDone b s t r.homes r.hides (front_code (b.framing s.top.func) s.top.block) }
{}

/// That front is executed with the block's jump. So the jump is followed, where what is fetched behind the front may be
/// and phis may be stored. Its instance is Running, so the first run leaves no window.
pub fn jumps_from_edges_are_followed()
    ensures { (b : Building) (g : RenewedGiven) → AreGiven b g → (s t : State) (r : AreBuiltOf b s t) (label order : ℕ)
        → IsAtReturn b s label order → IsOutOfEdge b s label
        → ((done : IsFrontDone b s t r.homes r.hides (front_code (b.framing s.top.func) s.top.block))
        → MayJumpBy b g s (lined t (length (front_code (b.framing s.top.func) s.top.block)) done.work) r.homes label)
        → ((done : IsFrontDone b s t r.homes r.hides (front_code (b.framing s.top.func) s.top.block))
        → (ends : EndsLed b g s (lined t (length (front_code (b.framing s.top.func) s.top.block)) done.work) r.homes
        label
        (end_code (b.framing s.top.func) s.top.block (last_state (b.framing s.top.func) s.top.block))
        (end_term (b.framing s.top.func) (last_state (b.framing s.top.func) s.top.block)
        (block_at (edged (b.framing s.top.func)) s.top.block).term))
        → PhisGiven b g s (lined t (length (front_code (b.framing s.top.func) s.top.block)) done.work) r.homes label
        ends.work)
        → IsFine (renewed_step g s).outcome
        → left_windows b.given.given (further (further t (length (front_code (b.framing s.top.func) s.top.block)))
        (length (end_code (b.framing s.top.func) s.top.block (last_state (b.framing s.top.func) s.top.block)))) label
        ≡ []
        → IsFollowed b g s t }
{}
