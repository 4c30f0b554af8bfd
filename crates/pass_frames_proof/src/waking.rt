//! Resumes and destroys: the instance runs again, and slots are made anew.

ghost use Rattle.std.specs.Prelude.{ℕ};
ghost use Rattle.pass_frames_steps.specs.ir_model.declared.operand.Intrinsic.{Intrinsic};
ghost use Rattle.pass_frames_steps.specs.ir_paths.Windows.{destroy_label, resume_label};
ghost use Rattle.pass_frames_steps.specs.Followed.{IsFollowed};
ghost use Rattle.pass_frames_steps.specs.Related.{AreBuiltOf, Building};
ghost use Rattle.pass_frames_steps.specs.Stepping.{AreGiven};
ghost use Rattle.pass_frames_steps.specs.Waking.{AreWoken, HasFirstAnew, HasNoneAnew, IsAtOwnWaking, IsAtWaking, IsSleeping, IsUnfinal};
ghost use Rattle.pass_frames_steps.specs.pass_kept_proof.Kept.{kept};
ghost use Rattle.pass_frames_steps.specs.pass_renewed_proof.Renewed.{RenewedGiven};
ghost use Rattle.pass_frames_steps.specs.run_source.declared.state.State.{State};

/// Where a coroutine is woken that makes slots anew, the instance runs in both runs. The framed run makes the allocas
/// before the first of those slots.
pub fn woken_coroutines_come_to_their_slots()
    ensures { (b : Building) (g : RenewedGiven) → AreGiven b g → (s t : State) (label : ℕ) (z : IsSleeping b g s label)
        → AreWoken b g s t label z
        → HasFirstAnew b g z.instance.coroutine (kept (g.keep z.instance.coroutine z.suspend) z.env)
        → IsFollowed b g s t }
{}

/// Where a coroutine is woken that makes no slot anew, the framed run makes all allocas. Then both come to the block on
/// the edge, the fields are right, and all cells are there.
pub fn woken_coroutines_enter_at_once()
    ensures { (b : Building) (g : RenewedGiven) → AreGiven b g → (s t : State) (label : ℕ) (z : IsSleeping b g s label)
        → AreWoken b g s t label z
        → HasNoneAnew b g z.instance.coroutine (kept (g.keep z.instance.coroutine z.suspend) z.env) label z.order
        → IsFollowed b g s t }
{}

/// A resume or destroy by a function that is no coroutine is followed, where the first run finds the instance, whether
/// the coroutine makes slots anew or not.
pub fn coroutines_are_woken_by_others()
    ensures resumes { (b : Building) (g : RenewedGiven) → AreGiven b g → (s t : State) → AreBuiltOf b s t
        → (label : ℕ) (z : IsSleeping b g s label) → IsAtWaking b g s t label z Intrinsic.CoroResume resume_label
        → IsUnfinal (b.framing z.instance.coroutine) z.suspend
        → HasFirstAnew b g z.instance.coroutine (kept (g.keep z.instance.coroutine z.suspend) z.env)
        → IsFollowed b g s t }
    ensures resumes_at_once { (b : Building) (g : RenewedGiven) → AreGiven b g → (s t : State) → AreBuiltOf b s t
        → (label : ℕ) (z : IsSleeping b g s label) → IsAtWaking b g s t label z Intrinsic.CoroResume resume_label
        → IsUnfinal (b.framing z.instance.coroutine) z.suspend
        → HasNoneAnew b g z.instance.coroutine (kept (g.keep z.instance.coroutine z.suspend) z.env) label z.order
        → IsFollowed b g s t }
    ensures destroys { (b : Building) (g : RenewedGiven) → AreGiven b g → (s t : State) → AreBuiltOf b s t
        → (label : ℕ) (z : IsSleeping b g s label) → IsAtWaking b g s t label z Intrinsic.CoroDestroy destroy_label
        → HasFirstAnew b g z.instance.coroutine (kept (g.keep z.instance.coroutine z.suspend) z.env)
        → IsFollowed b g s t }
    ensures destroys_at_once { (b : Building) (g : RenewedGiven) → AreGiven b g → (s t : State) → AreBuiltOf b s t
        → (label : ℕ) (z : IsSleeping b g s label) → IsAtWaking b g s t label z Intrinsic.CoroDestroy destroy_label
        → HasNoneAnew b g z.instance.coroutine (kept (g.keep z.instance.coroutine z.suspend) z.env) label z.order
        → IsFollowed b g s t }
{}

/// So is a resume or destroy by a coroutine. Its operand is fetched in front of the call.
pub fn coroutines_are_woken_by_coroutines()
    ensures resumes { (b : Building) (g : RenewedGiven) → AreGiven b g → (s t : State) → AreBuiltOf b s t
        → (label : ℕ) (z : IsSleeping b g s label) → IsAtOwnWaking b g s t label z Intrinsic.CoroResume resume_label
        → IsUnfinal (b.framing z.instance.coroutine) z.suspend
        → HasFirstAnew b g z.instance.coroutine (kept (g.keep z.instance.coroutine z.suspend) z.env)
        → IsFollowed b g s t }
    ensures resumes_at_once { (b : Building) (g : RenewedGiven) → AreGiven b g → (s t : State) → AreBuiltOf b s t
        → (label : ℕ) (z : IsSleeping b g s label) → IsAtOwnWaking b g s t label z Intrinsic.CoroResume resume_label
        → IsUnfinal (b.framing z.instance.coroutine) z.suspend
        → HasNoneAnew b g z.instance.coroutine (kept (g.keep z.instance.coroutine z.suspend) z.env) label z.order
        → IsFollowed b g s t }
    ensures destroys { (b : Building) (g : RenewedGiven) → AreGiven b g → (s t : State) → AreBuiltOf b s t
        → (label : ℕ) (z : IsSleeping b g s label) → IsAtOwnWaking b g s t label z Intrinsic.CoroDestroy destroy_label
        → HasFirstAnew b g z.instance.coroutine (kept (g.keep z.instance.coroutine z.suspend) z.env)
        → IsFollowed b g s t }
    ensures destroys_at_once { (b : Building) (g : RenewedGiven) → AreGiven b g → (s t : State) → AreBuiltOf b s t
        → (label : ℕ) (z : IsSleeping b g s label) → IsAtOwnWaking b g s t label z Intrinsic.CoroDestroy destroy_label
        → HasNoneAnew b g z.instance.coroutine (kept (g.keep z.instance.coroutine z.suspend) z.env) label z.order
        → IsFollowed b g s t }
{}
