//! Accepted sources and their runs keep what is asked where coroutines are entered.

ghost use Rattle.compiler_theorem.specs.theorem.Anew.{Anew, IsAnewOf};
ghost use Rattle.compiler_theorem.specs.theorem.Asked.{asking};
ghost use Rattle.std.specs.Prelude.{◌≡◌, ℕ, true};
ghost use Rattle.compiler_theorem.specs.theorem.Between.{renewing};
ghost use Rattle.compiler_theorem.specs.theorem.Built.{building};
ghost use Rattle.compiler_theorem.specs.theorem.Entries.{IsEntryCall, Run};
ghost use Rattle.compiler_theorem.specs.theorem.Lowered.{HasFewBytes, IsLowered, Lowered, early, edged};
ghost use Rattle.compiler_theorem.specs.woken.Roots.{AreRootsTold};
ghost use Rattle.compiler.specs.ir_base.declared.outcome.Outcome.{Outcome};
ghost use Rattle.pass_frames_meaning.specs.Coroutines.{HasStorables, MayFollow};
ghost use Rattle.pass_frames_meaning.specs.Others.{EntersCoroutines};
ghost use Rattle.pass_frames_meaning.specs.Setting.{AreOfRuns};
ghost use Rattle.pass_frames_meaning.specs.pass_frames_proof.Followed.{IsFollowed};
ghost use Rattle.pass_frames_meaning.specs.pass_frames_proof.Stepping.{IsNotEntering};
ghost use Rattle.compiler.specs.run_agreement.Machines.{IsFine};
ghost use Rattle.compiler.specs.run_source.declared.state.Mode.{Mode};
ghost use Rattle.pass_frames_meaning.specs.Woken.{KeepsWaking, MayEnter, MayWake};
ghost use Rattle.pass_frames_meaning.specs.pass_frames_proof.Related.{AreBuiltOf, is_coroutine};
ghost use Rattle.pass_frames_meaning.specs.pass_renewed_proof.Renewed.{renewed_step};
ghost use Rattle.compiler.specs.run_framed.Framed.{framed_state_at};
ghost use Rattle.compiler.specs.run_source.Source.{first_state};
ghost use Rattle.compiler.specs.run_step.Runs.{iterate};

/// The table of roots tells of which kept values distances are kept.
pub fn roots_tell_of_distances()
    ensures { (l : Lowered) (low : IsLowered l) (a : Anew) → IsAnewOf (early l) a → (r : Run)
        → AreRootsTold l low a r }
{}

/// The code of an accepted source and its framed form is as is asked of coroutines that are woken.
pub fn sources_may_be_woken()
    ensures { (l : Lowered) (low : IsLowered l) → HasFewBytes l → (a : Anew) → IsAnewOf (early l) a → (r : Run)
        → KeepsWaking (asking l low a r) }
{}

/// In states of its runs coroutines may be woken, and slots may be made anew.
pub fn states_of_sources_may_wake()
    ensures wakes { (l : Lowered) (low : IsLowered l) (few : HasFewBytes l) (a : Anew) (anew : IsAnewOf (early l) a)
        (r : Run) → IsEntryCall l.source r → (n k : ℕ)
        → AreBuiltOf (building l low.is_framed r.answers)
        (iterate (renewed_step (renewing l a r)) n (first_state (edged l) r.entry r.args))
        (framed_state_at (building l low.is_framed r.answers).given r.entry r.args k)
        → (iterate (renewed_step (renewing l a r)) n (first_state (edged l) r.entry r.args)).outcome ≡ Outcome.Running
        → MayWake (asking l low a r)
        (iterate (renewed_step (renewing l a r)) n (first_state (edged l) r.entry r.args)) }
    ensures enters { (l : Lowered) (low : IsLowered l) (few : HasFewBytes l) (a : Anew) (anew : IsAnewOf (early l) a)
        (r : Run) → IsEntryCall l.source r → (n k : ℕ)
        → AreBuiltOf (building l low.is_framed r.answers)
        (iterate (renewed_step (renewing l a r)) n (first_state (edged l) r.entry r.args))
        (framed_state_at (building l low.is_framed r.answers).given r.entry r.args k)
        → KeepsWaking (asking l low a r) → MayEnter (asking l low a r)
        (iterate (renewed_step (renewing l a r)) n (first_state (edged l) r.entry r.args))
        (framed_state_at (building l low.is_framed r.answers).given r.entry r.args k) }
{}

/// So their steps that enter a coroutine are followed, and so are those that make slots anew. What is asked of the
/// topmost activation, and of values that parameters get, are premises (`MayFollow`, `HasStorables`).
pub fn coroutines_of_sources_are_entered()
    ensures enters { (l : Lowered) (low : IsLowered l) (few : HasFewBytes l) (a : Anew) (anew : IsAnewOf (early l) a)
        (r : Run) → IsEntryCall l.source r → (n m : ℕ)
        → (built : AreBuiltOf (building l low.is_framed r.answers)
        (iterate (renewed_step (renewing l a r)) n (first_state (edged l) r.entry r.args))
        (framed_state_at (building l low.is_framed r.answers).given r.entry r.args m))
        → AreOfRuns (asking l low a r)
        (iterate (renewed_step (renewing l a r)) n (first_state (edged l) r.entry r.args))
        (framed_state_at (building l low.is_framed r.answers).given r.entry r.args m) built
        → (iterate (renewed_step (renewing l a r)) n (first_state (edged l) r.entry r.args)).outcome ≡ Outcome.Running
        → IsFine (renewed_step (renewing l a r)
        (iterate (renewed_step (renewing l a r)) n (first_state (edged l) r.entry r.args))).outcome
        → (is_coroutine (building l low.is_framed r.answers)
        (iterate (renewed_step (renewing l a r)) n (first_state (edged l) r.entry r.args)).top.func ≡ true
        → IsNotEntering (iterate (renewed_step (renewing l a r)) n (first_state (edged l) r.entry r.args)).top.mode
        → MayFollow (asking l low a r)
        (iterate (renewed_step (renewing l a r)) n (first_state (edged l) r.entry r.args)))
        → HasStorables (asking l low a r) (renewed_step (renewing l a r)
        (iterate (renewed_step (renewing l a r)) n (first_state (edged l) r.entry r.args)))
        → EntersCoroutines (asking l low a r)
        (iterate (renewed_step (renewing l a r)) n (first_state (edged l) r.entry r.args))
        (framed_state_at (building l low.is_framed r.answers).given r.entry r.args m) }
    ensures slots { (l : Lowered) (low : IsLowered l) (few : HasFewBytes l) (a : Anew) (anew : IsAnewOf (early l) a)
        (r : Run) → IsEntryCall l.source r → (n m : ℕ)
        → (built : AreBuiltOf (building l low.is_framed r.answers)
        (iterate (renewed_step (renewing l a r)) n (first_state (edged l) r.entry r.args))
        (framed_state_at (building l low.is_framed r.answers).given r.entry r.args m))
        → AreOfRuns (asking l low a r)
        (iterate (renewed_step (renewing l a r)) n (first_state (edged l) r.entry r.args))
        (framed_state_at (building l low.is_framed r.answers).given r.entry r.args m) built
        → (iterate (renewed_step (renewing l a r)) n (first_state (edged l) r.entry r.args)).outcome ≡ Outcome.Running
        → is_coroutine (building l low.is_framed r.answers)
        (iterate (renewed_step (renewing l a r)) n (first_state (edged l) r.entry r.args)).top.func ≡ true
        → (from label : ℕ)
        → (iterate (renewed_step (renewing l a r)) n (first_state (edged l) r.entry r.args)).top.mode
        ≡ Mode.Entering from label
        → IsFollowed (building l low.is_framed r.answers) (renewing l a r)
        (iterate (renewed_step (renewing l a r)) n (first_state (edged l) r.entry r.args))
        (framed_state_at (building l low.is_framed r.answers).given r.entry r.args m) }
{}
