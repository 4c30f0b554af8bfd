//! What is asked where blocks of coroutines end holds of accepted sources and their runs.

ghost use Rattle.std.specs.Prelude.{◌≡◌, ◌<◌, Bool, Some, length, true, ℕ};
ghost use Rattle.compiler_theorem.specs.theorem.Anew.{Anew, IsAnewOf};
ghost use Rattle.compiler_theorem.specs.theorem.Asked.{asking};
ghost use Rattle.compiler_theorem.specs.theorem.Between.{renewing};
ghost use Rattle.compiler_theorem.specs.theorem.Built.{building};
ghost use Rattle.compiler_theorem.specs.theorem.Entries.{IsEntryCall, Run};
ghost use Rattle.compiler_theorem.specs.theorem.Lowered.{HasFewBytes, IsLowered, Lowered, early, edged};
ghost use Rattle.compiler.specs.ir_base.declared.outcome.Outcome.{Outcome};
ghost use Rattle.compiler.specs.pass_cells.Kept.{entry};
ghost use Rattle.pass_frames_meaning.specs.Coroutines.{HasStorables, MayFollow};
ghost use Rattle.pass_frames_meaning.specs.Ends.{AreEndsKnown, KeepsEdges, KeepsEnds, MayGoOn, MayLeaveEdge};
ghost use Rattle.pass_frames_meaning.specs.Led.{IsLedState};
ghost use Rattle.pass_frames_meaning.specs.Setting.{AreOfRuns};
ghost use Rattle.pass_frames_meaning.specs.pass_frames_proof.Places.{edged as edged_of, offsets};
ghost use Rattle.pass_frames_meaning.specs.pass_frames_proof.Related.{AreBuiltOf, is_coroutine};
ghost use Rattle.pass_frames_meaning.specs.pass_frames_proof.Stepping.{IsNotEntering};
ghost use Rattle.pass_frames_meaning.specs.pass_renewed_proof.Renewed.{renewed_step};
ghost use Rattle.compiler.specs.run_agreement.Machines.{IsFine};
ghost use Rattle.compiler.specs.run_source.Source.{first_state};
ghost use Rattle.compiler.specs.run_source.declared.state.State.{State};
ghost use Rattle.compiler.specs.run_step.Runs.{iterate};

/// Suspends take written saves, no end stands where a path without begin leads, and no slot in a frame is used there.
pub fn sources_keep_rules_of_ends()
    ensures { (l : Lowered) (low : IsLowered l) (a : Anew) (r : Run) → HasFewBytes l → IsAnewOf (early l) a
        → IsEntryCall l.source r → KeepsEnds (asking l low a r) }
{}

/// A block on a resume or destroy edge is behind the suspend of a number, and what crosses that comes from the frame.
pub fn sources_keep_rules_of_edges()
    ensures { (l : Lowered) (low : IsLowered l) (a : Anew) (r : Run) → HasFewBytes l → IsAnewOf (early l) a
        → IsEntryCall l.source r → KeepsEdges (asking l low a r) }
{}

/// In each state of the run that makes slots anew activations stand where they may, and on others. Names of slots in
/// frames lead there by another law.
pub fn states_of_sources_may_go_on()
    ensures { (l : Lowered) (low : IsLowered l) → HasFewBytes l → (a : Anew) → IsAnewOf (early l) a → (r : Run)
        → IsEntryCall l.source r → (counts : ℕ → ℕ → Bool)
        → ((func v d : ℕ) → is_coroutine (building l low.is_framed r.answers) func ≡ true
        → v < length (edged_of ((building l low.is_framed r.answers).framing func)).names
        → entry (offsets ((building l low.is_framed r.answers).framing func)) v ≡ Some d → counts func v ≡ true)
        → (n : ℕ)
        → IsLedState (edged l) counts (iterate (renewed_step (renewing l a r)) n (first_state (edged l) r.entry r.args))
        → MayGoOn (asking l low a r)
        (iterate (renewed_step (renewing l a r)) n (first_state (edged l) r.entry r.args)) }
{}

/// An activation in a block on a resume or destroy edge was woken, and its instance goes on. That values may be kept is
/// known by another law.
pub fn states_of_sources_may_leave_edges()
    ensures { (l : Lowered) (low : IsLowered l) → HasFewBytes l → (a : Anew) → IsAnewOf (early l) a → (r : Run)
        → IsEntryCall l.source r → (n : ℕ)
        → HasStorables (asking l low a r)
        (iterate (renewed_step (renewing l a r)) n (first_state (edged l) r.entry r.args))
        → MayLeaveEdge (asking l low a r)
        (iterate (renewed_step (renewing l a r)) n (first_state (edged l) r.entry r.args)) }
{}

/// So suspends, coro.end and ends of blocks are known in each state of the run where a coroutine's activation makes no
/// allocas again, where three things are by other laws: what its instruction asks (`MayFollow`), what values may be
/// kept, and where names of slots lead.
pub fn ends_of_sources_are_known()
    ensures { (l : Lowered) (low : IsLowered l) → HasFewBytes l → (a : Anew) → IsAnewOf (early l) a → (r : Run)
        → IsEntryCall l.source r → (counts : ℕ → ℕ → Bool)
        → ((func v d : ℕ) → is_coroutine (building l low.is_framed r.answers) func ≡ true
        → v < length (edged_of ((building l low.is_framed r.answers).framing func)).names
        → entry (offsets ((building l low.is_framed r.answers).framing func)) v ≡ Some d → counts func v ≡ true)
        → (n : ℕ) (t : State) (built : AreBuiltOf (building l low.is_framed r.answers)
        (iterate (renewed_step (renewing l a r)) n (first_state (edged l) r.entry r.args)) t)
        → AreOfRuns (asking l low a r)
        (iterate (renewed_step (renewing l a r)) n (first_state (edged l) r.entry r.args)) t built
        → (iterate (renewed_step (renewing l a r)) n (first_state (edged l) r.entry r.args)).outcome ≡ Outcome.Running
        → IsFine (renewed_step (renewing l a r)
        (iterate (renewed_step (renewing l a r)) n (first_state (edged l) r.entry r.args))).outcome
        → is_coroutine (building l low.is_framed r.answers)
        (iterate (renewed_step (renewing l a r)) n (first_state (edged l) r.entry r.args)).top.func ≡ true
        → IsNotEntering (iterate (renewed_step (renewing l a r)) n (first_state (edged l) r.entry r.args)).top.mode
        → MayFollow (asking l low a r)
        (iterate (renewed_step (renewing l a r)) n (first_state (edged l) r.entry r.args))
        → HasStorables (asking l low a r)
        (iterate (renewed_step (renewing l a r)) n (first_state (edged l) r.entry r.args))
        → IsLedState (edged l) counts (iterate (renewed_step (renewing l a r)) n (first_state (edged l) r.entry r.args))
        → AreEndsKnown (asking l low a r)
        (iterate (renewed_step (renewing l a r)) n (first_state (edged l) r.entry r.args)) t }
{}
