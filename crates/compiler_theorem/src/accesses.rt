//! Accesses ahead of begin of accepted sources are followed, which go by the addresses in cells of slots.

ghost use Rattle.std.specs.Prelude.{◌≡◌, ℕ, None, true};
ghost use Rattle.compiler_theorem.specs.theorem.Anew.{Anew, IsAnewOf};
ghost use Rattle.compiler_theorem.specs.theorem.Asked.{asking};
ghost use Rattle.compiler_theorem.specs.theorem.Between.{renewing};
ghost use Rattle.compiler_theorem.specs.theorem.Entries.{IsEntryCall, Run};
ghost use Rattle.compiler_theorem.specs.theorem.Lowered.{HasFewBytes, IsLowered, Lowered, early, edged};
ghost use Rattle.compiler.specs.ir_base.declared.outcome.Outcome.{Outcome};
ghost use Rattle.compiler.specs.ir_model.Names.{function_at};
ghost use Rattle.compiler.specs.ir_model.declared.instr.Instr.{Instr};
ghost use Rattle.compiler.specs.pass_copies.Uses.{is_access};
ghost use Rattle.compiler.specs.pass_kept_proof.Needed.{IsReached};
ghost use Rattle.pass_frames_meaning.specs.Accesses.{MayAccess};
ghost use Rattle.pass_frames_meaning.specs.Setting.{AreOfRuns};
ghost use Rattle.pass_frames_meaning.specs.Unbegun.{IsBefore};
ghost use Rattle.pass_frames_meaning.specs.pass_frames_proof.Code.{is_ahead};
ghost use Rattle.pass_frames_meaning.specs.pass_frames_proof.Followed.{IsFollowed};
ghost use Rattle.pass_frames_meaning.specs.pass_frames_proof.Related.{AreBuiltOf, is_coroutine};
ghost use Rattle.pass_frames_meaning.specs.pass_frames_proof.Stepping.{IsNotEntering, state_in};
ghost use Rattle.pass_frames_meaning.specs.pass_frames_proof.Temporaries.{HasLedSlots};
ghost use Rattle.pass_frames_meaning.specs.pass_renewed_proof.Renewed.{renewed_step};
ghost use Rattle.compiler.specs.run_agreement.Machines.{IsFine};
ghost use Rattle.compiler.specs.run_source.Source.{first_state};
ghost use Rattle.compiler.specs.run_source.State.{function_of};
ghost use Rattle.compiler.specs.run_source.declared.state.Mode.{Mode};
ghost use Rattle.compiler.specs.run_source.declared.state.State.{State as TheState};
ghost use Rattle.compiler.specs.run_step.Runs.{iterate};
ghost use Rattle.compiler.specs.run_step.Step.{AtInstr, fetch};

/// A place of a coroutine to which a path leads, and at which begin is ahead by the flags of its block, stands before
/// begin.
pub fn places_ahead_stand_before_begin()
    ensures { (l : Lowered) (low : IsLowered l) → HasFewBytes l → (a : Anew) → IsAnewOf (early l) a → (r : Run)
        → IsEntryCall l.source r → (func block at : ℕ) (i : Instr)
        → is_coroutine (asking l low a r).b func ≡ true → fetch (function_at (edged l) func) block at ≡ AtInstr i
        → is_ahead (state_in ((asking l low a r).b.framing func) block at) ≡ true
        → IsReached (function_at (edged l) func) block at → IsBefore (function_at (edged l) func) block at }
{}

/// In each state of the run of an accepted source that makes slots anew, what `MayAccess` asks is known of an access
/// ahead of begin (clause known). So it is followed, where names of slots of the framed run lead to them (clause located).
pub fn accesses_of_sources_are_followed()
    ensures known { (l : Lowered) (low : IsLowered l) → HasFewBytes l → (a : Anew) → IsAnewOf (early l) a → (r : Run)
        → IsEntryCall l.source r → (n : ℕ)
        → (iterate (renewed_step (renewing l a r)) n (first_state (edged l) r.entry r.args)).outcome ≡ Outcome.Running
        → is_coroutine (asking l low a r).b
        (iterate (renewed_step (renewing l a r)) n (first_state (edged l) r.entry r.args)).top.func ≡ true
        → IsNotEntering (iterate (renewed_step (renewing l a r)) n (first_state (edged l) r.entry r.args)).top.mode
        → ((iterate (renewed_step (renewing l a r)) n (first_state (edged l) r.entry r.args)).top.instance ≡ None
        → (iterate (renewed_step (renewing l a r)) n (first_state (edged l) r.entry r.args)).top.mode ≡ Mode.Ramp)
        → (i : Instr)
        → fetch (function_of (renewing l a r).given
        (iterate (renewed_step (renewing l a r)) n (first_state (edged l) r.entry r.args)))
        (iterate (renewed_step (renewing l a r)) n (first_state (edged l) r.entry r.args)).top.block
        (iterate (renewed_step (renewing l a r)) n (first_state (edged l) r.entry r.args)).top.at ≡ AtInstr i
        → is_access i ≡ true
        → is_ahead (state_in ((asking l low a r).b.framing
        (iterate (renewed_step (renewing l a r)) n (first_state (edged l) r.entry r.args)).top.func)
        (iterate (renewed_step (renewing l a r)) n (first_state (edged l) r.entry r.args)).top.block
        (iterate (renewed_step (renewing l a r)) n (first_state (edged l) r.entry r.args)).top.at) ≡ true
        → MayAccess (asking l low a r) (iterate (renewed_step (renewing l a r)) n (first_state (edged l) r.entry r.args))
        i }
    ensures located { (l : Lowered) (low : IsLowered l) → HasFewBytes l → (a : Anew) → IsAnewOf (early l) a → (r : Run)
        → IsEntryCall l.source r → (n : ℕ)
        → (iterate (renewed_step (renewing l a r)) n (first_state (edged l) r.entry r.args)).outcome ≡ Outcome.Running
        → is_coroutine (asking l low a r).b
        (iterate (renewed_step (renewing l a r)) n (first_state (edged l) r.entry r.args)).top.func ≡ true
        → IsNotEntering (iterate (renewed_step (renewing l a r)) n (first_state (edged l) r.entry r.args)).top.mode
        → ((iterate (renewed_step (renewing l a r)) n (first_state (edged l) r.entry r.args)).top.instance ≡ None
        → (iterate (renewed_step (renewing l a r)) n (first_state (edged l) r.entry r.args)).top.mode ≡ Mode.Ramp)
        → (i : Instr)
        → fetch (function_of (renewing l a r).given
        (iterate (renewed_step (renewing l a r)) n (first_state (edged l) r.entry r.args)))
        (iterate (renewed_step (renewing l a r)) n (first_state (edged l) r.entry r.args)).top.block
        (iterate (renewed_step (renewing l a r)) n (first_state (edged l) r.entry r.args)).top.at ≡ AtInstr i
        → is_access i ≡ true
        → is_ahead (state_in ((asking l low a r).b.framing
        (iterate (renewed_step (renewing l a r)) n (first_state (edged l) r.entry r.args)).top.func)
        (iterate (renewed_step (renewing l a r)) n (first_state (edged l) r.entry r.args)).top.block
        (iterate (renewed_step (renewing l a r)) n (first_state (edged l) r.entry r.args)).top.at) ≡ true
        → (t : TheState)
        (built : AreBuiltOf (asking l low a r).b
        (iterate (renewed_step (renewing l a r)) n (first_state (edged l) r.entry r.args)) t)
        → AreOfRuns (asking l low a r)
        (iterate (renewed_step (renewing l a r)) n (first_state (edged l) r.entry r.args)) t built
        → IsFine (renewed_step (renewing l a r)
        (iterate (renewed_step (renewing l a r)) n (first_state (edged l) r.entry r.args))).outcome → HasLedSlots t
        → IsFollowed (asking l low a r).b (asking l low a r).g
        (iterate (renewed_step (renewing l a r)) n (first_state (edged l) r.entry r.args)) t }
{}
