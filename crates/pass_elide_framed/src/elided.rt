//! Framed forms of accepted sources keep what elision asks, where each shape is that of a form.

ghost use Rattle.compiler_theorem.specs.theorem.Lowered.{Lowered};
ghost use Rattle.pass_elide_framed.specs.Elided.{IsElidedForm};
ghost use Rattle.pass_elide_ready.specs.pass_elide_kept.Modules.{KeepsHandlesAndEnds};
ghost use Rattle.pass_elide_ready.specs.pass_elide_known.Keeping.{KeepsMore};
ghost use Rattle.pass_elide_ready.specs.pass_elide_proof.Elision.{Elision, framed, function_in};
ghost use Rattle.pass_elide_ready.specs.pass_elide_proof.Releasing.{HoldsOfRooms};
ghost use Rattle.pass_elide_ready.specs.Form.{IsFormed};
ghost use Rattle.pass_elide_ready.specs.pass_elide_runs.Ends.{EndsOnce};
ghost use Rattle.pass_elide_ready.specs.pass_elide_runs.Keeps.{KeepsRuns};
ghost use Rattle.pass_elide_ready.specs.run_hooks.Away.{KeepsAllPlaceRules};
ghost use Rattle.std.specs.Prelude.{ℕ};

/// They keep handles and ends. They keep known places, if calls give frames to formed coroutines alone. They keep what
/// is asked of runs, if saves, suspends and ends stand where K5 and K6 say.
pub fn framed_forms_are_kept()
    ensures handles { (l : Lowered) (e : Elision) → IsElidedForm l e → KeepsHandlesAndEnds e }
    ensures more { (l : Lowered) (e : Elision) → IsElidedForm l e → HoldsOfRooms (IsFormed e) e → KeepsMore e }
    ensures runs { (l : Lowered) (e : Elision) → IsElidedForm l e → KeepsAllPlaceRules (framed e).given
        → ((func : ℕ) → EndsOnce (function_in e func)) → KeepsRuns e }
{}
