//! Records of a framed module where each shape is that of a form, or of none (`AreFormed`).

ghost use Rattle.elide_sites.specs.Destroyed.{IsOn, has_at, is_stop};
ghost use Rattle.elide_sites.specs.Sites.{AreSites};
ghost use Rattle.elide_sites.specs.declared.destroyed.Way.{Way};
ghost use Rattle.pass_elide_kept.specs.Modules.{KeepsHandlesAndEnds};
ghost use Rattle.pass_elide_known.specs.Keeping.{KeepsMore};
ghost use Rattle.pass_elide_edges.specs.pass_elide_proof.CallersStack.{ReturnsFrame};
ghost use Rattle.pass_elide_edges.specs.pass_elide_proof.Elision.{Elision, framed, function_in};
ghost use Rattle.pass_elide_edges.specs.pass_elide_proof.Match.{frame_size};
ghost use Rattle.pass_elide_edges.specs.pass_elide_proof.Placing.{HasShape};
ghost use Rattle.pass_elide_edges.specs.pass_elide_proof.Releasing.{HoldsOfRooms};
ghost use Rattle.pass_elide_edges.specs.pass_elide_proof.Sound.{NestsNone};
ghost use Rattle.pass_elide_ready.specs.Form.{AreFormed, IsFormed};
ghost use Rattle.pass_elide_ready.specs.Ruled.{IsRuled};
ghost use Rattle.pass_elide_runs.specs.Ends.{EndsOnce};
ghost use Rattle.pass_elide_runs.specs.Keeps.{KeepsRuns};
ghost use Rattle.pass_elide_edges.specs.pass_elide_proof.pass_proofs.ir_model.Names.{function_at};
ghost use Rattle.pass_elide_edges.specs.pass_elide_proof.pass_proofs.ir_model.declared.module.Module.{Module};
ghost use Rattle.run_hooks.specs.Away.{KeepsAllPlaceRules};
ghost use Rattle.std.specs.Prelude.{IsFalse, false, ◌<◌, ◌^◌, ◌≡◌, ℕ};

/// Such a module keeps what is asked of runs, if saves, suspends and ends stand where K5 and K6 say, and frames are small.
pub fn forms_keep_runs()
    ensures { (e : Elision) → IsRuled e.code → AreFormed e → KeepsAllPlaceRules (framed e).given
        → ((func : ℕ) → EndsOnce (function_in e func)) → ((func : ℕ) → frame_size e func < 2 ^ 32) → KeepsRuns e }
{}

/// It keeps what is asked of known places, if calls give frames to formed coroutines alone, and no frame has room for
/// another one.
pub fn forms_keep_more()
    ensures { (e : Elision) → IsRuled e.code → AreFormed e → HoldsOfRooms (IsFormed e) e → NestsNone (framed e)
        → KeepsMore e }
{}

/// It keeps handles and ends, if its sites are those of a source, coroutines that are given frames return them, and no
/// path from a destroy edge meets a save or a suspend.
pub fn forms_keep_handles_and_ends()
    ensures { (e : Elision) → IsRuled e.code → AreFormed e → (source : Module) → AreSites source e.sites
        → ((func : ℕ) → (function_at source func).coroutine ≡ false → function_in e func ≡ function_at source func)
        → ((func : ℕ) → HasShape e func → ReturnsFrame (function_in e func))
        → ((func : ℕ) → HasShape e func → (b : ℕ) → IsOn Way.Destroyed (function_in e func) b
        → IsFalse (has_at is_stop (function_in e func) b))
        → KeepsHandlesAndEnds e }
{}
