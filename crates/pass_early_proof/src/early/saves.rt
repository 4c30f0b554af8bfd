//! Writing the saves of suspends out, as a pass of its own: what it leaves as it is of a function's paths,
//! windows and slots.
//!
//! Writing saves out (`saves_written`) leaves paths, windows, ramp slots, markers and the promise of a function as
//! they are, moved (`paths_are_kept`, `windows_are_moved`, `left_windows_are_moved`, `ramp_slots_stay`,
//! `markers_stay`, `promise_stays`). A function that is no coroutine stays (`plain_functions_stay`).

ghost use Rattle.std.specs.Prelude.{◌≡◌, false, ◌↔◌, List, filter, ℕ};
ghost use Rattle.ir_model.specs.declared.module.Function.{Function};
ghost use Rattle.pass_early_proof.specs.early.saves.SavesWritten.{saved_function};
ghost use Rattle.rule_laws.specs.ir_paths.Paths.{Leads};
ghost use Rattle.rule_laws.specs.ir_paths.declared.point.Point.{Point};
ghost use Rattle.rule_laws.specs.ir_laws.paths.expanded.Avoided.{AreAvoided};
ghost use Rattle.pass_early_proof.specs.early.saves.Spots.{back_of, front_of};
ghost use Rattle.rule_laws.specs.ir_paths.Windows.{windows_of, leaves};
ghost use Rattle.pass_early_proof.specs.early.saves.Moved.{AreMoved, AreAllMoved};
ghost use Rattle.rule_laws.specs.ir_laws.paths.expanded.Tokens.{HasNamedTokens};
ghost use Rattle.rule_laws.specs.ir_paths.Facts.{facts_of};
ghost use Rattle.rule_laws.specs.ir_paths.Slots.{has_name, promise_of};
ghost use Rattle.rule_laws.specs.run_step.Step.{has_markers};

/// A function that is no coroutine stays as it is.
#[tactic(auto, using(crate::proofs::early::saves::Plain::plain_stays))]
pub fn plain_functions_stay()
    ensures { (f : Function) → f.coroutine ≡ false → saved_function f ≡ f }
{}

/// A path from one instruction to another is a path from where the first one stands to where what the other becomes begins.
#[tactic(auto, using(crate::proofs::early::saves::Laws::paths_kept))]
pub fn paths_are_kept()
    ensures { (f : Function) (avoided besides : List Point) (p q : Point) → AreAvoided (front_of f) (back_of f) avoided besides → Leads f avoided p q ↔ Leads (saved_function f) besides (back_of f p) (front_of f q) }
{}

/// The windows of the function are moved, and those of the written saves have no points.
#[tactic(auto, using(crate::proofs::early::saves::Saves::are_moved))]
pub fn windows_are_moved()
    ensures { (f : Function) → HasNamedTokens f → AreMoved f (windows_of f) (windows_of (saved_function f)) }
{}

/// A branch leaves the windows that it left, moved.
#[tactic(auto, using(crate::proofs::early::saves::Laws::left_kept))]
pub fn left_windows_are_moved()
    ensures { (f : Function) (p q : Point) → HasNamedTokens f → AreAllMoved f (filter (leaves p q) (windows_of f)) (filter (leaves (front_of f p) (front_of f q)) (windows_of (saved_function f))) }
{}

/// The ramp slots stay.
#[tactic(auto, using(crate::proofs::early::saves::Slots::same_ramp_slots))]
pub fn ramp_slots_stay()
    ensures { (f : Function) → HasNamedTokens f → (a : ℕ) → has_name (facts_of (saved_function f)).ramp_slots a ≡ has_name (facts_of f).ramp_slots a }
{}

/// So does the promise.
#[tactic(auto, using(crate::proofs::early::saves::Slots::same_promise))]
pub fn promise_stays()
    ensures { (f : Function) → HasNamedTokens f → promise_of (saved_function f) ≡ promise_of f }
{}

/// Markers of slots stay.
#[tactic(auto, using(crate::proofs::early::saves::Parts::markers_saved))]
pub fn markers_stay()
    ensures { (f : Function) (name : ℕ) → has_markers (saved_function f) name ≡ has_markers f name }
{}
