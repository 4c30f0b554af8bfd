//! Destroys.

ghost use Rattle.pass_elide_proof.specs.Callers.{WakesByEdge};
ghost use Rattle.pass_elide_proof.specs.Elision.{Elision, elided, framed, function_in};
ghost use Rattle.pass_elide_proof.specs.Placing.{KeepsPlaces};
ghost use Rattle.pass_elide_proof.specs.pass_proofs.edges.rules.Returns.{AreSwitched};
ghost use Rattle.pass_elide_proof.specs.pass_proofs.ir_base.declared.outcome.Word.{Word};
ghost use Rattle.pass_elide_proof.specs.pass_proofs.run_framed.Framed.{framed_state_at};
ghost use Rattle.run_hooks.specs.Reached.{AllHaveSwitches};
ghost use Rattle.std.specs.Prelude.{List, ℕ};

/// In each state of both runs an instance is suspended at a suspend whose destroy edge leads to where a destroy
/// enters.
pub fn destroys_wake_by_edges()
    ensures framed { (e : Elision) (entry : ℕ) (args : List Word) (n : ℕ) → KeepsPlaces e → AllHaveSwitches e.code
        → ((func : ℕ) → AreSwitched (function_in e func)) → WakesByEdge e (framed_state_at (framed e) entry args n) }
    ensures giving { (e : Elision) (entry : ℕ) (args : List Word) (n : ℕ) → KeepsPlaces e → AllHaveSwitches e.code
        → ((func : ℕ) → AreSwitched (function_in e func)) → WakesByEdge e (framed_state_at (elided e) entry args n) }
{}
