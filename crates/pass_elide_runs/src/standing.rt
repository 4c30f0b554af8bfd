//! Where activations stand.

ghost use Rattle.pass_elide_proof.specs.Elision.{Elision, elided, elided_code, function_in};
ghost use Rattle.pass_elide_proof.specs.Placing.{KeepsPlaces};
ghost use Rattle.pass_elide_runs.specs.Standing.{StandWhereLed};
ghost use Rattle.pass_elide_proof.specs.pass_proofs.edges.rules.Returns.{AreSwitched};
ghost use Rattle.pass_elide_proof.specs.pass_proofs.ir_base.declared.outcome.Word.{Word};
ghost use Rattle.pass_elide_proof.specs.pass_proofs.ir_model.Names.{function_at};
ghost use Rattle.pass_elide_proof.specs.pass_proofs.run_framed.Framed.{FramedGiven, framed_state_at};
ghost use Rattle.run_hooks.specs.Reached.{AllHaveSwitches};
ghost use Rattle.std.specs.Prelude.{List, ℕ};

/// In the elided module suspends are followed by their switches as in the framed form.
pub fn elided_modules_have_switches()
    ensures paths { (e : Elision) → KeepsPlaces e → AllHaveSwitches e.code → AllHaveSwitches (elided_code e) }
    ensures blocks { (e : Elision) → KeepsPlaces e → ((func : ℕ) → AreSwitched (function_in e func)) → (func : ℕ)
        → AreSwitched (function_at (elided_code e) func) }
{}

/// In each state of a framed run a path leads to the block of each activation, and to a label that it is about to
/// enter. The run that gives frames has the same blocks and edges.
pub fn activations_stand_where_paths_lead()
    ensures runs { (g : FramedGiven) (entry : ℕ) (args : List Word) (n : ℕ) → AllHaveSwitches g.given.code
        → StandWhereLed g.given.code (framed_state_at g entry args n) }
    ensures giving { (e : Elision) (entry : ℕ) (args : List Word) (n : ℕ) → KeepsPlaces e → AllHaveSwitches e.code
        → StandWhereLed e.code (framed_state_at (elided e) entry args n) }
{}
