//! States of both runs.

ghost use Rattle.pass_elide_meaning.specs.pass_elide_edges.Keeping.{KeepsEnds};
ghost use Rattle.pass_elide_meaning.specs.pass_elide_edges.States.{EndsElided};
ghost use Rattle.pass_elide_meaning.specs.pass_elide_edges.pass_elide_proof.Assembling.{elided_after};
ghost use Rattle.pass_elide_meaning.specs.pass_elide_edges.pass_elide_proof.Elision.{Elision};
ghost use Rattle.pass_elide_meaning.specs.pass_elide_edges.pass_elide_proof.Placing.{KeepsPlaces};
ghost use Rattle.pass_elide_meaning.specs.pass_elide_edges.pass_elide_proof.Statement.{IsEntryCall};
ghost use Rattle.pass_elide_meaning.specs.pass_elide_edges.pass_elide_proof.pass_proofs.ir_base.declared.outcome.Outcome.{Outcome};
ghost use Rattle.pass_elide_meaning.specs.pass_elide_edges.pass_elide_proof.pass_proofs.ir_base.declared.outcome.Word.{Word};
ghost use Rattle.pass_elide_meaning.specs.pass_elide_known.Keeping.{KeepsMore};
ghost use Rattle.pass_elide_meaning.specs.pass_elide_known.States.{IsKnownGiving};
ghost use Rattle.pass_elide_lacks.specs.Keeps.{KeepsAsked};
ghost use Rattle.pass_elide_meaning.specs.Lacks.{LacksGiving};
ghost use Rattle.pass_elide_meaning.specs.pass_elide_runs.Keeps.{KeepsRuns};
ghost use Rattle.std.specs.Prelude.{List, ◌≡◌, ℕ};

/// In no state of the run that gives frames anything is lacking.
pub fn giving_runs_lack_nothing()
    ensures { (e : Elision) (entry : ℕ) (args : List Word) (m : ℕ) → KeepsPlaces e → KeepsMore e → KeepsEnds e
        → KeepsRuns e → KeepsAsked e → (elided_after e entry args m).outcome ≡ Outcome.Running
        → LacksGiving e (elided_after e entry args m) }
{}

/// So in each of its states that is running what its steps ask of it is had.
pub fn giving_runs_are_known()
    ensures instrs { (e : Elision) (entry : ℕ) (args : List Word) (m : ℕ) → KeepsPlaces e → KeepsMore e
        → KeepsEnds e → KeepsRuns e → KeepsAsked e → IsEntryCall e entry args
        → (elided_after e entry args m).outcome ≡ Outcome.Running → IsKnownGiving e (elided_after e entry args m) }
    ensures ends { (e : Elision) (entry : ℕ) (args : List Word) (m : ℕ) → KeepsPlaces e → KeepsMore e → KeepsEnds e
        → KeepsRuns e → IsEntryCall e entry args → (elided_after e entry args m).outcome ≡ Outcome.Running
        → EndsElided e (elided_after e entry args m) }
{}
