//! States of both runs.

ghost use Rattle.pass_elide_edges.specs.States.{EndsElided, EndsFramed};
ghost use Rattle.pass_elide_known.specs.Keeping.{KeepsMore};
ghost use Rattle.pass_elide_known.specs.States.{IsKnownFramed, IsKnownGiving};
ghost use Rattle.pass_elide_meaning.specs.Lacks.{LacksFramed, LacksGiving};
ghost use Rattle.pass_elide_edges.specs.pass_elide_proof.Assembling.{elided_after, framed_after};
ghost use Rattle.pass_elide_edges.specs.pass_elide_proof.Elision.{Elision};
ghost use Rattle.pass_elide_edges.specs.pass_elide_proof.OwnSlots.{CountsSlots};
ghost use Rattle.pass_elide_edges.specs.pass_elide_proof.Placing.{KeepsPlaces};
ghost use Rattle.pass_elide_edges.specs.pass_elide_proof.Statement.{IsEntryCall};
ghost use Rattle.pass_elide_runs.specs.Keeps.{KeepsRuns};
ghost use Rattle.pass_elide_edges.specs.pass_proofs.ir_base.declared.outcome.Outcome.{Outcome};
ghost use Rattle.pass_elide_edges.specs.pass_proofs.ir_base.declared.outcome.Word.{Word};
ghost use Rattle.std.specs.Prelude.{List, ◌≡◌, ℕ};

/// In each state of the framed run that is running, what its steps ask of it is had, but for what is still lacking.
pub fn framed_states_are_known()
    ensures instrs { (e : Elision) (entry : ℕ) (args : List Word) (n : ℕ) → KeepsPlaces e → KeepsMore e → KeepsRuns e
        → IsEntryCall e entry args → (framed_after e entry args n).outcome ≡ Outcome.Running
        → LacksFramed e (framed_after e entry args n) → IsKnownFramed e (framed_after e entry args n) }
    ensures ends { (e : Elision) (entry : ℕ) (args : List Word) (n : ℕ) → KeepsPlaces e → KeepsMore e
        → EndsFramed e (framed_after e entry args n) }
{}

/// So it is in each state of the run that gives frames. Its slots have blocks of their own by what is related.
pub fn giving_states_are_known()
    ensures instrs { (e : Elision) (entry : ℕ) (args : List Word) (m : ℕ) → KeepsPlaces e → KeepsMore e → KeepsRuns e
        → IsEntryCall e entry args → (elided_after e entry args m).outcome ≡ Outcome.Running
        → CountsSlots (elided_after e entry args m) → LacksGiving e (elided_after e entry args m)
        → IsKnownGiving e (elided_after e entry args m) }
    ensures ends { (e : Elision) (entry : ℕ) (args : List Word) (m : ℕ) → KeepsPlaces e → KeepsRuns e
        → IsEntryCall e entry args → (elided_after e entry args m).outcome ≡ Outcome.Running
        → CountsSlots (elided_after e entry args m) → EndsElided e (elided_after e entry args m) }
{}

/// Where both runs start, nothing is lacking.
pub fn runs_start_lacking_nothing()
    ensures framed { (e : Elision) (entry : ℕ) (args : List Word) → KeepsPlaces e → KeepsMore e → KeepsRuns e
        → IsEntryCall e entry args → LacksFramed e (framed_after e entry args 0) }
    ensures giving { (e : Elision) (entry : ℕ) (args : List Word) → KeepsPlaces e → KeepsMore e
        → IsEntryCall e entry args → LacksGiving e (elided_after e entry args 0) }
{}
