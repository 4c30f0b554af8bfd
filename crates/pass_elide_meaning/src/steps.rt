//! Steps of the framed run.

ghost use Rattle.pass_elide_edges.specs.Keeping.{KeepsEnds};
ghost use Rattle.pass_elide_edges.specs.States.{EndsElided, EndsFramed, StandApart};
ghost use Rattle.pass_elide_known.specs.Keeping.{KeepsMore};
ghost use Rattle.pass_elide_known.specs.States.{IsKnownFramed, IsKnownGiving};
ghost use Rattle.pass_elide_edges.specs.pass_elide_proof.Elision.{Elision, framed};
ghost use Rattle.pass_elide_edges.specs.pass_elide_proof.Match.{sides};
ghost use Rattle.pass_elide_edges.specs.pass_elide_proof.Placing.{KeepsPlaces};
ghost use Rattle.pass_elide_edges.specs.pass_elide_proof.Statement.{AreRelated};
ghost use Rattle.pass_elide_edges.specs.pass_elide_proof.Stepping.{IsKnownStep};
ghost use Rattle.pass_elide_edges.specs.pass_proofs.ir_base.declared.outcome.Outcome.{Outcome};
ghost use Rattle.pass_elide_edges.specs.pass_proofs.run_agreement.Machines.{IsFine};
ghost use Rattle.pass_elide_edges.specs.pass_proofs.run_framed.Framed.{framed_step};
ghost use Rattle.pass_elide_edges.specs.pass_proofs.run_source.declared.state.State.{State};
ghost use Rattle.std.specs.Prelude.{◌≡◌};

/// From related states each step that isn't undefined is of a known kind, by what the framed module keeps and what is
/// known of both states.
pub fn steps_are_known()
    ensures { (e : Elision) (s t : State) (r : AreRelated e s t) → KeepsPlaces e → KeepsMore e → KeepsEnds e
        → IsKnownFramed e s → IsKnownGiving e t → EndsFramed e s → EndsElided e t
        → StandApart e (sides s t) s.top t.top → s.outcome ≡ Outcome.Running
        → IsFine (framed_step (framed e) s).outcome → IsKnownStep e s t r.beside }
{}
