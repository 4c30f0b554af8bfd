//! Slots of the run that gives frames.

ghost use Rattle.pass_elide_meaning.specs.pass_elide_edges.Keeping.{KeepsEnds};
ghost use Rattle.pass_elide_meaning.specs.pass_elide_edges.pass_elide_proof.Elision.{Elision, elided, elided_code};
ghost use Rattle.pass_elide_meaning.specs.pass_elide_edges.pass_elide_proof.OwnSlots.{CountsSlots};
ghost use Rattle.pass_elide_meaning.specs.pass_elide_edges.pass_elide_proof.Placing.{KeepsPlaces};
ghost use Rattle.pass_elide_meaning.specs.pass_elide_edges.pass_elide_proof.pass_proofs.ir_base.declared.outcome.Word.{Word};
ghost use Rattle.pass_elide_meaning.specs.pass_elide_edges.pass_elide_proof.pass_proofs.ir_model.Names.{function_at};
ghost use Rattle.pass_elide_meaning.specs.pass_elide_edges.pass_elide_proof.pass_proofs.run_agreement.Machines.{IsFine};
ghost use Rattle.pass_elide_meaning.specs.pass_elide_edges.pass_elide_proof.pass_proofs.run_framed.Framed.{framed_state_at};
ghost use Rattle.pass_elide_meaning.specs.pass_elide_known.Keeping.{KeepsMore};
ghost use Rattle.pass_elide_lacks.specs.Rooms.{HoldsNone};
ghost use Rattle.pass_elide_meaning.specs.pass_elide_runs.Keeps.{KeepsRuns};
ghost use Rattle.pass_elide_meaning.specs.pass_elide_runs.Slots.{NamesAllocas};
ghost use Rattle.std.specs.Prelude.{List, ℕ};

/// In each state of the run that gives frames slots have blocks of their own. Instances have no slots, since each
/// alloca of a function is among its facts.
pub fn slots_of_giving_runs_are_counted()
    ensures { (e : Elision) (entry : ℕ) (args : List Word) (n : ℕ) → KeepsPlaces e → KeepsMore e
        → IsFine (framed_state_at (elided e) entry args n).outcome
        → CountsSlots (framed_state_at (elided e) entry args n) }
{}

/// In elided functions each alloca gives its name alone, too: the new ones have names of their own.
pub fn elided_functions_name_allocas()
    ensures { (e : Elision) (func : ℕ) → KeepsPlaces e → KeepsEnds e → KeepsRuns e
        → NamesAllocas (function_at (elided_code e) func) }
{}

/// A given frame lies in a slot of its caller whose alloca was put in front. So none lies in a slot that the framed
/// form has too.
pub fn slots_of_the_framed_form_hold_no_frames()
    ensures { (e : Elision) (entry : ℕ) (args : List Word) (n : ℕ) → KeepsPlaces e → KeepsMore e → KeepsEnds e
        → KeepsRuns e → IsFine (framed_state_at (elided e) entry args n).outcome
        → HoldsNone e (framed_state_at (elided e) entry args n) }
{}
