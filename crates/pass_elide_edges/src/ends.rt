//! What ends a block says what both runs do there, by what the framed module keeps.

ghost use Rattle.pass_elide_edges.specs.Keeping.{KeepsEnds, ShapesEnds};
ghost use Rattle.pass_elide_edges.specs.States.{EndsElided, EndsFramed, EndsReached, StandApart};
ghost use Rattle.pass_elide_proof.specs.Elision.{Elision, framed, function_in, rooms};
ghost use Rattle.pass_elide_proof.specs.Match.{AreMadeAlike, IsAtEnd, is_given_mode, sides, was_given};
ghost use Rattle.pass_elide_proof.specs.Places.{front_at};
ghost use Rattle.pass_elide_proof.specs.Placing.{KeepsPlaces};
ghost use Rattle.pass_elide_proof.specs.Statement.{AreRelated};
ghost use Rattle.pass_elide_proof.specs.Stepping.{IsKnownStep};
ghost use Rattle.pass_elide_proof.specs.pass_proofs.ir_base.declared.outcome.Outcome.{Outcome};
ghost use Rattle.pass_elide_proof.specs.pass_proofs.ir_model.declared.instr.Terminator.{Terminator};
ghost use Rattle.pass_elide_proof.specs.pass_proofs.ir_model.declared.operand.Arg.{Arg};
ghost use Rattle.pass_elide_proof.specs.pass_proofs.run_agreement.Machines.{IsFine};
ghost use Rattle.pass_elide_proof.specs.pass_proofs.run_framed.Framed.{framed_step};
ghost use Rattle.pass_elide_proof.specs.pass_proofs.run_source.State.{function_of};
ghost use Rattle.pass_elide_proof.specs.pass_proofs.run_source.declared.state.State.{State};
ghost use Rattle.pass_elide_proof.specs.pass_proofs.run_step.Step.{AtTerm, fetch};
ghost use Rattle.std.specs.Prelude.{Option, Some, true, ◌≡◌};

/// Where both runs stand beside each other at a ret, it leads back to a caller, or ends the run. New allocas of a
/// function that has just been entered may stand in front.
pub fn rets_are_known()
    ensures { (e : Elision) (s t : State) (r : AreRelated e s t) (value : Option Arg) → KeepsPlaces e
        → EndsFramed e s → EndsElided e t → s.outcome ≡ Outcome.Running
        → fetch (function_of (framed e).given s) s.top.block s.top.at ≡ AtTerm (Terminator.Ret value)
        → t.top.block ≡ s.top.block
        → t.top.at ≡ front_at (rooms e s.top.func) (function_in e s.top.func) s.top.block s.top.at
        → IsKnownStep e s t r.beside }
{}

/// At any other terminator both take the same edge, which leaves windows or none. But a given ramp waits where its
/// frame is asked for, and an activation whose frame was given at the test of what is to be freed.
pub fn ends_beside_are_known()
    ensures { (e : Elision) (s t : State) (r : AreRelated e s t) (term : Terminator) → KeepsPlaces e → KeepsEnds e
        → EndsReached e s → EndsElided e t → StandApart e (sides s t) s.top t.top → s.outcome ≡ Outcome.Running
        → IsFine (framed_step (framed e) s).outcome
        → fetch (function_of (framed e).given s) s.top.block s.top.at ≡ AtTerm term → t.top.block ≡ s.top.block
        → t.top.at ≡ front_at (rooms e s.top.func) (function_in e s.top.func) s.top.block s.top.at
        → IsKnownStep e s t r.beside }
{}

/// Where a given ramp waits, it passes by the block that allocates when the framed run leaves that. So does an
/// activation whose frame was given, when the framed run leaves the block that frees.
pub fn waiting_ends_are_known()
    ensures allocates { (e : Elision) (s t : State) (r : AreRelated e s t) (term : Terminator) → KeepsPlaces e
        → KeepsEnds e → EndsReached e s → StandApart e (sides s t) s.top t.top → s.outcome ≡ Outcome.Running
        → fetch (function_of (framed e).given s) s.top.block s.top.at ≡ AtTerm term
        → ShapesEnds e s.top.func → IsAtEnd e t.top → is_given_mode t.top.mode ≡ true
        → (e.shape s.top.func).waits s.top.block ≡ Some t.top.block → IsKnownStep e s t r.beside }
    ensures frees { (e : Elision) (s t : State) (r : AreRelated e s t) (term : Terminator) → KeepsPlaces e
        → KeepsEnds e → EndsReached e s → StandApart e (sides s t) s.top t.top → s.outcome ≡ Outcome.Running
        → fetch (function_of (framed e).given s) s.top.block s.top.at ≡ AtTerm term
        → ShapesEnds e s.top.func → IsAtEnd e t.top → was_given (sides s t) t.top ≡ true
        → (e.shape s.top.func).frees s.top.block ≡ Some t.top.block → IsKnownStep e s t r.beside }
{}

/// Where both runs are in blocks of their own they come to the same block.
pub fn ends_aside_are_known()
    ensures { (e : Elision) (s t : State) (r : AreRelated e s t) (term : Terminator) → KeepsPlaces e → KeepsEnds e
        → EndsReached e s → StandApart e (sides s t) s.top t.top → s.outcome ≡ Outcome.Running
        → fetch (function_of (framed e).given s) s.top.block s.top.at ≡ AtTerm term
        → ShapesEnds e s.top.func → was_given (sides s t) t.top ≡ true
        → (e.shape s.top.func).aside s.top.block ≡ Some t.top.block → t.top.at ≡ s.top.at
        → AreMadeAlike e r.beside.homes s.top t.top → IsKnownStep e s t r.beside }
{}

/// From related states each step at the end of a block that isn't undefined is of a known kind.
pub fn ends_are_known()
    ensures { (e : Elision) (s t : State) (r : AreRelated e s t) (term : Terminator) → KeepsPlaces e → KeepsEnds e
        → EndsReached e s → EndsElided e t → StandApart e (sides s t) s.top t.top → s.outcome ≡ Outcome.Running
        → IsFine (framed_step (framed e) s).outcome
        → fetch (function_of (framed e).given s) s.top.block s.top.at ≡ AtTerm term → IsKnownStep e s t r.beside }
{}
