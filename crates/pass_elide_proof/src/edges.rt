//! Steps at the ends of blocks.

ghost use Rattle.std.specs.Prelude.{[], length, ◌+◌, ◌≡◌, ℕ};
ghost use Rattle.pass_elide_proof.specs.EdgesAsking.{IsAtQuestion, IsAtWayOn};
ghost use Rattle.pass_elide_proof.specs.Edges.{IsAtEdge, IsAtMeeting, at_itself};
ghost use Rattle.pass_elide_proof.specs.Elision.{Elision, elided, framed, function_in, rooms};
ghost use Rattle.pass_elide_proof.specs.EdgesFreeing.{FreesAside, FreesFrame, IsAtFreed, IsAtTest};
ghost use Rattle.pass_elide_proof.specs.EdgesLeaving.{IsAtExit};
ghost use Rattle.pass_elide_proof.specs.Match.{AreElided, AreMadeAlike};
ghost use Rattle.pass_elide_proof.specs.Places.{allocas_ahead, front_at};
ghost use Rattle.pass_elide_proof.specs.Shapes.{AsksForFrame};
ghost use Rattle.pass_proofs.specs.ir_model.declared.instr.Terminator.{Terminator};
ghost use Rattle.pass_proofs.specs.run_framed.Framed.{framed_step};
ghost use Rattle.pass_proofs.specs.run_source.State.{function_of};
ghost use Rattle.pass_proofs.specs.run_source.declared.state.State.{State};
ghost use Rattle.pass_proofs.specs.run_step.Step.{AtTerm, fetch};

/// Both runs take the same edge, which leaves no window. The second one stands behind what is put in front of the
/// terminator.
pub fn edges_stay_beside()
    ensures { (e : Elision) (s t : State) (label : ℕ) → AreElided e s t → IsAtEdge e s t label
        → AreElided e (framed_step (framed e) s) (framed_step (elided e) (at_itself e s t)) }
{}

/// At a terminator the second run stands at its own place, and its allocas have been made. It isn't so where the first
/// run is in an entry block without instructions, in front of which allocas are put.
pub fn terminators_stand_at_fronts()
    ensures { (e : Elision) (s t : State) (term : Terminator) → AreElided e s t
        → fetch (function_of (framed e).given s) s.top.block s.top.at ≡ AtTerm term
        → t.top.at ≡ front_at (rooms e s.top.func) (function_in e s.top.func) s.top.block s.top.at
        → (s.top.block ≡ 0 → s.top.at ≡ 0 → allocas_ahead (rooms e s.top.func) (function_in e s.top.func) ≡ [])
        → (at_itself e s t ≡ t) × (length t.top.slots
        ≡ length s.top.slots + length (allocas_ahead (rooms e s.top.func) (function_in e s.top.func))) }
{}

/// Both runs take the same edge, which leaves windows. The instances of both activations run again.
pub fn leaving_edges_stay_beside()
    ensures { (e : Elision) (s t : State) (label : ℕ) → AreElided e s t → IsAtExit e s t label
        → AreElided e (framed_step (framed e) s) (framed_step (elided e) t) }
{}

/// A given ramp waits where it asks for its frame, while the framed run goes on to the block that allocates. When that
/// one leaves the block, the ramp passes by it to the block beside.
pub fn given_ramps_pass_by()
    ensures waits { (e : Elision) (s t : State) (k : AsksForFrame (function_in e s.top.func) (e.shape s.top.func))
        (label : ℕ) → AreElided e s t → IsAtQuestion e s t k label → AreElided e (framed_step (framed e) s) t }
    ensures passes { (e : Elision) (s t : State) (k : AsksForFrame (function_in e s.top.func) (e.shape s.top.func))
        (label : ℕ) → AreElided e s t → IsAtWayOn e s t k label
        → AreElided e (framed_step (framed e) s) (framed_step (elided e) t) }
{}

/// Behind blocks of their own both runs come to the same block. Its phis take what is the same, or what both blocks
/// made at the same position.
pub fn ways_meet()
    ensures { (e : Elision) (s t : State) (r : AreElided e s t) (label to : ℕ) → AreMadeAlike e r.homes s.top t.top
        → IsAtMeeting e s t label to → AreElided e (framed_step (framed e) s) (framed_step (elided e) t) }
{}

/// An activation whose frame was given waits at the test for null, while the framed run goes on to the block that
/// frees. When that one leaves the block, the activation passes by it, to a block beside or to the same block.
pub fn given_activations_pass_by()
    ensures waits { (e : Elision) (s t : State) (k : FreesFrame (function_in e s.top.func) (e.shape s.top.func))
        (label : ℕ) → AreElided e s t → IsAtTest e s t k label → AreElided e (framed_step (framed e) s) t }
    ensures aside { (e : Elision) (s t : State) (k : FreesFrame (function_in e s.top.func) (e.shape s.top.func))
        (label : ℕ) → AreElided e s t → IsAtFreed e s t k label
        → FreesAside (function_in e s.top.func) (e.shape s.top.func) k.after k.beside
        → AreElided e (framed_step (framed e) s) (framed_step (elided e) t) }
    ensures straight { (e : Elision) (s t : State) (k : FreesFrame (function_in e s.top.func) (e.shape s.top.func))
        (label : ℕ) → AreElided e s t → IsAtFreed e s t k label → k.after ≡ k.beside
        → AreElided e (framed_step (framed e) s) (framed_step (elided e) t) }
{}
