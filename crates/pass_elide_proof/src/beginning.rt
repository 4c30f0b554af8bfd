//! Coroutines that begin in both runs.

ghost use Rattle.std.specs.Prelude.{Bool, List, Option, ℕ};
ghost use Rattle.pass_elide_proof.specs.Beginning.{HasRoomAt, IsAtBegin, IsAtGivenBegin};
ghost use Rattle.pass_elide_proof.specs.Elision.{Elision, elided, framed};
ghost use Rattle.pass_elide_proof.specs.Match.{AreElided};
ghost use Rattle.pass_elide_proof.specs.Rooms.{IsAtRoom};
ghost use Rattle.pass_elide_proof.specs.Statement.{AreRelated};
ghost use Rattle.pass_proofs.specs.ir_model.Ty.{Ty};
ghost use Rattle.pass_proofs.specs.ir_model.declared.operand.Arg.{Arg};
ghost use Rattle.pass_proofs.specs.run_agreement.Machines.{IsFine};
ghost use Rattle.pass_proofs.specs.run_framed.Framed.{framed_step};
ghost use Rattle.pass_proofs.specs.run_source.declared.state.State.{State};

/// Where a ramp allocates in both runs, it begins in the allocator's block and in its home.
pub fn begins_stay_beside()
    ensures { (e : Elision) (s t : State) (result : Option ℕ) (must_tail : Bool) (ty : Option Ty) (args : List Arg)
        → AreElided e s t → IsFine (framed_step (framed e) s).outcome
        → IsAtBegin e s t result must_tail ty args
        → AreElided e (framed_step (framed e) s) (framed_step (elided e) t) }
{}

/// Where a ramp was given its frame, the framed run begins in the block that it holds. The other one begins in the
/// alloca whose address was given, and from then on the block stands there.
pub fn given_begins_stay_beside()
    ensures { (e : Elision) (s t : State) (r : AreElided e s t) (result : Option ℕ) (must_tail : Bool)
        (ty : Option Ty) (args : List Arg) → IsFine (framed_step (framed e) s).outcome
        → IsAtGivenBegin e s t r result must_tail ty args
        → AreElided e (framed_step (framed e) s) (framed_step (elided e) t) }
{}

/// Where a ramp that was given its frame is about to begin, its caller's alloca has room for the frame. All that began
/// there is over, and nothing of the framed run stands there.
pub fn rooms_are_given()
    ensures { (e : Elision) (s t : State) (r : AreRelated e s t) (block : ℕ) → IsAtRoom e s t block
        → HasRoomAt e s t r.beside block }
{}
