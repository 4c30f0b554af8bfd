//! Ordinary instructions, which both runs execute.

ghost use Rattle.std.specs.Prelude.{Bool, List, Option, ℕ};
ghost use Rattle.pass_elide_proof.specs.Again.{IsAtAllocaAgain, IsAtLastAlloca};
ghost use Rattle.pass_elide_proof.specs.Asides.{IsAtAddresses, IsAtLoads};
ghost use Rattle.pass_elide_proof.specs.Asked.{IsAtAsking};
ghost use Rattle.pass_elide_proof.specs.Elision.{Elision, elided, framed};
ghost use Rattle.pass_elide_proof.specs.Making.{IsAtAlloca, IsAtAllocator};
ghost use Rattle.pass_elide_proof.specs.Marking.{IsAtDeallocation, IsAtMarker};
ghost use Rattle.pass_elide_proof.specs.Match.{AreElided};
ghost use Rattle.pass_elide_proof.specs.Ordinary.{HasMadeAll, IsAtOrdinary, StandsInFront, with_at};
ghost use Rattle.pass_elide_proof.specs.Worked.{after, before, the_elision};
ghost use Rattle.pass_proofs.specs.ir_model.Ty.{Ty, int};
ghost use Rattle.pass_proofs.specs.ir_model.declared.instr.Instr.{Instr};
ghost use Rattle.pass_proofs.specs.ir_model.declared.operand.Allocator.{Allocator};
ghost use Rattle.pass_proofs.specs.ir_model.declared.operand.Arg.{Arg};
ghost use Rattle.pass_proofs.specs.ir_model.declared.operand.Intrinsic.{Intrinsic};
ghost use Rattle.pass_proofs.specs.ir_model.declared.operand.Operand.{Operand};
ghost use Rattle.pass_proofs.specs.ir_paths.declared.point.Point.{Point};
ghost use Rattle.pass_proofs.specs.run_framed.Framed.{framed_step};
ghost use Rattle.pass_proofs.specs.run_memory.declared.block.MemoryBlock.{MemoryBlock};
ghost use Rattle.pass_proofs.specs.run_memory.declared.pointer.Value.{Value};
ghost use Rattle.pass_proofs.specs.run_source.declared.state.State.{State};
ghost use Rattle.pass_proofs.specs.run_step.Step.{Work};

/// Behind an ordinary instruction that reads no name that differs, the states stand beside each other again. Both runs
/// do the same by it, and it makes, marks and allocates no block.
pub fn ordinary_steps_stay_beside()
    ensures { (e : Elision) (s t : State) (i : Instr) (v : Work) → AreElided e s t → StandsInFront e s t
        → IsAtOrdinary e s t i v → AreElided e (framed_step (framed e) s) (framed_step (elided e) t) }
{}

/// They stand so behind an alloca of the function, and behind a call of an allocator by which both runs allocate. The
/// new block stands in the other one's.
pub fn new_blocks_stay_beside()
    ensures allocas { (e : Elision) (s t : State) (name : ℕ) (ty : Ty) (align : ℕ) → AreElided e s t
        → StandsInFront e s t → IsAtAlloca e s t name ty align
        → AreElided e (framed_step (framed e) s) (framed_step (elided e) t) }
    ensures allocators { (e : Elision) (s t : State) (a : Allocator) (result : Option ℕ) (must_tail : Bool)
        (ty : Option Ty) (args : List Arg) → AreElided e s t → StandsInFront e s t
        → IsAtAllocator e s t a result must_tail ty args
        → AreElided e (framed_step (framed e) s) (framed_step (elided e) t) }
{}

/// Both runs change a block alike by a lifetime marker and by a deallocation, where no frame lies in it. Their states
/// stand beside each other afterwards.
pub fn changed_blocks_stay_beside()
    ensures markers { (e : Elision) (s t : State) (j : Intrinsic) (result : Option ℕ) (must_tail : Bool)
        (ty : Option Ty) (args : List Arg) → AreElided e s t → StandsInFront e s t
        → IsAtMarker e s t j result must_tail ty args
        → AreElided e (framed_step (framed e) s) (framed_step (elided e) t) }
    ensures deallocations { (e : Elision) (s t : State) (a : Allocator) (result : Option ℕ) (must_tail : Bool)
        (ty : Option Ty) (args : List Arg) (memory : List MemoryBlock) → AreElided e s t → StandsInFront e s t
        → IsAtDeallocation e s t a result must_tail ty args memory
        → AreElided e (framed_step (framed e) s) (framed_step (elided e) t) }
{}

/// Where one block stands aside of the other, each run loads a kept value into a name of its own, or makes a slot's
/// address. The blocks still stand so afterwards, and what both have made stands for each other.
pub fn loads_stay_aside()
    ensures loads { (e : Elision) (s t : State) (u v align : ℕ) (ty : Ty) (cell : Operand) (loaded : Value)
        → AreElided e s t → IsAtLoads e s t u v align ty cell loaded
        → AreElided e (framed_step (framed e) s) (framed_step (elided e) t) }
    ensures addresses { (e : Elision) (s t : State) (u v base distance : ℕ) → AreElided e s t
        → IsAtAddresses e s t u v base distance
        → AreElided e (framed_step (framed e) s) (framed_step (elided e) t) }
{}

/// At the first place of a function the states stay beside each other once its new allocas have been made. Up to then
/// the relation has the elided run's activation in front of them.
pub fn first_steps_stay_beside()
    ensures ordinary { (e : Elision) (s t : State) (n : ℕ) (i : Instr) (v : Work) (r : AreElided e s (with_at t n))
        → HasMadeAll e s (with_at t n) r → IsAtOrdinary e s t i v
        → AreElided e (framed_step (framed e) s) (framed_step (elided e) t) }
    ensures allocas { (e : Elision) (s t : State) (n : ℕ) (name : ℕ) (ty : Ty) (align : ℕ)
        (r : AreElided e s (with_at t n)) → HasMadeAll e s (with_at t n) r → IsAtAlloca e s t name ty align
        → AreElided e (framed_step (framed e) s) (framed_step (elided e) t) }
    ensures allocators { (e : Elision) (s t : State) (n : ℕ) (a : Allocator) (result : Option ℕ) (must_tail : Bool)
        (ty : Option Ty) (args : List Arg) (r : AreElided e s (with_at t n)) → HasMadeAll e s (with_at t n) r
        → IsAtAllocator e s t a result must_tail ty args
        → AreElided e (framed_step (framed e) s) (framed_step (elided e) t) }
    ensures markers { (e : Elision) (s t : State) (n : ℕ) (j : Intrinsic) (result : Option ℕ) (must_tail : Bool)
        (ty : Option Ty) (args : List Arg) (r : AreElided e s (with_at t n)) → HasMadeAll e s (with_at t n) r
        → IsAtMarker e s t j result must_tail ty args
        → AreElided e (framed_step (framed e) s) (framed_step (elided e) t) }
    ensures deallocations { (e : Elision) (s t : State) (n : ℕ) (a : Allocator) (result : Option ℕ) (must_tail : Bool)
        (ty : Option Ty) (args : List Arg) (memory : List MemoryBlock) (r : AreElided e s (with_at t n))
        → HasMadeAll e s (with_at t n) r → IsAtDeallocation e s t a result must_tail ty args memory
        → AreElided e (framed_step (framed e) s) (framed_step (elided e) t) }
{}

/// Where both runs ask for the coroutine's identity, its frame's size or alignment, or the frame's address, their
/// states stay beside each other too.
pub fn asked_values_stay_beside()
    ensures later { (e : Elision) (s t : State) (j : Intrinsic) (result : Option ℕ) (must_tail : Bool)
        (ty : Option Ty) (args : List Arg) → AreElided e s t → StandsInFront e s t
        → IsAtAsking e s t j result must_tail ty args
        → AreElided e (framed_step (framed e) s) (framed_step (elided e) t) }
    ensures first { (e : Elision) (s t : State) (n : ℕ) (j : Intrinsic) (result : Option ℕ) (must_tail : Bool)
        (ty : Option Ty) (args : List Arg) (r : AreElided e s (with_at t n)) → HasMadeAll e s (with_at t n) r
        → IsAtAsking e s t j result must_tail ty args
        → AreElided e (framed_step (framed e) s) (framed_step (elided e) t) }
{}

/// Where a resumed activation executes its allocas again, both runs go on from one to the next. The coroutine gives no
/// frames.
pub fn allocas_again_stay_beside()
    ensures { (e : Elision) (s t : State) (name : ℕ) (ty : Ty) (align from label : ℕ) (next : Point)
        → AreElided e s t → StandsInFront e s t → IsAtAllocaAgain e s t name ty align from label next
        → AreElided e (framed_step (framed e) s) (framed_step (elided e) t) }
{}

/// Where a resumed activation executes the last of its allocas, both runs enter the same label behind it. The label's
/// phis take what is alike.
pub fn last_allocas_stay_beside()
    ensures { (e : Elision) (s t : State) (name : ℕ) (ty : Ty) (align from label : ℕ) → AreElided e s t
        → StandsInFront e s t → IsAtLastAlloca e s t name ty align from label
        → AreElided e (framed_step (framed e) s) (framed_step (elided e) t) }
{}

/// In the worked runs the coroutine's ramp stands at such an alloca, given its frame in one run and not in the other.
#[tactic(none)]
pub fn worked_allocas_are_made()
    ensures { IsAtAlloca the_elision (before 1) (after 2) 24 (int 32) 4 }
{}
