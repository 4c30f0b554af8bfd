//! Steps of the framed run for which the other one waits.

ghost use Rattle.std.specs.Prelude.{Bool, List, Option, ℕ};
ghost use Rattle.pass_elide_proof.specs.Allocating.{IsAtAllocation};
ghost use Rattle.pass_elide_proof.specs.Elision.{Elision, framed};
ghost use Rattle.pass_elide_proof.specs.Match.{AreElided};
ghost use Rattle.pass_elide_proof.specs.Sizes.{IsAtMade, IsAtSize};
ghost use Rattle.pass_proofs.specs.ir_model.Ty.{Ty};
ghost use Rattle.pass_proofs.specs.ir_model.declared.operand.Allocator.{Allocator};
ghost use Rattle.pass_proofs.specs.ir_model.declared.operand.Arg.{Arg};
ghost use Rattle.pass_proofs.specs.ir_model.declared.operand.Intrinsic.{Intrinsic};
ghost use Rattle.pass_proofs.specs.run_framed.Framed.{framed_step};
ghost use Rattle.pass_proofs.specs.run_memory.declared.pointer.Value.{Value};
ghost use Rattle.pass_proofs.specs.run_source.declared.state.State.{State};

/// While the framed run asks for the frame's size in the block that allocates, the given ramp waits at its branch.
pub fn sizes_are_waited_for()
    ensures { (e : Elision) (s t : State) (i : Intrinsic) (result : Option ℕ) (must_tail : Bool) (ty : Option Ty)
        (args : List Arg) → AreElided e s t → IsAtSize e s t i result must_tail ty args
        → AreElided e (framed_step (framed e) s) t }
{}

/// So it does while the framed run sets any other name of what is made there, such as a kept value that is loaded.
pub fn made_values_are_waited_for()
    ensures { (e : Elision) (s t : State) (result : Option ℕ) (w : Value) → AreElided e s t
        → IsAtMade e s t result w → AreElided e (framed_step (framed e) s) t }
{}

/// So it does while the framed run allocates the frame. The block is hidden, and counted as one that begins later.
pub fn allocations_are_waited_for()
    ensures { (e : Elision) (s t : State) (a : Allocator) (result : ℕ) (must_tail : Bool) (ty : Option Ty)
        (args : List Arg) → AreElided e s t → IsAtAllocation e s t a result must_tail ty args
        → AreElided e (framed_step (framed e) s) t }
{}
