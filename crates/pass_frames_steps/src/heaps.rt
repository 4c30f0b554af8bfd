//! Allocations and deallocations: a block of an allocator is made in both runs, or dies in both, and with its frame an
//! instance is let go.

ghost use Rattle.std.specs.Prelude.{◌≡◌, ℕ, Bool, List, Ok, Option};
ghost use Rattle.pass_frames_code.specs.ir_base.declared.outcome.Word.{Word};
ghost use Rattle.pass_frames_code.specs.ir_model.Ty.{Ty};
ghost use Rattle.pass_frames_code.specs.ir_model.declared.operand.Allocator.{Allocator};
ghost use Rattle.pass_frames_code.specs.ir_model.declared.operand.Arg.{Arg};
ghost use Rattle.pass_frames_code.specs.Followed.{IsFollowed};
ghost use Rattle.pass_frames_code.specs.Heaps.{IsAtFree, IsAtMaking, IsAtOtherFree, IsAtOtherMaking, IsGivenBack, IsGivingBack, MayMake};
ghost use Rattle.pass_frames_code.specs.Related.{AreBuiltOf, Building};
ghost use Rattle.pass_frames_code.specs.Stepping.{AreGiven};
ghost use Rattle.pass_frames_code.specs.pass_renewed_proof.Renewed.{RenewedGiven};
ghost use Rattle.pass_frames_code.specs.run_laws.memory.Pointers.{IsValue};
ghost use Rattle.pass_frames_code.specs.run_memory.declared.pointer.Value.{Value};
ghost use Rattle.pass_frames_code.specs.run_source.Source.{deallocate};
ghost use Rattle.pass_frames_code.specs.run_source.declared.state.State.{State};

/// A block that the first run gives back is given back by the framed run too, wherever it is on a line. Where an
/// instance is let go with it, so is the one beside it.
pub fn blocks_are_given_back()
    ensures { (b : Building) (g : RenewedGiven) → AreGiven b g → (s t : State) (r : AreBuiltOf b s t) (p q : Value)
        → IsValue r.homes p q → IsGivingBack b s t r p → (after : State) → deallocate s p ≡ Ok after
        → IsGivenBack b s t after q }
{}

/// So a call that gives a block back is followed: in a coroutine, where its operands are fetched, and in a function
/// that is no coroutine.
pub fn deallocations_are_followed()
    ensures coroutine { (b : Building) (g : RenewedGiven) → AreGiven b g → (s t : State) (r : AreBuiltOf b s t)
        (a : Allocator) (must_tail : Bool) (ty : Option Ty) (args : List Arg) (after : State)
        → IsAtFree b g s t r a must_tail ty args after → IsFollowed b g s t }
    ensures other { (b : Building) (g : RenewedGiven) → AreGiven b g → (s t : State) (r : AreBuiltOf b s t)
        (a : Allocator) (must_tail : Bool) (ty : Option Ty) (args : List Arg) (after : State)
        → IsAtOtherFree b g s t r a must_tail ty args after → IsFollowed b g s t }
{}

/// Both runs make a block of an allocator, whose address stands for the first run's. It stands alone in the framed run's.
/// So a call of an allocator is followed: in a coroutine, and in a function that is no coroutine.
pub fn allocations_are_followed()
    ensures coroutine { (b : Building) (g : RenewedGiven) → AreGiven b g → (s t : State) → AreBuiltOf b s t
        → MayMake b s t → (a : Allocator) (result : Option ℕ) (must_tail : Bool) (ty : Option Ty) (args : List Arg)
        (n : Word) → IsAtMaking b g s a result must_tail ty args n → IsFollowed b g s t }
    ensures other { (b : Building) (g : RenewedGiven) → AreGiven b g → (s t : State) → AreBuiltOf b s t
        → MayMake b s t → (a : Allocator) (result : Option ℕ) (must_tail : Bool) (ty : Option Ty) (args : List Arg)
        (n : Word) → IsAtOtherMaking b g s a result must_tail ty args n → IsFollowed b g s t }
{}
