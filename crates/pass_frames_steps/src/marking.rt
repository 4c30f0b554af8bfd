//! Lifetime markers. The framed form hasn't those of slots that lie in a frame: the framed run takes no step.

ghost use Rattle.std.specs.Prelude.{◌≡◌, ℕ, Bool, Option, false, true};
ghost use Rattle.pass_frames_code.specs.ir_model.Ty.{Ty};
ghost use Rattle.pass_frames_code.specs.ir_model.declared.operand.Arg.{Arg};
ghost use Rattle.pass_frames_code.specs.Followed.{IsFollowed};
ghost use Rattle.pass_frames_code.specs.Marking.{
  IsAtMarker,
  IsAtOtherMarker,
  IsBeforeBegin,
  IsBehindBegin,
  IsEarlyMarked,
  IsKeptMarker,
  IsUnmarked,
  IsWholeMarked,
  marking,
};
ghost use Rattle.pass_frames_code.specs.Related.{AreBuiltOf, Building};
ghost use Rattle.pass_frames_code.specs.Slotted.{HasListedSlots, HasSlotsApart};
ghost use Rattle.pass_frames_code.specs.Stepping.{AreGiven};
ghost use Rattle.pass_frames_code.specs.pass_renewed_proof.Renewed.{RenewedGiven};
ghost use Rattle.pass_frames_code.specs.run_memory.declared.pointer.Value.{Value};
ghost use Rattle.pass_frames_code.specs.run_source.declared.state.State.{State};
ghost use Rattle.pass_frames_code.specs.run_step.Values.{value_in};
ghost use Rattle.pass_frames_code.specs.run_step.declared.world.Slot.{Slot};

/// A marker of a slot that is made anew does nothing in the source either. Any other one starts or ends a block that is
/// hidden before begin, or stands in its temporary, and that stands in the frame behind it, apart from all others that
/// live there.
pub fn markers_of_slots_are_followed()
    ensures anew { (b : Building) (g : RenewedGiven) → AreGiven b g → (s t : State) → AreBuiltOf b s t
        → (starts must_tail : Bool) (ty : Option Ty) (size : Arg) (u : Ty) (slot : ℕ)
        → IsAtMarker b s starts must_tail ty size u slot → IsUnmarked b s (marking starts must_tail ty size u slot)
        → g.flags s.top.func slot ≡ true → IsFollowed b g s t }
    ensures none { (b : Building) (g : RenewedGiven) → AreGiven b g → (s t : State) → AreBuiltOf b s t
        → (starts must_tail : Bool) (ty : Option Ty) (size : Arg) (u : Ty) (slot : ℕ)
        → IsAtMarker b s starts must_tail ty size u slot → IsUnmarked b s (marking starts must_tail ty size u slot)
        → g.flags s.top.func slot ≡ false → value_in s.top.values slot ≡ Value.Poison → IsFollowed b g s t }
    ensures before { (b : Building) (g : RenewedGiven) → AreGiven b g → (s t : State) → AreBuiltOf b s t
        → (starts must_tail : Bool) (ty : Option Ty) (size : Arg) (u : Ty) (slot : ℕ)
        → IsAtMarker b s starts must_tail ty size u slot → IsUnmarked b s (marking starts must_tail ty size u slot)
        → g.flags s.top.func slot ≡ false → IsBeforeBegin b s slot → IsFollowed b g s t }
    ensures early { (b : Building) (g : RenewedGiven) → AreGiven b g → (s t : State) → (r : AreBuiltOf b s t)
        → (starts must_tail : Bool) (ty : Option Ty) (size : Arg) (u : Ty) (slot : ℕ)
        → IsAtMarker b s starts must_tail ty size u slot → IsUnmarked b s (marking starts must_tail ty size u slot)
        → g.flags s.top.func slot ≡ false → IsEarlyMarked b s t r slot → IsFollowed b g s t }
    ensures behind { (b : Building) (g : RenewedGiven) → AreGiven b g → (s t : State) → AreBuiltOf b s t
        → (starts must_tail : Bool) (ty : Option Ty) (size : Arg) (u : Ty) (slot : ℕ)
        → IsAtMarker b s starts must_tail ty size u slot → IsUnmarked b s (marking starts must_tail ty size u slot)
        → g.flags s.top.func slot ≡ false → HasListedSlots s → HasSlotsApart t → IsBehindBegin b s slot starts
        → IsFollowed b g s t }
{}

/// A marker of a slot that lies in no frame is executed in both runs: in a function that is no coroutine, and of a ramp
/// slot. It starts or ends the slot's block in both, which stands whole in the target's.
pub fn markers_that_stay_are_followed()
    ensures other { (b : Building) (g : RenewedGiven) → AreGiven b g → (s t : State) → AreBuiltOf b s t
        → (starts must_tail : Bool) (ty : Option Ty) (size : Arg) (u : Ty) (name : ℕ)
        → IsAtOtherMarker b g s starts must_tail ty size u name → HasListedSlots s
        → (slot : Slot) → IsWholeMarked b s name slot → IsFollowed b g s t }
    ensures ramp { (b : Building) (g : RenewedGiven) → AreGiven b g → (s t : State) → AreBuiltOf b s t
        → (starts must_tail : Bool) (ty : Option Ty) (size : Arg) (u : Ty) (name : ℕ)
        → IsAtMarker b s starts must_tail ty size u name → IsKeptMarker b s (marking starts must_tail ty size u name) name
        → g.flags s.top.func name ≡ false → HasListedSlots s → (slot : Slot) → IsWholeMarked b s name slot
        → IsFollowed b g s t }
{}
