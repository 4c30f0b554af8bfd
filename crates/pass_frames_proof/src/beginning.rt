//! Begin in the framed run: the frame comes to lie in its block, and the slots of the coroutine in the frame.

ghost use Rattle.std.specs.Prelude.{ℕ, Bool, Option};
ghost use Rattle.pass_frames_steps.specs.ir_model.Ty.{Ty};
ghost use Rattle.pass_frames_steps.specs.ir_model.declared.operand.Arg.{Arg};
ghost use Rattle.pass_frames_steps.specs.ir_model.declared.operand.Operand.{Operand};
ghost use Rattle.pass_frames_steps.specs.Beginning.{HasLiveTemporaries, HasPlainSlots, IsAtBegin};
ghost use Rattle.pass_frames_steps.specs.Followed.{IsFollowed};
ghost use Rattle.pass_frames_steps.specs.Related.{AreBuiltOf, Building};
ghost use Rattle.pass_frames_steps.specs.Slotted.{HasListedSlots, HasSlotsApart, HasSlotsThere};
ghost use Rattle.pass_frames_steps.specs.Stepping.{AreGiven};
ghost use Rattle.pass_frames_steps.specs.Temporaries.{HasLedSlots};
ghost use Rattle.pass_frames_steps.specs.pass_renewed_proof.Renewed.{RenewedGiven};
ghost use Rattle.pass_frames_steps.specs.run_source.declared.state.State.{State};

/// Both runs begin at the start of one block. What the target may reach of it becomes less, and the source owns it.
/// Slots of the frame were hidden, and stand behind begin in their fields. Those that are used before begin stood in
/// temporaries: right behind begin the framed run copies them to their fields. The memory may be kept in a cell.
pub fn begins_are_followed()
    ensures { (b : Building) (g : RenewedGiven) → AreGiven b g → (s t : State) → AreBuiltOf b s t
        → (result : Option ℕ) (must_tail : Bool) (ty : Option Ty) (id : Arg) (u : Ty) (memory : Operand)
        (block : ℕ) → IsAtBegin b g s result must_tail ty id u memory block → HasListedSlots s → HasSlotsThere s
        → HasPlainSlots b t → HasSlotsApart t → HasLedSlots t → HasLiveTemporaries b t → IsFollowed b g s t }
{}
