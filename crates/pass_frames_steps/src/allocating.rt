//! Allocas: of a ramp the framed run takes no step, since its call has made them; elsewhere both runs make a block.

ghost use Rattle.std.specs.Prelude.{◌≡◌, ◌⊎◌, ℕ, None};
ghost use Rattle.pass_frames_code.specs.ir_model.Ty.{Ty};
ghost use Rattle.pass_frames_code.specs.Allocating.{IsAtOtherAlloca, IsAtRampAlloca, IsEarlyAlloca, IsFrameBehind, IsLateAlloca, IsOwnBehind, IsWholeAlloca};
ghost use Rattle.pass_frames_code.specs.Followed.{IsFollowed};
ghost use Rattle.pass_frames_code.specs.Related.{AreBuiltOf, Building};
ghost use Rattle.pass_frames_code.specs.Slotted.{HasListedSlots, HasSlotsApart, HasSlotsThere};
ghost use Rattle.pass_frames_code.specs.Stepping.{AreGiven};
ghost use Rattle.pass_frames_code.specs.pass_renewed_proof.Renewed.{RenewedGiven};
ghost use Rattle.pass_frames_code.specs.run_source.declared.state.State.{State};

/// In a function that is no coroutine both runs make a block. Of a ramp the framed one has made it at its call, where
/// the slot lies in no frame. A slot of the frame is hidden before begin, where no access uses it, and stands in its
/// temporary, where one does. Behind begin it stands in the frame.
pub fn allocas_are_followed()
    ensures other { (b : Building) (g : RenewedGiven) → AreGiven b g → (s t : State) → AreBuiltOf b s t
        → (name : ℕ) (ty : Ty) (align : ℕ) → IsAtOtherAlloca b g s name ty align → HasSlotsThere s → HasSlotsThere t
        → IsFollowed b g s t }
    ensures whole { (b : Building) (g : RenewedGiven) → AreGiven b g → (s t : State) → AreBuiltOf b s t
        → (name : ℕ) (ty : Ty) (align : ℕ) → IsAtRampAlloca b g s name ty align → HasSlotsThere s
        → IsWholeAlloca b g s name ty → (s.top.instance ≡ None) ⊎ IsOwnBehind g s name → IsFollowed b g s t }
    ensures hidden { (b : Building) (g : RenewedGiven) → AreGiven b g → (s t : State) → AreBuiltOf b s t
        → (name : ℕ) (ty : Ty) (align : ℕ) → IsAtRampAlloca b g s name ty align → HasSlotsThere s
        → IsLateAlloca b s name → s.top.instance ≡ None → IsFollowed b g s t }
    ensures early { (b : Building) (g : RenewedGiven) → AreGiven b g → (s t : State) → AreBuiltOf b s t
        → (name : ℕ) (ty : Ty) (align : ℕ) → IsAtRampAlloca b g s name ty align → HasSlotsThere s
        → IsEarlyAlloca b g s name ty align → s.top.instance ≡ None → IsFollowed b g s t }
    ensures frame { (b : Building) (g : RenewedGiven) → AreGiven b g → (s t : State) → AreBuiltOf b s t
        → (name : ℕ) (ty : Ty) (align : ℕ) → IsAtRampAlloca b g s name ty align → HasSlotsThere s → HasListedSlots s
        → HasSlotsApart t → IsFrameBehind b g s name ty align → IsFollowed b g s t }
{}
