//! Slots that a woken coroutine makes anew, one after another, until it enters the block on the edge.

ghost use Rattle.std.specs.Prelude.{◌≡◌, ℕ, List};
ghost use Rattle.pass_frames_steps.specs.ir_model.Ty.{Ty};
ghost use Rattle.pass_frames_steps.specs.ir_model.declared.instr.Instr.{Instr};
ghost use Rattle.pass_frames_steps.specs.Anew.{HasCellsMade, HasNextAnew, HasNoneLeft, IsAtAnew, MakesLine};
ghost use Rattle.pass_frames_steps.specs.Entering.{behind_allocas};
ghost use Rattle.pass_frames_steps.specs.Followed.{IsFollowed};
ghost use Rattle.pass_frames_steps.specs.Related.{AreBuiltOf, Building};
ghost use Rattle.pass_frames_steps.specs.Slotted.{HasSlotsThere};
ghost use Rattle.pass_frames_steps.specs.Stepping.{AreGiven};
ghost use Rattle.pass_frames_steps.specs.pass_renewed_proof.Renewed.{RenewedGiven};
ghost use Rattle.pass_frames_steps.specs.run_source.declared.state.State.{State};

/// A slot is made anew in both runs. The framed run also makes the allocas up to the next such slot, or all that are
/// left. Then the block on the edge is entered: fields are right, and all cells are there.
pub fn slots_made_anew_are_followed()
    ensures next { (b : Building) (g : RenewedGiven) → AreGiven b g → (s t : State) → AreBuiltOf b s t → (name : ℕ)
        (ty : Ty) (align from label order : ℕ) → IsAtAnew b g s name ty align from label order → HasSlotsThere s
        → HasSlotsThere t → HasNextAnew b g s name → IsFollowed b g s t }
    ensures last { (b : Building) (g : RenewedGiven) → AreGiven b g → (s t : State) → AreBuiltOf b s t → (name : ℕ)
        (ty : Ty) (align from label order : ℕ) → IsAtAnew b g s name ty align from label order → HasSlotsThere s
        → HasSlotsThere t → HasNoneLeft b g s name label order → HasCellsMade b t → IsFollowed b g s t }
{}

/// Where none of them is made yet, and behind any of them that is executed, each alloca that was made without markers
/// gives a cell of its type.
pub fn cells_are_made_on_the_way()
    ensures first { (b : Building) (t : State) → t.top.at ≡ 0 → HasCellsMade b t }
    ensures on { (b : Building) (t : State) (is : List Instr) → MakesLine b t is → HasCellsMade b t
        → HasCellsMade b (behind_allocas b.given t is) }
{}
