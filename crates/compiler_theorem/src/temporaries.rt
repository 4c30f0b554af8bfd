//! What laws on slots of framed runs ask holds of the framed forms of accepted sources.

ghost use Rattle.std.specs.Prelude.{◌≡◌, ℕ, true};
ghost use Rattle.compiler_theorem.specs.known.Temporaries.{AreLiveTemporaries};
ghost use Rattle.compiler_theorem.specs.theorem.Anew.{Anew, IsAnewOf};
ghost use Rattle.compiler_theorem.specs.theorem.Asked.{asking};
ghost use Rattle.compiler_theorem.specs.theorem.Built.{building};
ghost use Rattle.compiler_theorem.specs.theorem.Entries.{IsEntryCall, Run};
ghost use Rattle.compiler_theorem.specs.theorem.Lowered.{HasFewBytes, IsLowered, Lowered, early};
ghost use Rattle.compiler.specs.ir_base.declared.outcome.Outcome.{Outcome};
ghost use Rattle.pass_frames_meaning.specs.Owned.{KeepAllOwnRules};
ghost use Rattle.pass_frames_meaning.specs.pass_frames_proof.Beginning.{HasLiveTemporaries};
ghost use Rattle.pass_frames_meaning.specs.pass_frames_proof.Temporaries.{HasLedSlots};
ghost use Rattle.compiler.specs.run_framed.Framed.{framed_state_at};

/// Allocas of the framed form stand in entry blocks, to which no edge leads, and give their names alone.
pub fn allocas_of_framed_forms_are_made_once()
    ensures { (l : Lowered) → IsLowered l → KeepAllOwnRules l.framed (λ func. true) }
{}

/// So the name of each slot that an activation made before begin leads to it, in each state of the framed run.
pub fn names_of_slots_of_framed_forms_lead_to_them()
    ensures { (l : Lowered) (low : IsLowered l) (a : Anew) → IsAnewOf (early l) a → (r : Run)
        → IsEntryCall l.source r → (n : ℕ)
        → (framed_state_at (building l low.is_framed r.answers).given r.entry r.args n).outcome ≡ Outcome.Running
        → HasLedSlots (framed_state_at (building l low.is_framed r.answers).given r.entry r.args n) }
{}

/// No marker of a framed form names a temporary. So its block is a live slot, as large and as aligned as its slot.
pub fn temporaries_of_framed_forms_live()
    ensures live { (l : Lowered) (low : IsLowered l) → HasFewBytes l → (a : Anew) → IsAnewOf (early l) a → (r : Run)
        → IsEntryCall l.source r → (n : ℕ)
        → (framed_state_at (building l low.is_framed r.answers).given r.entry r.args n).outcome ≡ Outcome.Running
        → HasLiveTemporaries (asking l low a r).b
        (framed_state_at (building l low.is_framed r.answers).given r.entry r.args n) }
    ensures kinds { (l : Lowered) (low : IsLowered l) → HasFewBytes l → (a : Anew) → IsAnewOf (early l) a → (r : Run)
        → IsEntryCall l.source r → (n : ℕ)
        → (framed_state_at (building l low.is_framed r.answers).given r.entry r.args n).outcome ≡ Outcome.Running
        → AreLiveTemporaries (asking l low a r).b
        (framed_state_at (building l low.is_framed r.answers).given r.entry r.args n) }
{}
