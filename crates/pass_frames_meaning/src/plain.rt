//! Names that stand in the framed form as they are.

ghost use Rattle.std.specs.Prelude.{◌≡◌, ℕ, None, Some, slice_get};
ghost use Rattle.pass_frames_proof.specs.ir_model.declared.instr.Instr.{Instr};
ghost use Rattle.pass_frames_proof.specs.ir_parts.Contents.{result_of};
ghost use Rattle.pass_frames_proof.specs.pass_cells.Kept.{entry};
ghost use Rattle.pass_frames_meaning.specs.Plain.{IsNoAlloca, IsNoGep};
ghost use Rattle.pass_frames_proof.specs.Framings.{IsFraming};
ghost use Rattle.pass_frames_proof.specs.Ordinary.{IsPlainName};
ghost use Rattle.pass_frames_proof.specs.Places.{Framing, instrs_at, plan};

/// The result of an instruction that is no alloca is a name of the coroutine from which no distance goes on. It has no
/// distance of its own, if it is no getelementptr's.
pub fn results_have_plain_names()
    ensures names { (x : Framing) → IsFraming x → (k at : ℕ) (i : Instr) → slice_get (instrs_at x k) at ≡ Some i
        → (r : ℕ) → result_of i ≡ Some r → IsNoAlloca i → entry (plan x).cells r ≡ None → IsPlainName x r }
    ensures others { (x : Framing) → IsFraming x → (k at : ℕ) (i : Instr) → slice_get (instrs_at x k) at ≡ Some i
        → (r : ℕ) → result_of i ≡ Some r → IsNoGep i → entry (plan x).cells r ≡ None }
{}
