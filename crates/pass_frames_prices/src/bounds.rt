//! How much is woven in: bounds of the code of a framed form, by numbers of the coroutine with blocks on edges.

ghost use Rattle.std.specs.Prelude.{◌≡◌, ◌≢◌, ◌≤◌, ◌+◌, ◌*◌, ℕ, Bool, [], None, Option, Some, false, length, slice_get, true};
ghost use Rattle.pass_frames_proof.specs.ir_model.declared.instr.Instr.{Instr};
ghost use Rattle.pass_frames_proof.specs.ir_model.declared.module.Block.{Block};
ghost use Rattle.pass_frames_proof.specs.ir_model.declared.module.Function.{Function};
ghost use Rattle.pass_frames_proof.specs.ir_parts.Contents.{instr_operands};
ghost use Rattle.pass_frames_proof.specs.ir_paths.declared.point.Point.{Point};
ghost use Rattle.pass_frames_proof.specs.pass_cells.Written.{row_at};
ghost use Rattle.pass_frames_proof.specs.pass_edges.EdgeBlocks.{with_edge_blocks};
ghost use Rattle.pass_frames_prices.specs.Bounds.{behind_of, more_of};
ghost use Rattle.pass_frames_proof.specs.Code.{front_code};
ghost use Rattle.pass_frames_proof.specs.Costs.{allocas_before, call_cost, instr_cost, jump_cost, slot_cost, whole};
ghost use Rattle.pass_frames_proof.specs.Framings.{IsFraming};
ghost use Rattle.pass_frames_proof.specs.Meaning.{behind_at, own_cost};
ghost use Rattle.pass_frames_prices.specs.Numbers.{allocas_of_blocks, allocas_of_instrs, distances_of, gep_names_of, names_of, phis_of_blocks};
ghost use Rattle.pass_frames_proof.specs.Passes.{block_at};
ghost use Rattle.pass_frames_proof.specs.Phis.{IsOrdinaryBlock};
ghost use Rattle.pass_frames_proof.specs.Places.{Framing, copies, edged, fetched, instrs_at, is_return, place, plan};
ghost use Rattle.pass_frames_proof.specs.pass_renewed_proof.Prices.{slots_in};
ghost use Rattle.pass_frames_proof.specs.pass_renewed_proof.Renewed.{renewed_in};

/// A suspend has no more values that cross it than are kept.
pub fn rows_are_short()
    ensures { (x : Framing) → IsFraming x → (o : Option ℕ) → length (row_at (plan x).rows o) ≤ length (plan x).kept }
{}

/// From the place of an instruction to that of the next one it takes a step for the instruction, one for each operand,
/// one for its result, and what else is put in around it. Not much more stands in front of it or behind it.
pub fn instructions_take_few_steps()
    ensures cost { (x : Framing) → IsFraming x → (p : Point) (i : Instr)
        → slice_get (instrs_at x p.block) p.at ≡ Some i
        → instr_cost x p ≤ 2 + length (instr_operands i) + more_of x i }
    ensures own { (x : Framing) → IsFraming x → (p : Point) (i : Instr)
        → slice_get (instrs_at x p.block) p.at ≡ Some i → is_return x p.block ≡ false
        → own_cost x p ≤ 3 + length (instr_operands i) + more_of x i }
    ensures behind { (x : Framing) → IsFraming x → (p : Point) (i : Instr)
        → slice_get (instrs_at x p.block) p.at ≡ Some i → behind_at x p.block (p.at + 1) ≤ 1 + behind_of x i }
{}

/// Kept values are names of the coroutine, and so are allocas, of which none is kept.
pub fn kept_values_are_names()
    ensures { (x : Framing) → IsFraming x
        → length (plan x).kept + allocas_of_blocks (edged x).blocks ≤ names_of (edged x) }
{}

/// Values of which distances are kept, and links, are getelementptrs, each another one.
pub fn distances_are_of_getelementptrs()
    ensures { (x : Framing) → IsFraming x
        → distances_of (plan x).kept + (plan x).links ≤ length (gep_names_of (edged x).blocks) }
{}

/// Behind the last instruction of a block, with its terminator, stand at most three instructions and two for each phi.
pub fn ends_take_few_steps()
    ensures { (x : Framing) → IsFraming x → (k : ℕ) → slice_get (edged x).blocks k ≡ Some (block_at (edged x) k)
        → is_return x k ≡ false → whole x k ≤ (place x (record { block = k; at = length (instrs_at x k) })).at
        + (2 * phis_of_blocks (edged x).blocks + 3) }
{}

/// Slots that are used before begin are allocas of the entry, each another one.
pub fn early_slots_are_allocas()
    ensures { (x : Framing) → IsFraming x → length (copies x).slots ≤ allocas_of_instrs (instrs_at x 0) }
{}

/// In front of the entry of a framed form stand no more allocas than those of the coroutine's entry, two for each kept
/// value and each slot that is used before begin, and one for each distance and link.
pub fn allocas_in_front_are_few()
    ensures { (x : Framing) → slice_get (edged x).blocks 0 ≡ Some (block_at (edged x) 0)
        → allocas_before x None
        ≤ 2 * length (plan x).kept + distances_of (plan x).kept + (plan x).links + 2 * length (copies x).slots
        + allocas_of_instrs (instrs_at x 0) }
{}

/// In front of a block that isn't the entry stand at most three instructions for each kept value, two for each
/// distance and each slot that is used before begin, and one for each phi.
pub fn fronts_are_short()
    ensures { (x : Framing) → IsFraming x → (k : ℕ) → k ≢ 0
        → length (front_code x k) ≤ 2 * length (copies x).slots
        + (3 * length (plan x).kept + 2 * distances_of (plan x).kept + length (block_at (fetched x) k).phis) }
{}

/// A block that is no entry and to which no resume or destroy edge leads is an ordinary one. So its first place is
/// behind its phis' stores.
pub fn other_blocks_are_ordinary()
    ensures is { (x : Framing) → IsFraming x → (k : ℕ) → slice_get (edged x).blocks k ≡ Some (block_at (edged x) k)
        → is_return x k ≡ false → k ≢ 0 → IsOrdinaryBlock x k }
    ensures place { (x : Framing) → IsFraming x → (k : ℕ) → slice_get (edged x).blocks k ≡ Some (block_at (edged x) k)
        → is_return x k ≡ false → k ≢ 0
        → (place x (record { block = k; at = 0 })).at ≤ length (block_at (fetched x) k).phis }
{}

/// A call of a ramp executes all allocas first, and then a store for each slot that is used before begin, for each
/// parameter and for each phi of the entry.
pub fn calls_are_short()
    ensures { (x : Framing) → IsFraming x → slice_get (edged x).blocks 0 ≡ Some (block_at (edged x) 0)
        → is_return x 0 ≡ false → call_cost x
        ≤ 2 * length (plan x).kept + distances_of (plan x).kept + (plan x).links + 2 * length (copies x).slots
        + allocas_of_instrs (instrs_at x 0)
        + (length (copies x).slots + (length (edged x).params + length (block_at (fetched x) 0).phis)) }
{}

/// By the names of a coroutine with blocks on edges: allocas in front of the entry, what a call of the ramp executes
/// there, and the front of another block with what is fetched for phis at its end.
pub fn costs_are_bounded_by_names()
    ensures allocas { (x : Framing) → IsFraming x → slice_get (edged x).blocks 0 ≡ Some (block_at (edged x) 0)
        → allocas_before x None ≤ 3 * names_of (edged x) }
    ensures call { (x : Framing) → IsFraming x → slice_get (edged x).blocks 0 ≡ Some (block_at (edged x) 0)
        → is_return x 0 ≡ false → call_cost x ≤ 4 * names_of (edged x) }
    ensures front { (x : Framing) → IsFraming x → (k : ℕ) → k ≢ 0
        → length (front_code x k) + 2 * phis_of_blocks (edged x).blocks
        ≤ 5 * names_of (edged x) + length (block_at (edged x) k).phis }
{}

/// A jump to a block that isn't the entry takes at most three steps, two for each phi, and one for each phi of that
/// block. One from a block on a resume or destroy edge also executes that block's front.
pub fn jumps_take_few_steps()
    ensures others { (x : Framing) → IsFraming x → (target : ℕ)
        → slice_get (edged x).blocks target ≡ Some (block_at (edged x) target) → target ≢ 0
        → (k : ℕ) → slice_get (edged x).blocks k ≡ Some (block_at (edged x) k) → is_return x k ≡ false
        → jump_cost x k target
        ≤ 3 + 2 * phis_of_blocks (edged x).blocks + length (block_at (edged x) target).phis }
    ensures returns { (x : Framing) → IsFraming x → (target : ℕ)
        → slice_get (edged x).blocks target ≡ Some (block_at (edged x) target) → target ≢ 0
        → (k : ℕ) → slice_get (edged x).blocks k ≡ Some (block_at (edged x) k) → is_return x k ≡ true → k ≢ 0
        → instrs_at x k ≡ [] → jump_cost x k target
        ≤ 3 + 5 * names_of (edged x) + length (block_at (edged x) k).phis
        + length (block_at (edged x) target).phis }
{}

/// Four times a name, an operand and one pay for what an instruction becomes. What stands behind a call fits beside
/// the end of a block. Where no instruction stands nothing costs a step.
pub fn names_pay_for_instructions()
    ensures cost { (x : Framing) → IsFraming x → (p : Point) (i : Instr)
        → slice_get (instrs_at x p.block) p.at ≡ Some i
        → instr_cost x p ≤ 4 * (1 + names_of (edged x) + length (instr_operands i)) }
    ensures behind { (x : Framing) → IsFraming x → (p : Point) (i : Instr)
        → slice_get (instrs_at x p.block) p.at ≡ Some i
        → behind_at x p.block (p.at + 1) + 2 * phis_of_blocks (edged x).blocks
        ≤ 1 + 4 * names_of (edged x) + 3 * length (instr_operands i) }
    ensures none { (x : Framing) (p : Point) → slice_get (instrs_at x p.block) p.at ≡ None → instr_cost x p ≡ 0 }
    ensures none_behind { (x : Framing) (p : Point) → slice_get (instrs_at x p.block) p.at ≡ None
        → behind_at x p.block (p.at + 1) ≡ 0 }
    ensures first_behind { (x : Framing) (block : ℕ) → behind_at x block 0 ≡ 0 }
{}

/// With blocks on its edges a function has as many names.
pub fn edges_have_no_names()
    ensures { (f : Function) → names_of (with_edge_blocks f) ≡ names_of f }
{}

/// The allocas before the first slot that is made anew, and what all these slots cost, are no more than all allocas in
/// front of the entry.
pub fn slots_are_paid_by_allocas()
    ensures { (x : Framing) → slice_get (edged x).blocks 0 ≡ Some (block_at (edged x) 0)
        → (flags : ℕ → Bool) (b : Block)
        → allocas_before x (renewed_in flags (Some b) 0)
        + slots_in (λ k. slot_cost x k (renewed_in flags (Some b) (k + 1))) flags (Some b) ≤ allocas_before x None }
{}

/// No resume or destroy edge leads to the entry of a coroutine.
pub fn entries_are_no_returns()
    ensures { (x : Framing) → IsFraming x → slice_get (edged x).blocks 0 ≡ Some (block_at (edged x) 0)
        → is_return x 0 ≡ false }
{}
