//! The passes that build frames make each block instruction by instruction, and so do they in a row.

ghost use Rattle.std.specs.Prelude.{◌≡◌, ◌≢◌, ℕ, Bool, true, false, List, Option, slice_get, Some};
ghost use Rattle.pass_proofs.specs.frame_layout.declared.layout.Layout.{Layout};
ghost use Rattle.pass_proofs.specs.ir_model.declared.instr.Instr.{Instr};
ghost use Rattle.pass_proofs.specs.ir_model.declared.instr.Terminator.{Terminator};
ghost use Rattle.pass_proofs.specs.ir_model.declared.module.Block.{Block};
ghost use Rattle.pass_proofs.specs.ir_parts.Contents.{instr_operands};
ghost use Rattle.pass_proofs.specs.ir_model.declared.module.Function.{Function};
ghost use Rattle.pass_proofs.specs.ir_model.declared.module.Module.{Module};
ghost use Rattle.pass_proofs.specs.pass_addresses.Placing.{with_frame_addresses, without_markers, without_promise};
ghost use Rattle.pass_proofs.specs.pass_cells.Cells.{written_function};
ghost use Rattle.pass_proofs.specs.pass_cells.Written.{entry_front as cells_front};
ghost use Rattle.pass_proofs.specs.pass_cells.declared.plan.Plan.{Plan};
ghost use Rattle.pass_proofs.specs.pass_copies.BeginCopies.{copied_function, entry_front as copies_front, first_fetched};
ghost use Rattle.pass_proofs.specs.pass_copies.Uses.{is_begin};
ghost use Rattle.pass_proofs.specs.pass_copies.declared.copying.Copying.{Copying};
ghost use Rattle.pass_proofs.specs.pass_fetch.Blocks.{with_fetches};
ghost use Rattle.pass_proofs.specs.pass_fetch.declared.fetch.Fetch.{Fetch};
ghost use Rattle.pass_proofs.specs.pass_frames.Framed.{IsFramedCoroutine};
ghost use Rattle.pass_frames_code.specs.Code.{ArePartsLeft, code_of, end_code, end_term, front_code, last_state};
ghost use Rattle.pass_frames_code.specs.Framings.{IsFraming};
ghost use Rattle.pass_frames_code.specs.Layers.{IsIdle, becomes, both, each, only, state_at};
ghost use Rattle.pass_frames_code.specs.Passes.{IsBlockMade, IsUnwritten, addressed_at, copying, copying_at, fetching, fetching_at, unmarked_at, writing, writing_at};
ghost use Rattle.pass_proofs.specs.fetch.rules.Fetches.{AreUnfetched};
ghost use Rattle.pass_frames_code.specs.Places.{Framing, Placed, edged, entry_layer, framed, framing_of, instrs_at, placed_layer};

/// Fetches, stores into cells, copies at begin and addresses in frames are made of each block by their layers.
pub fn passes_make_blocks()
    ensures fetches { (f : Function) (t : List (Option Fetch)) (word : List ℕ) (k : ℕ)
        → IsBlockMade (fetching_at f t k) f (with_fetches f t word) k }
    ensures cells { (m : Module) (p : Plan) (f : Function) (k : ℕ)
        → IsBlockMade (writing_at m p (cells_front p f.params) f k) f (written_function m p f) k }
    ensures copies { (f : Function) (before : List Bool) (c : Copying) (k : ℕ)
        → IsBlockMade (copying_at c before (copies_front c.slots) (first_fetched f c) f k) f
        (copied_function f before c) k }
    ensures addresses { (f : Function) (begin : ℕ) (offsets : List (Option ℕ)) (marked : List Bool) (k : ℕ)
        → IsBlockMade
        (both (unmarked_at marked) (addressed_at (without_promise (without_markers marked f)) begin offsets k)) f
        (with_frame_addresses f begin offsets marked) k }
{}

/// The framed form of a coroutine is made of the coroutine with blocks on edges by the layers in a row, the entry
/// with
/// its allocas in front.
pub fn framed_blocks_are_made()
    ensures is { (m : Module) (l : Layout) (f g : Function) (c : IsFramedCoroutine m l f g)
        → g ≡ framed (framing_of m l f g c) }
    ensures entry { (x : Framing) → IsBlockMade (entry_layer x) (edged x) (framed x) 0 }
    ensures others { (x : Framing) (k : ℕ) → k ≢ 0 → IsBlockMade (placed_layer x k) (edged x) (framed x) k }
{}

/// A pass leaves an instruction as it is: fetches and copies, if they fetch none of its operands; stores, if it isn't
/// kept; tests that it passes.
pub fn passes_leave_instructions()
    ensures fetches { (t : List (Option Fetch)) (ends : List Instr) (first : ℕ) (b : Block) (i : Instr)
        → AreUnfetched t (instr_operands i) → IsIdle (fetching t ends first b) i }
    ensures cells { (m : Module) (p : Plan) (front : List Instr) (first : ℕ) (b : Block) (i : Instr) → IsUnwritten p i
        → IsIdle (writing m p front first b) i }
    ensures copies { (c : Copying) (before : List Bool) (front : List Instr) (first : ℕ) (b : Block) (i : Instr)
        → is_begin i ≡ false → AreUnfetched c.fetches (instr_operands i) → IsIdle (copying c before front first b) i }
    ensures only { (test : Instr → Bool) (i : Instr) → test i ≡ true → IsIdle (only test) i }
    ensures each { (turned : Instr → Instr) (i : Instr) → turned i ≡ i → IsIdle (each turned) i }
{}

/// What an instruction becomes: loads of its operands, stores into fields at a save, addresses that it accesses, the
/// instruction itself, copies behind begin, and stores of its result.
pub fn instructions_become_their_parts()
    ensures { (x : Framing) (k : ℕ) (s : Placed) (i : Instr) → ArePartsLeft x k s i
        → becomes (placed_layer x k) s i ≡ code_of x k s i }
{}

/// In a coroutine whose frame may be built the later passes leave what the earlier ones put in. So each instruction
/// becomes its parts.
pub fn parts_are_left()
    ensures left { (x : Framing) → IsFraming x → (k at : ℕ) (i : Instr) → slice_get (instrs_at x k) at ≡ Some i
        → ArePartsLeft x k (state_at (placed_layer x k) (instrs_at x k) at) i }
    ensures code { (x : Framing) → IsFraming x → (k at : ℕ) (i : Instr) → slice_get (instrs_at x k) at ≡ Some i
        → becomes (placed_layer x k) (state_at (placed_layer x k) (instrs_at x k) at) i
        ≡ code_of x k (state_at (placed_layer x k) (instrs_at x k) at) i }
{}

/// Behind the last instruction of a block stand loads for phis and for the terminator, and addresses for both. The
/// terminator uses them. In front of the first one stands what the passes move there, with its addresses.
pub fn ends_become_their_parts()
    ensures back { (x : Framing) → IsFraming x → (k : ℕ)
        → (placed_layer x k).back (last_state x k) ≡ end_code x k (last_state x k) }
    ensures term { (x : Framing) → IsFraming x → (k : ℕ) (t : Terminator)
        → (placed_layer x k).term (last_state x k) t ≡ end_term x (last_state x k) t }
    ensures front { (x : Framing) → IsFraming x → (k : ℕ) → (placed_layer x k).front ≡ front_code x k }
{}
