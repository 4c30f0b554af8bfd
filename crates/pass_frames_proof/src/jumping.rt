//! Jumps of a coroutine are followed: what its phis and the terminator need is fetched at the end of the block, and
//! phis are stored in front of the next one.

ghost use Rattle.std.specs.Prelude.{◌≡◌, ◌≢◌, ℕ, false, List, Some, length, slice_get};
ghost use Rattle.pass_frames_steps.specs.ir_model.Names.{block_labelled, position_of};
ghost use Rattle.pass_frames_steps.specs.ir_model.declared.module.Block.{Block};
ghost use Rattle.pass_frames_steps.specs.pass_cells.Cells.{fetches_of};
ghost use Rattle.pass_frames_steps.specs.pass_cells.Written.{stored_phis};
ghost use Rattle.pass_frames_steps.specs.pass_fetch.Instrs.{fetched_term};
ghost use Rattle.pass_frames_steps.specs.Code.{end_code, end_term, last_state, load_name};
ghost use Rattle.pass_frames_steps.specs.Framings.{IsFraming};
ghost use Rattle.pass_frames_steps.specs.Passes.{block_at};
ghost use Rattle.pass_frames_steps.specs.Phis.{IsOrdinaryBlock};
ghost use Rattle.pass_frames_steps.specs.Places.{Framing, edged, fetched, framed, is_return, plan, unmarked};
ghost use Rattle.pass_frames_steps.specs.ir_model.declared.instr.Instr.{Instr};
ghost use Rattle.pass_frames_steps.specs.ir_model.declared.instr.Terminator.{Terminator};
ghost use Rattle.pass_frames_steps.specs.Edges.{AreEndsLed, AreFrontsLed, ArePhisGiven, EndsInPlace, FrontsInPlace, IsAtJump, block_to};
ghost use Rattle.pass_frames_steps.specs.Leaving.{IsBranch, further};
ghost use Rattle.pass_frames_steps.specs.Jumps.{CanJump, EndsAt, MayGo, MayJump, PhisInPlace};
ghost use Rattle.pass_frames_steps.specs.run_framed.Framed.{framed_context};
ghost use Rattle.pass_frames_steps.specs.run_memory.declared.pointer.Value.{Value};
ghost use Rattle.pass_frames_steps.specs.run_source.State.{work_of};
ghost use Rattle.pass_frames_steps.specs.run_step.Step.{GoTo, label_of, term_action};
ghost use Rattle.pass_frames_steps.specs.Followed.{IsFollowed};
ghost use Rattle.pass_frames_steps.specs.Related.{AreBuiltOf, Building};
ghost use Rattle.pass_frames_steps.specs.Stepping.{AreGiven};
ghost use Rattle.pass_frames_steps.specs.pass_renewed_proof.Renewed.{RenewedGiven};
ghost use Rattle.pass_frames_steps.specs.run_source.declared.state.State.{State};

/// At the end of a block stands what fetches its phis' and its terminator's operands, and then the terminator. In
/// front
/// of a block that is neither the entry nor on a resume or destroy edge stand the stores of its phis.
pub fn ends_stand_at_their_places()
    ensures ends { (x : Framing) → IsFraming x → (k : ℕ) → slice_get (edged x).blocks k ≡ Some (block_at (edged x) k)
        → is_return x k ≡ false
        → EndsInPlace x k (end_code x k (last_state x k)) (end_term x (last_state x k) (block_at (edged x) k).term) }
    ensures fronts { (x : Framing) → IsFraming x → (k : ℕ) → slice_get (edged x).blocks k ≡ Some (block_at (edged x) k)
        → is_return x k ≡ false → IsOrdinaryBlock x k
        → FrontsInPlace x k (stored_phis (plan x) (block_at (fetched x) k).phis) }
{}

/// The phis of a block behind the entry are those before the passes but for what is fetched.
pub fn phis_stand_in_place()
    ensures { (x : Framing) (k : ℕ) → k ≢ 0 → (b : Block) → slice_get (edged x).blocks k ≡ Some b → PhisInPlace x k }
{}

/// Between the two passes that fetch a block has its label, and its terminator with what is loaded.
pub fn blocks_between_are_loaded()
    ensures label { (x : Framing) (k : ℕ) → slice_get (edged x).blocks k ≡ Some (block_at (edged x) k)
        → (block_at (unmarked x) k).label ≡ (block_at (edged x) k).label }
    ensures term { (x : Framing) (k : ℕ) → slice_get (edged x).blocks k ≡ Some (block_at (edged x) k)
        → (block_at (unmarked x) k).term
        ≡ fetched_term (fetches_of (plan x)) (load_name (last_state x k)) (block_at (edged x) k).term }
{}

/// A block of the framed form has the label that it had, and the block with a label is where it was.
pub fn labels_stay()
    ensures block { (x : Framing) (k : ℕ) (b : Block) → slice_get (edged x).blocks k ≡ Some b
        → label_of (slice_get (framed x).blocks k) ≡ b.label }
    ensures position { (x : Framing) (label k : ℕ) → block_labelled (edged x) label ≡ Some k
        → position_of (framed x) label ≡ position_of (edged x) label }
{}

/// A jump to a block that is neither the entry nor on a resume or destroy edge is followed, where the line at the end
/// of the block and that in front of the next one are executed. It may leave windows, the same in both runs.
pub fn jumps_are_followed()
    ensures { (b : Building) (g : RenewedGiven) → AreGiven b g
        → (s t : State) (r : AreBuiltOf b s t) (e other : Terminator)
        (label : ℕ) (line front : List Instr) → IsAtJump b g s e label
        → EndsInPlace (b.framing s.top.func) s.top.block line other
        → FrontsInPlace (b.framing s.top.func) (block_to (b.framing s.top.func) label) front
        → (ends : AreEndsLed b g s t r label line other) → AreFrontsLed b g s t r label ends.work front
        → IsBranch b g s (further t (length line)) label → IsFollowed b g s t }
{}

/// At the end of the block what is fetched there is executed, where it may be. Phis of the next block get what stands
/// for the source's.
pub fn block_ends_are_executed()
    ensures { (b : Building) (g : RenewedGiven) → AreGiven b g → (s t : State) (r : AreBuiltOf b s t) (e : Terminator)
        (label : ℕ) → IsAtJump b g s e label → MayJump b g s t r label
        → AreEndsLed b g s t r label
        (end_code (b.framing s.top.func) s.top.block (last_state (b.framing s.top.func) s.top.block))
        (end_term (b.framing s.top.func) (last_state (b.framing s.top.func) s.top.block)
        (block_at (edged (b.framing s.top.func)) s.top.block).term) }
{}

/// There the terminator goes to the same label, where what it looks at is fetched and stands for the source's.
pub fn terminators_go_on()
    ensures { (b : Building) (g : RenewedGiven) → AreGiven b g → (s t : State) (r : AreBuiltOf b s t) (e : Terminator)
        (label : ℕ) → IsAtJump b g s e label → (here reached : ℕ → Value) → MayGo b g s t r e here reached
        → (ends : EndsAt (b.framing s.top.func) here reached (framed_context b.given t) s.top.block (work_of t))
        → term_action (framed_context b.given t) ends.work
        (end_term (b.framing s.top.func) (last_state (b.framing s.top.func) s.top.block)
        (block_at (edged (b.framing s.top.func)) s.top.block).term) ≡ GoTo label }
{}

/// What a jump asks of the code of the framed form comes of the passes.
pub fn jumps_are_ready()
    ensures { (b : Building) (g : RenewedGiven) → AreGiven b g → (s t : State) (r : AreBuiltOf b s t) (e : Terminator)
        (label : ℕ) → IsAtJump b g s e label
        → slice_get (edged (b.framing s.top.func)).blocks s.top.block
        ≡ Some (block_at (edged (b.framing s.top.func)) s.top.block)
        → slice_get (edged (b.framing s.top.func)).blocks (block_to (b.framing s.top.func) label)
        ≡ Some (block_at (edged (b.framing s.top.func)) (block_to (b.framing s.top.func) label))
        → CanJump b g s t r e label → MayJump b g s t r label }
{}

/// In front of such a block the stores of its phis are executed, where these may be stored.
pub fn fronts_are_executed()
    ensures { (b : Building) (g : RenewedGiven) → AreGiven b g
        → (s t : State) (r : AreBuiltOf b s t) (e other : Terminator)
        (label : ℕ) (line : List Instr) → IsAtJump b g s e label → (ends : AreEndsLed b g s t r label line other)
        → ArePhisGiven b g s t r label ends.work
        → AreFrontsLed b g s t r label ends.work
        (stored_phis (plan (b.framing s.top.func))
        (block_at (fetched (b.framing s.top.func)) (block_to (b.framing s.top.func) label)).phis) }
{}

/// So a jump to such a block is followed, where what is fetched at the end may be and phis may be stored.
pub fn ordinary_jumps_are_followed()
    ensures { (b : Building) (g : RenewedGiven) → AreGiven b g → (s t : State) (r : AreBuiltOf b s t) (e : Terminator)
        (label : ℕ) → IsAtJump b g s e label
        → slice_get (edged (b.framing s.top.func)).blocks s.top.block
        ≡ Some (block_at (edged (b.framing s.top.func)) s.top.block)
        → slice_get (edged (b.framing s.top.func)).blocks (block_to (b.framing s.top.func) label)
        ≡ Some (block_at (edged (b.framing s.top.func)) (block_to (b.framing s.top.func) label))
        → IsOrdinaryBlock (b.framing s.top.func) (block_to (b.framing s.top.func) label) → MayJump b g s t r label
        → ((ends : AreEndsLed b g s t r label
        (end_code (b.framing s.top.func) s.top.block (last_state (b.framing s.top.func) s.top.block))
        (end_term (b.framing s.top.func) (last_state (b.framing s.top.func) s.top.block)
        (block_at (edged (b.framing s.top.func)) s.top.block).term)) → ArePhisGiven b g s t r label ends.work)
        → IsBranch b g s (further t
        (length (end_code (b.framing s.top.func) s.top.block (last_state (b.framing s.top.func) s.top.block)))) label
        → IsFollowed b g s t }
{}
