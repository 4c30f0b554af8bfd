//! Phis on an edge: what they get is fetched at the end of the block from which they come, and stored behind the start
//! of their own.

ghost use Rattle.std.specs.Prelude.{◌≡◌, ◌<◌, ◌≤◌, ℕ, List, None, Option, Some, codes, length, slice_get};
ghost use Rattle.pass_proofs.specs.ir_model.declared.instr.Phi.{Phi};
ghost use Rattle.pass_proofs.specs.ir_model.declared.module.Block.{Block};
ghost use Rattle.pass_proofs.specs.ir_model.declared.module.Function.{Function};
ghost use Rattle.pass_proofs.specs.pass_cells.Written.{stored_phis};
ghost use Rattle.pass_proofs.specs.ir_model.declared.operand.Operand.{Operand};
ghost use Rattle.pass_proofs.specs.pass_fetch.Blocks.{next_after_phis_by, with_fetches};
ghost use Rattle.pass_proofs.specs.pass_fetch.Fetching.{fetch_of};
ghost use Rattle.pass_frames_code.specs.Edges.{ArePairs};
ghost use Rattle.pass_frames_code.specs.Ends.{Ends, IsPhiTwice, MayEnd, phis_twice};
ghost use Rattle.pass_proofs.specs.pass_fetch.declared.fetch.Fetch.{Fetch};
ghost use Rattle.pass_frames_code.specs.Code.{front_code, slot_table};
ghost use Rattle.pass_frames_code.specs.Framings.{IsFraming};
ghost use Rattle.pass_frames_code.specs.Lines.{HasOwnBlocks, at_work};
ghost use Rattle.pass_frames_code.specs.Passes.{block_at};
ghost use Rattle.pass_frames_code.specs.Phis.{AreBlocksSeen, ArePhisFetched, CanAllComeFrom, IsOrdinaryBlock, given_phis, seen_phis};
ghost use Rattle.pass_frames_code.specs.Places.{Framing, fetched, framed, plan, unmarked};
ghost use Rattle.pass_frames_code.specs.Related.{AreCellsRight};
ghost use Rattle.pass_frames_code.specs.Stores.{AreNamesStored, IsNameGiven};
ghost use Rattle.pass_proofs.specs.run_laws.changed.Changed.{Each};
ghost use Rattle.pass_proofs.specs.run_laws.memory.Pointers.{Home};
ghost use Rattle.pass_proofs.specs.run_laws.memory.Standing.{AreByteRights};
ghost use Rattle.pass_proofs.specs.run_memory.declared.pointer.Value.{Value};
ghost use Rattle.pass_proofs.specs.run_source.declared.state.Activation.{Activation};
ghost use Rattle.pass_proofs.specs.run_step.Step.{Context, Work, phi_values, with_all};
ghost use Rattle.pass_proofs.specs.run_step.Values.{Env};

/// What stands at the end of a block for phis that are entered from it is executed. It sets new names alone, and each
/// phi gets what is seen of its operand.
pub fn phis_are_fetched()
    ensures done { (t : List (Option Fetch)) (given : ℕ → Value) (c : Context) (f : Function) (label : ℕ) (w : Work)
        → label < length f.names → CanAllComeFrom t given (length f.names) c w label f.blocks
        → next_after_phis_by t (length f.names) f.blocks ≤ length w.values → ArePhisFetched t given c f label w }
    ensures values { (t : List (Option Fetch)) (given : ℕ → Value) (c : Context) (f : Function) (word : List ℕ)
        (label k : ℕ) (w x : Work) (b d : Block) → AreBlocksSeen t given c w x label (length f.names) f.blocks
        → slice_get f.blocks k ≡ Some b → slice_get (with_fetches f t word).blocks k ≡ Some d
        → phi_values c.code x.values label d.phis ≡ seen_phis t given c w label b.phis }
{}

/// Behind the start of a block its phis are stored into their cells. Then the cells are right.
pub fn phis_are_stored()
    ensures { (x : Framing) → IsFraming x → (homes : List Home) (c : Context) → AreByteRights c.rights
        → (old : Env) (a : Activation) (w : Work) (value : Phi → Value) (n : ℕ) (ps : List Phi) → HasOwnBlocks a
        → Each (IsNameGiven x homes w) (given_phis value ps)
        → AreCellsRight x homes c.rights w.world.memory old (at_work a w)
        → AreNamesStored x homes c w a (with_all old (given_phis value ps)) n (stored_phis (plan x) ps) }
{}

/// No pass changes a phi but the two that fetch operands: loads of kept values, and addresses of slots.
pub fn phis_are_those_of_fetches()
    ensures loaded { (x : Framing) (k : ℕ) (d e : Block) → slice_get (unmarked x).blocks k ≡ Some d
        → slice_get (fetched x).blocks k ≡ Some e → d.phis ≡ e.phis }
    ensures placed { (x : Framing) (k : ℕ) (d e : Block) → slice_get (framed x).blocks k ≡ Some d
        → slice_get (with_fetches (unmarked x) (slot_table x) (codes "$c.at.")).blocks k ≡ Some e → d.phis ≡ e.phis }
{}

/// In front of a block that is neither the entry nor on a resume or destroy edge nothing stands but its phis' stores.
pub fn fronts_are_stores()
    ensures { (x : Framing) → IsFraming x → (k : ℕ) → IsOrdinaryBlock x k
        → front_code x k ≡ stored_phis (plan x) (block_at (fetched x) k).phis }
{}

/// The end of a block is executed: loads for phis and for the terminator, and then addresses for both. Only new names
/// are set.
pub fn ends_are_executed()
    ensures { (t u : List (Option Fetch)) (given reached : ℕ → Value) (c : Context) (f h : Function) (label n m : ℕ)
        (xs ys : List Operand) (w : Work) → MayEnd t u given reached c f h label n m xs ys w
        → Ends t u given reached c f h label n m xs ys w }
{}

/// Operands are loaded where they are kept, and then addresses are made where they lie in the frame. Each phi gets
/// what
/// is seen of its operand over both, which stands for what it gets in the source.
pub fn phis_are_fetched_twice()
    ensures values { (t u : List (Option Fetch)) (far : ℕ)
        → ((n : ℕ) → far ≤ n → fetch_of u (Operand.Local n) ≡ None) → (given reached : ℕ → Value) (c : Context)
        (w y z : Work) (label : ℕ) (f h : Function) (word other : List ℕ) (k : ℕ) (b d e q : Block)
        → far ≤ length f.names → AreBlocksSeen t given c w y label (length f.names) f.blocks
        → AreBlocksSeen u reached c y z label (length h.names) h.blocks → slice_get f.blocks k ≡ Some b
        → slice_get (with_fetches f t word).blocks k ≡ Some d → slice_get h.blocks k ≡ Some e → e.phis ≡ d.phis
        → slice_get (with_fetches h u other).blocks k ≡ Some q
        → phi_values c.code z.values label q.phis ≡ phis_twice t u given reached c y label b.phis }
    ensures pairs { (homes : List Home) (t u : List (Option Fetch)) (given reached : ℕ → Value) (c d : Context)
        (w y : Work) (label bound : ℕ) (ps : List Phi)
        → Each (IsPhiTwice homes t u given reached c d w y label bound) ps
        → ArePairs homes bound (phi_values c.code w.values label ps) (phis_twice t u given reached d y label ps) }
{}
