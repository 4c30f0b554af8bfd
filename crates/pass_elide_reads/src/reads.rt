//! What is read, by rules (F2, N1).

ghost use Rattle.pass_elide_edges.specs.Keeping.{HasEdge, KeepsEnds};
ghost use Rattle.pass_elide_reads.specs.Uses.{EndPlain, LooksSo, TakesSo, UseAlone, UsesAlone};
ghost use Rattle.pass_elide_ready.specs.Form.{AreFormed, IsFormed};
ghost use Rattle.pass_elide_ready.specs.Ruled.{IsRuled};
ghost use Rattle.pass_elide_ready.specs.pass_elide_proof.Edges.{chosen_by, label_from, phis_at};
ghost use Rattle.pass_elide_ready.specs.pass_elide_proof.Elision.{Elision, function_in};
ghost use Rattle.pass_elide_ready.specs.pass_elide_proof.Match.{frame_size};
ghost use Rattle.pass_elide_ready.specs.pass_elide_proof.Places.{instrs_of};
ghost use Rattle.pass_elide_ready.specs.pass_elide_proof.Placing.{ReadsPlain};
ghost use Rattle.pass_elide_ready.specs.pass_elide_proof.pass_proofs.flow_blocks.Reach.{IsReached as IsReachedBlock};
ghost use Rattle.pass_elide_ready.specs.pass_elide_proof.pass_proofs.flow_solver.Paths.{IsListed};
ghost use Rattle.pass_elide_ready.specs.pass_elide_proof.pass_proofs.ir_model.Names.{position_of};
ghost use Rattle.pass_elide_ready.specs.pass_elide_proof.pass_proofs.ir_model.declared.instr.Instr.{Instr};
ghost use Rattle.pass_elide_ready.specs.pass_elide_proof.pass_proofs.ir_model.declared.instr.Phi.{Phi};
ghost use Rattle.pass_elide_ready.specs.pass_elide_proof.pass_proofs.ir_model.declared.instr.Terminator.{Terminator};
ghost use Rattle.pass_elide_ready.specs.pass_elide_proof.pass_proofs.ir_model.declared.operand.Operand.{Operand};
ghost use Rattle.pass_elide_ready.specs.pass_elide_proof.pass_proofs.run_step.Reads.{reads};
ghost use Rattle.pass_elide_ready.specs.pass_elide_proof.pass_proofs.run_step.Step.{AtTerm, fetch, incoming_from};
ghost use Rattle.std.specs.Prelude.{IsTrue, Some, [], length, slice_get, ◌<◌, ◌^◌, ◌∷◌, ◌≡◌, ℕ};

/// An instruction in a block to which a path leads reads no name that its shape tells, but where that says so. What is
/// made on one of two ways isn't read behind both (F2).
pub fn forms_read_plain_names()
    ensures { (e : Elision) → IsRuled e.code → AreFormed e → UseAlone e → (func block at v : ℕ) (i : Instr)
        → IsReachedBlock (function_in e func) (0 ∷ []) [] block
        → slice_get (instrs_of (function_in e func) block) at ≡ Some i → IsTrue (reads v i)
        → ReadsPlain (e.shape func) block i v }
{}

/// The end of a block to which a path leads looks at a name that differs nowhere. Or it branches on the answer of
/// coro.alloc, or on a test, where the form says so.
pub fn forms_look_at_plain_names()
    ensures { (e : Elision) → IsRuled e.code → (func : ℕ) (k : IsFormed e func)
        → UsesAlone (function_in e func) k.asking k.freeing → (block v : ℕ) (term : Terminator)
        → IsReachedBlock (function_in e func) (0 ∷ []) [] block
        → fetch (function_in e func) block (length (instrs_of (function_in e func) block)) ≡ AtTerm term
        → chosen_by term ≡ Operand.Local v → LooksSo (function_in e func) k.asking k.freeing block v }
{}

/// What a phi takes from a block to which a path leads is no answer, and is made on no way, but where the block stands
/// behind one.
pub fn forms_take_plain_names()
    ensures { (e : Elision) → IsRuled e.code → (func : ℕ) (k : IsFormed e func)
        → UsesAlone (function_in e func) k.asking k.freeing → (from label v : ℕ) (p : Phi)
        → IsReachedBlock (function_in e func) (0 ∷ []) [] from → HasEdge (function_in e func) from label
        → IsListed p (phis_at (function_in e func) (position_of (function_in e func) label))
        → incoming_from p.incoming (label_from (function_in e func) from) ≡ Operand.Local v
        → TakesSo (function_in e func) k.asking k.freeing from v }
{}

/// So the ends of blocks are as known ends ask, if no window is left over the edges of forms, and phis behind two ways
/// take the same from both.
pub fn forms_keep_ends()
    ensures { (e : Elision) → IsRuled e.code → AreFormed e → UseAlone e → EndPlain e
        → ((func : ℕ) → frame_size e func < 2 ^ 32) → KeepsEnds e }
{}
