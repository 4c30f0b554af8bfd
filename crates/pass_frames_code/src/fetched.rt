//! Operands that are fetched: the loads and addresses in front of an instruction are executed, and then the
//! instruction sees what they give.

ghost use Rattle.std.specs.Prelude.{◌≤◌, ℕ, List, Option, length};
ghost use Rattle.pass_proofs.specs.ir_model.declared.instr.Instr.{Instr};
ghost use Rattle.pass_proofs.specs.ir_model.declared.instr.Terminator.{Terminator};
ghost use Rattle.pass_proofs.specs.ir_model.declared.operand.Operand.{Operand};
ghost use Rattle.pass_proofs.specs.ir_parts.Contents.{instr_operands};
ghost use Rattle.pass_proofs.specs.pass_fetch.Fetching.{next_after_all};
ghost use Rattle.pass_proofs.specs.pass_fetch.Instrs.{fetched_term, term_operands, with_fetched};
ghost use Rattle.pass_proofs.specs.pass_fetch.declared.fetch.Fetch.{Fetch};
ghost use Rattle.pass_frames_code.specs.Distances.{IsBelow};
ghost use Rattle.pass_frames_code.specs.Fetched.{AreFetched, AreSeenAs, CanFetch, IsSeenAs};
ghost use Rattle.pass_proofs.specs.run_laws.changed.Changed.{Each};
ghost use Rattle.pass_proofs.specs.run_laws.transfer.Shapes.{InstrStays, TermStays};
ghost use Rattle.pass_proofs.specs.run_memory.declared.pointer.Value.{Value};
ghost use Rattle.pass_proofs.specs.run_step.Step.{Context, Work};

/// What fetches operands is executed: it sets new names alone, and each operand has in its place what is given of it.
pub fn operands_are_fetched()
    ensures { (t : List (Option Fetch)) (given : ℕ → Value) (c : Context) (n : ℕ) (xs : List Operand) (w : Work)
        → Each (CanFetch t given n c w) xs → Each (IsBelow n) xs → next_after_all t n xs ≤ length w.values
        → AreFetched t given c n xs w }
{}

/// An instruction or a terminator whose operands are fetched is the same but for its operands.
pub fn fetched_instructions_stay()
    ensures instr { (t : List (Option Fetch)) (given : ℕ → Value) (c : Context) (w x : Work) (n : ℕ) (i : Instr)
        → AreSeenAs t given c w x n (instr_operands i)
        → InstrStays (IsSeenAs t given c w x) i (with_fetched t n i) }
    ensures term { (t : List (Option Fetch)) (given : ℕ → Value) (c : Context) (w x : Work) (n : ℕ) (e : Terminator)
        → AreSeenAs t given c w x n (term_operands e)
        → TermStays (IsSeenAs t given c w x) (λ label. label) e (fetched_term t n e) }
{}
