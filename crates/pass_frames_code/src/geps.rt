//! Getelementptrs whose distance is kept.

ghost use Rattle.std.specs.Prelude.{◌≡◌, ℕ, Bool, List};
ghost use Rattle.pass_proofs.specs.ir_model.Ty.{Ty};
ghost use Rattle.pass_proofs.specs.ir_model.declared.instr.Instr.{Instr};
ghost use Rattle.pass_proofs.specs.ir_model.declared.operand.Arg.{Arg};
ghost use Rattle.pass_proofs.specs.ir_model.declared.operand.Operand.{Operand};
ghost use Rattle.pass_frames_code.specs.Framings.{IsFraming};
ghost use Rattle.pass_frames_code.specs.Geps.{MayMove, Moves};
ghost use Rattle.pass_frames_code.specs.Places.{Framing};
ghost use Rattle.pass_proofs.specs.run_laws.memory.Pointers.{Home};
ghost use Rattle.pass_proofs.specs.run_laws.memory.Standing.{AreByteRights};
ghost use Rattle.pass_proofs.specs.run_source.declared.state.Activation.{Activation};
ghost use Rattle.pass_proofs.specs.run_step.Step.{Context, Done, Work, instr_action};

/// Operands are loaded from their cells, the address is made, and its result and its distance are stored. Then the
/// memories are related again, and all cells are right.
pub fn moves_are_made()
    ensures { (x : Framing) → IsFraming x → (homes : List Home) (hides : ℕ → Bool) (c d : Context)
        → AreByteRights c.rights → AreByteRights d.rights → (w y v : Work) (a : Activation) (n m r : ℕ)
        (inbounds : Bool) (ty : Ty) (base : ℕ) (indices : List Arg) (cell slot : ℕ)
        → instr_action c w (Instr.Gep r inbounds ty (Operand.Local base) indices) ≡ Done v
        → MayMove x homes hides c d w y a n m r inbounds ty base indices cell slot
        → Moves x homes hides c d y v a n m r inbounds ty base indices }
{}
