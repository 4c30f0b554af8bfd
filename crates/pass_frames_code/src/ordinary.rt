//! Ordinary steps: an instruction that is no intrinsic does the same in the framed form, over the related memory.

ghost use Rattle.std.specs.Prelude.{◌≡◌, ℕ, Bool, List, Option};
ghost use Rattle.pass_proofs.specs.ir_model.declared.instr.Instr.{Instr};
ghost use Rattle.pass_proofs.specs.ir_model.declared.operand.Arg.{Arg};
ghost use Rattle.pass_proofs.specs.ir_model.declared.operand.Operand.{Operand};
ghost use Rattle.pass_proofs.specs.pass_fetch.declared.fetch.Fetch.{Fetch};
ghost use Rattle.pass_frames_code.specs.Framings.{IsFraming};
ghost use Rattle.pass_frames_code.specs.Ordinary.{IsMade, IsQuiet, MayBeMade, MayStep, Steps};
ghost use Rattle.pass_frames_code.specs.Places.{Framing};
ghost use Rattle.pass_proofs.specs.run_laws.memory.Pointers.{Home};
ghost use Rattle.pass_proofs.specs.run_laws.memory.Standing.{AreByteRights};
ghost use Rattle.pass_proofs.specs.run_laws.transfer.Transfer.{Maps};
ghost use Rattle.pass_proofs.specs.run_memory.declared.pointer.Value.{Value};
ghost use Rattle.pass_proofs.specs.run_source.declared.state.Activation.{Activation};
ghost use Rattle.pass_proofs.specs.run_step.Step.{Context, Done, Work, instr_action};

/// Where what is seen of each operand stands for what the source has, operands are fetched and the instruction does the
/// same: of every one but those that make, mark or allocate blocks.
pub fn fetched_steps_are_made()
    ensures { (homes : List Home) (hides : ℕ → Bool) (maps : Maps) (t : List (Option Fetch)) (given : ℕ → Value)
        (c d : Context) → AreByteRights c.rights → AreByteRights d.rights → (w y : Work) (n : ℕ) (i : Instr)
        → MayBeMade homes hides maps t given c d w y n i → IsMade homes hides maps t c d w y n i }
{}

/// Operands are loaded from their cells, arithmetic, a load or a call of an outside function is executed, and its
/// result is stored into its cell. Then the memories are related again, and the cells are right.
pub fn quiet_steps_are_made()
    ensures { (x : Framing) → IsFraming x → (homes : List Home) (hides : ℕ → Bool) (c d : Context)
        → AreByteRights c.rights → AreByteRights d.rights → (w y v : Work) (a : Activation) (n : ℕ) (i : Instr)
        → IsQuiet c i → instr_action c w i ≡ Done v → MayStep x homes hides c d w y a n i
        → Steps x homes hides c d y v a n i }
{}

/// So it is of a store: the bytes that it writes are homes of the source's, and no cell is among them.
pub fn stores_are_made()
    ensures { (x : Framing) → IsFraming x → (homes : List Home) (hides : ℕ → Bool) (c d : Context)
        → AreByteRights c.rights → AreByteRights d.rights → (w y v : Work) (a : Activation) (n : ℕ) (arg : Arg)
        (p : Operand) (align : ℕ) → instr_action c w (Instr.Store arg p align) ≡ Done v
        → MayStep x homes hides c d w y a n (Instr.Store arg p align)
        → Steps x homes hides c d y v a n (Instr.Store arg p align) }
{}
