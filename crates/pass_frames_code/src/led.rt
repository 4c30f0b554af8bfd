//! Instructions behind a line that fetches their operands, by one table and then by another.

ghost use Rattle.std.specs.Prelude.{◌≡◌, ℕ, Bool, List, Option};
ghost use Rattle.pass_proofs.specs.ir_model.declared.instr.Instr.{Instr};
ghost use Rattle.pass_proofs.specs.ir_model.declared.operand.Arg.{Arg};
ghost use Rattle.pass_proofs.specs.ir_model.declared.operand.Operand.{Operand};
ghost use Rattle.pass_proofs.specs.pass_fetch.Instrs.{with_fetched};
ghost use Rattle.pass_proofs.specs.pass_fetch.declared.fetch.Fetch.{Fetch};
ghost use Rattle.pass_frames_code.specs.Framings.{IsFraming};
ghost use Rattle.pass_frames_code.specs.Led.{IsLed, LeavesMemory, MayBeLed, MayStepLed, StepsLed, StoresLed, led_line, twice_front};
ghost use Rattle.pass_frames_code.specs.Places.{Framing};
ghost use Rattle.pass_proofs.specs.run_laws.memory.Pointers.{Home};
ghost use Rattle.pass_proofs.specs.run_laws.memory.Standing.{AreByteRights};
ghost use Rattle.pass_proofs.specs.run_memory.declared.pointer.Value.{Value};
ghost use Rattle.pass_proofs.specs.run_source.declared.state.Activation.{Activation};
ghost use Rattle.pass_proofs.specs.run_step.Step.{Context, Done, Work, instr_action};

/// Operands are fetched by one table, and those that it doesn't fetch by another. Then each stands for the source's.
pub fn operands_are_fetched_twice()
    ensures { (homes : List Home) (t u : List (Option Fetch)) (given more : ℕ → Value) (c d : Context) (w y : Work)
        (n m : ℕ) (i : Instr) → MayBeLed homes t u given more c d w y n m i
        → IsLed homes c d w y n i (with_fetched u m (with_fetched t n i)) (twice_front t u n m i) }
{}

/// Behind such a line arithmetic, an address, a load or a call of an outside function is executed, and its result is
/// stored. Then the memories are related again, and the cells are right. Ranges that aren't cells hold what they held.
pub fn led_steps_are_made()
    ensures { (x : Framing) → IsFraming x → (homes : List Home) (hides : ℕ → Bool) (c d : Context)
        → AreByteRights c.rights → AreByteRights d.rights → (w y v : Work) (a : Activation) (n : ℕ) (i j : Instr)
        (front : List Instr) → LeavesMemory c i → instr_action c w i ≡ Done v
        → MayStepLed x homes hides c d w y a n i j front
        → StepsLed x homes hides c d w y v a i front (led_line x front i j) }
{}

/// So it is of a store: the bytes that it writes are homes of the source's, and what is free in the target stays.
pub fn led_stores_are_made()
    ensures { (x : Framing) → IsFraming x → (homes : List Home) (hides : ℕ → Bool) (c d : Context)
        → AreByteRights c.rights → AreByteRights d.rights → (w y v : Work) (a : Activation) (n : ℕ) (arg : Arg)
        (p : Operand) (align : ℕ) (j : Instr) (front : List Instr)
        → instr_action c w (Instr.Store arg p align) ≡ Done v
        → MayStepLed x homes hides c d w y a n (Instr.Store arg p align) j front
        → StoresLed x homes hides c d w y v a (Instr.Store arg p align) front
        (led_line x front (Instr.Store arg p align) j) }
{}
