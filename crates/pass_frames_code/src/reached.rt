//! Slots that lie in the frame: in front of each use their address is made, so far behind that of the frame.

ghost use Rattle.std.specs.Prelude.{◌≡◌, ◌<◌, ◌+◌, ◌^◌, ℕ, List, Some, true};
ghost use Rattle.pass_proofs.specs.ir_model.declared.operand.Operand.{Operand};
ghost use Rattle.pass_proofs.specs.pass_cells.Kept.{entry};
ghost use Rattle.pass_proofs.specs.pass_frames.Framed.{begin_of};
ghost use Rattle.pass_frames_code.specs.Code.{slot_table};
ghost use Rattle.pass_frames_code.specs.Fetched.{CanFetch};
ghost use Rattle.pass_frames_code.specs.Places.{Framing, offsets};
ghost use Rattle.pass_frames_code.specs.Reached.{address_in_frame};
ghost use Rattle.pass_proofs.specs.run_laws.access.Lines.{pointer_at};
ghost use Rattle.pass_proofs.specs.run_laws.memory.Pointers.{Home, IsValue, home_of};
ghost use Rattle.pass_proofs.specs.run_step.Step.{Context, Work};
ghost use Rattle.pass_proofs.specs.run_step.Values.{Env, pointer_to, value_in};

/// The address of a slot can be made behind begin, and stands for the slot's in the source once its home is there.
pub fn slots_are_reached()
    ensures can { (x : Framing) (c : Context) (w : Work) (block start n v : ℕ)
        → value_in w.values (begin_of x.function) ≡ pointer_at block start → begin_of x.function < n
        → ((d : ℕ) → entry (offsets x) v ≡ Some d → start + d < 2 ^ 64)
        → CanFetch (slot_table x) (address_in_frame x block start) n c w (Operand.Local v) }
    ensures stand { (x : Framing) (homes : List Home) (env : Env) (block start v b d : ℕ)
        → entry (offsets x) v ≡ Some d → value_in env v ≡ pointer_to b
        → home_of homes b ≡ record { block = block; offset = start + d; is_seen = true } → start + d < 2 ^ 64
        → IsValue homes (value_in env v) (address_in_frame x block start v) }
{}
