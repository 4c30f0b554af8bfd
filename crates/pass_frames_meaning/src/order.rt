//! New names of the framed form come in the order of the passes.

ghost use Rattle.std.specs.Prelude.{◌≡◌, ℕ, Some, slice_get, true};
ghost use Rattle.pass_frames_proof.specs.ir_model.declared.instr.Instr.{Instr};
ghost use Rattle.pass_frames_proof.specs.pass_copies.Uses.{is_access};
ghost use Rattle.pass_frames_proof.specs.pass_addresses.Placing.{stays, without_promise_of};
ghost use Rattle.pass_frames_proof.specs.Code.{is_ahead, loaded};
ghost use Rattle.pass_frames_proof.specs.Framings.{IsFraming};
ghost use Rattle.pass_frames_proof.specs.Located.{AreWheresInOrder};
ghost use Rattle.pass_frames_proof.specs.Places.{Framing, instrs_at, marked};
ghost use Rattle.pass_frames_proof.specs.Stepping.{AreNamesInOrder, IsUnlocated, state_in};

/// Where an instruction accesses no slot that is used before begin, and stays as it is but for loads and addresses, its new
/// names are those of the passes in turn.
pub fn names_are_in_order()
    ensures { (x : Framing) → IsFraming x → (k at : ℕ) (i : Instr) → slice_get (instrs_at x k) at ≡ Some i
        → IsUnlocated x (state_in x k at) i → stays (marked x) (loaded x (state_in x k at) i) ≡ true
        → without_promise_of (loaded x (state_in x k at) i) ≡ loaded x (state_in x k at) i
        → AreNamesInOrder x (state_in x k at) i }
{}

/// So are those of an access at a place that is ahead of begin, which goes by addresses in the cells of slots.
pub fn names_of_accesses_are_in_order()
    ensures { (x : Framing) → IsFraming x → (k at : ℕ) (i : Instr) → slice_get (instrs_at x k) at ≡ Some i
        → is_access i ≡ true → is_ahead (state_in x k at) ≡ true → AreWheresInOrder x (state_in x k at) i }
{}
