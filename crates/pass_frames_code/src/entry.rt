//! What stands behind the allocas of a ramp: addresses of temporaries, and parameters, are stored into their cells.

ghost use Rattle.std.specs.Prelude.{◌≡◌, ℕ, List, length};
ghost use Rattle.pass_proofs.specs.pass_cells.Written.{stored_params};
ghost use Rattle.pass_proofs.specs.pass_copies.declared.slot.EarlySlot.{EarlySlot};
ghost use Rattle.pass_frames_code.specs.Entry.{ArePut, MayPut, cells_of};
ghost use Rattle.pass_frames_code.specs.Framings.{IsFraming};
ghost use Rattle.pass_frames_code.specs.Lines.{HasOwnBlocks, at_work};
ghost use Rattle.pass_frames_code.specs.Places.{Framing, edged, plan};
ghost use Rattle.pass_frames_code.specs.Related.{AreCellsThere};
ghost use Rattle.pass_frames_code.specs.Stores.{AreNamesStored, IsNameGiven, given_params};
ghost use Rattle.pass_proofs.specs.ir_laws.paths.woven_rules.Pairs.{AreDifferent};
ghost use Rattle.pass_proofs.specs.run_laws.changed.Changed.{Each};
ghost use Rattle.pass_proofs.specs.run_laws.memory.Pointers.{Home};
ghost use Rattle.pass_proofs.specs.run_laws.memory.Standing.{AreByteRights};
ghost use Rattle.pass_proofs.specs.run_memory.declared.pointer.Value.{Value};
ghost use Rattle.pass_proofs.specs.run_source.declared.state.Activation.{Activation};
ghost use Rattle.pass_proofs.specs.run_step.Step.{Context, Work, entry_values};

/// Where the cells are there the parameters are stored into theirs. Then the cells are right by the values at the
/// entry.
pub fn parameters_are_stored()
    ensures { (x : Framing) → IsFraming x → (homes : List Home) (c : Context) → AreByteRights c.rights
        → (a : Activation) (w : Work) (args : List Value) (n : ℕ) → HasOwnBlocks a
        → length args ≡ length (edged x).params → Each (IsNameGiven x homes w) (given_params (edged x).params args)
        → AreCellsThere x c.rights w.world.memory (at_work a w)
        → AreNamesStored x homes c w a (entry_values (edged x) args) n (stored_params (plan x) (edged x).params) }
{}

/// The addresses of temporaries, or of slots in the frame, are put into the cells of slots that are used before begin.
pub fn addresses_are_put()
    ensures { (c : Context) → AreByteRights c.rights → (a : Activation) → HasOwnBlocks a → (address : EarlySlot → ℕ)
        (n : ℕ) (ss : List EarlySlot) (w : Work) → AreDifferent (cells_of ss)
        → Each (MayPut c.rights w.world.memory (at_work a w) address n) ss → ArePut c w a address n ss }
{}
