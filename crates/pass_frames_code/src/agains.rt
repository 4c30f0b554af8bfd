//! Values that are loaded again from their fields, in front of a block on a resume or destroy edge.

ghost use Rattle.std.specs.Prelude.{◌≤◌, ℕ, List, length};
ghost use Rattle.pass_frames_code.specs.Agains.{LoadsValues, MayLoadAgain};
ghost use Rattle.pass_frames_code.specs.Framings.{IsFraming};
ghost use Rattle.pass_frames_code.specs.Places.{Framing, named};
ghost use Rattle.pass_proofs.specs.run_laws.memory.Pointers.{Home};
ghost use Rattle.pass_proofs.specs.run_laws.memory.Standing.{AreByteRights};
ghost use Rattle.pass_proofs.specs.run_source.declared.state.Activation.{Activation};
ghost use Rattle.pass_proofs.specs.run_step.Step.{Context, Work};
ghost use Rattle.pass_proofs.specs.run_step.Values.{Env};

/// Each value that crosses is loaded from its field and stored into its cell. Of an address in a slot that is made anew
/// the distance is loaded, and the address so far from the slot is stored. Then the cells are right.
pub fn values_are_loaded_again()
    ensures { (x : Framing) → IsFraming x → (homes : List Home) (c : Context) → AreByteRights c.rights
        → (env : Env) (a : Activation) (w : Work) (block start k n m : ℕ) (row : List ℕ)
        → length (named x).names ≤ n → MayLoadAgain x homes c w a env block start n m row
        → LoadsValues x homes c w a env k n m row }
{}
