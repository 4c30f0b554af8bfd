//! Getelementptrs whose distance is kept, from state to state.

ghost use Rattle.std.specs.Prelude.{ℕ, Bool, List};
ghost use Rattle.pass_proofs.specs.ir_model.Ty.{Ty};
ghost use Rattle.pass_proofs.specs.ir_model.declared.operand.Arg.{Arg};
ghost use Rattle.pass_frames_code.specs.Distanced.{IsAtDistanced};
ghost use Rattle.pass_frames_code.specs.Followed.{IsFollowed};
ghost use Rattle.pass_frames_code.specs.Related.{AreBuiltOf, Building};
ghost use Rattle.pass_frames_code.specs.Stepping.{AreGiven};
ghost use Rattle.pass_renewed_proof.specs.Renewed.{RenewedGiven};
ghost use Rattle.pass_proofs.specs.run_source.declared.state.State.{State};
ghost use Rattle.pass_proofs.specs.run_step.Step.{Work};

/// A getelementptr whose distance is kept is followed: its kept operands are loaded, the address is made and stored,
/// and its distance is summed and stored.
pub fn measured_addresses_are_followed()
    ensures { (b : Building) (g : RenewedGiven) → AreGiven b g → (s t : State) → AreBuiltOf b s t → (r : ℕ)
        (inbounds : Bool) (ty : Ty) (base : ℕ) (indices : List Arg) (cell slot : ℕ) (v : Work)
        → IsAtDistanced b g s r inbounds ty base indices cell slot v → IsFollowed b g s t }
{}
