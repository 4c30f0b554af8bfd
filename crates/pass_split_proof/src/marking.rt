//! Lifetime markers of a framed run are followed in its parts.

ghost use Rattle.std.specs.Prelude.{◌≡◌};
ghost use Rattle.pass_proofs.specs.ir_base.declared.outcome.Outcome.{Outcome};
ghost use Rattle.pass_proofs.specs.ir_model.declared.operand.Intrinsic.{Intrinsic};
ghost use Rattle.pass_split_proof.specs.marking.Markers.{HoldsNoFrame, IsAtMarker};
ghost use Rattle.pass_split_proof.specs.simulation.Followed.{IsFollowed};
ghost use Rattle.pass_split_proof.specs.states.Related.{AreRelated};
ghost use Rattle.pass_proofs.specs.run_framed.Framed.{FramedGiven};
ghost use Rattle.run_access_worked.specs.run_plain.Plain.{PlainGiven};
ghost use Rattle.run_access_worked.specs.run_plain.declared.state.PlainState.{PlainState as ThePlainState};
ghost use Rattle.pass_proofs.specs.run_source.declared.state.State.{State as TheState};

/// The end of a slot is followed in one step: its block has then ended in both runs.
pub fn ends_of_slots_are_followed()
    ensures { (g : FramedGiven) (h : PlainGiven) (s : TheState) (t : ThePlainState) (r : AreRelated g h s t)
        → s.outcome ≡ Outcome.Running → IsAtMarker g h s t r Intrinsic.LifetimeEnd → IsFollowed g h s t }
{}

/// So is its start, if no frame is held in the block then. Its bytes are undefined in both runs.
pub fn starts_of_slots_are_followed()
    ensures { (g : FramedGiven) (h : PlainGiven) (s : TheState) (t : ThePlainState) (r : AreRelated g h s t)
        → s.outcome ≡ Outcome.Running → (k : IsAtMarker g h s t r Intrinsic.LifetimeStart)
        → HoldsNoFrame s.instances s.world.memory k.block → IsFollowed g h s t }
{}
