//! The begin and the saves of a coroutine are followed in its parts.

ghost use Rattle.std.specs.Prelude.{◌≡◌};
ghost use Rattle.pass_proofs.specs.ir_base.declared.outcome.Outcome.{Outcome};
ghost use Rattle.pass_split_proof.specs.begins.Beginning.{IsAtBegin};
ghost use Rattle.pass_split_proof.specs.begins.Saving.{IsAtSave};
ghost use Rattle.pass_split_proof.specs.simulation.Followed.{IsFollowed};
ghost use Rattle.pass_split_proof.specs.states.Related.{AreRelated};
ghost use Rattle.pass_proofs.specs.run_agreement.Machines.{IsFine};
ghost use Rattle.pass_proofs.specs.run_framed.Framed.{FramedGiven, framed_step};
ghost use Rattle.run_access_worked.specs.run_plain.Plain.{PlainGiven};
ghost use Rattle.run_access_worked.specs.run_plain.declared.state.PlainState.{PlainState as ThePlainState};
ghost use Rattle.pass_proofs.specs.run_source.declared.state.State.{State as TheState};

/// A save is followed in four steps: the index and the pointer for a resume are stored, and the part jumps to the mark
/// behind them.
pub fn saves_are_followed()
    ensures { (g : FramedGiven) (h : PlainGiven) (s : TheState) (t : ThePlainState) (r : AreRelated g h s t)
        → s.outcome ≡ Outcome.Running → IsFine (framed_step g s).outcome → IsAtSave g h s t r → IsFollowed g h s t }
{}

/// A begin in a block of an allocator is followed in five steps, the first of which its call has paid. The frame's address
/// is set and the header is stored.
pub fn begins_are_followed()
    ensures { (g : FramedGiven) (h : PlainGiven) (s : TheState) (t : ThePlainState) (r : AreRelated g h s t)
        → s.outcome ≡ Outcome.Running → IsFine (framed_step g s).outcome → IsAtBegin g h s t r → IsFollowed g h s t }
{}
