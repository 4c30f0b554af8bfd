//! The allocas of an activation that goes on behind a suspend are followed in its part.

ghost use Rattle.std.specs.Prelude.{◌≡◌, ◌<◌, ℕ, ◌+◌, length};
ghost use Rattle.pass_proofs.specs.ir_base.declared.outcome.Outcome.{Outcome};
ghost use Rattle.pass_proofs.specs.pass_front.Front.{allocas_of};
ghost use Rattle.pass_split_proof.specs.entering.Entering.{GoesBehind, IsMakingAgain};
ghost use Rattle.pass_split_proof.specs.simulation.Followed.{IsFollowed};
ghost use Rattle.pass_split_proof.specs.states.Related.{AreRelated};
ghost use Rattle.pass_proofs.specs.run_agreement.Machines.{IsFine};
ghost use Rattle.pass_proofs.specs.run_framed.Framed.{FramedGiven, framed_step};
ghost use Rattle.run_access_worked.specs.run_plain.Plain.{PlainGiven};
ghost use Rattle.run_access_worked.specs.run_plain.declared.state.PlainState.{PlainState as ThePlainState};
ghost use Rattle.pass_proofs.specs.run_source.State.{function_of};
ghost use Rattle.pass_proofs.specs.run_source.declared.state.State.{State as TheState};

/// An alloca before the last is made again in one step, and the index leads back as before.
pub fn allocas_are_made_again()
    ensures { (g : FramedGiven) (h : PlainGiven) (s : TheState) (t : ThePlainState) (r : AreRelated g h s t)
        → s.outcome ≡ Outcome.Running → IsFine (framed_step g s).outcome → (from label : ℕ)
        → IsMakingAgain g h s t r from label → s.top.at + 1 < length (allocas_of (function_of g.given s).blocks)
        → IsFollowed g h s t }
{}

/// The last one is followed in five steps: the index leads the part on to the block behind the suspend. One of them is a
/// debt that the jump of that block makes up for.
pub fn last_allocas_are_made_again()
    ensures { (g : FramedGiven) (h : PlainGiven) (s : TheState) (t : ThePlainState) (r : AreRelated g h s t)
        → s.outcome ≡ Outcome.Running → IsFine (framed_step g s).outcome → (from label : ℕ)
        → IsMakingAgain g h s t r from label → GoesBehind g h s t r label
        → s.top.at + 1 ≡ length (allocas_of (function_of g.given s).blocks) → IsFollowed g h s t }
{}
