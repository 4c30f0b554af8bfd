//! Slots of activations.

ghost use Rattle.std.specs.Prelude.{List, ℕ};
ghost use Rattle.pass_elide_proof.specs.Making.{HaveSlots};
ghost use Rattle.pass_proofs.specs.ir_base.declared.outcome.Word.{Word};
ghost use Rattle.pass_proofs.specs.run_framed.Framed.{FramedGiven, framed_state_at, framed_step};
ghost use Rattle.pass_proofs.specs.run_source.declared.state.State.{State};

/// Slots of activations lead to blocks that there are, in each state of a framed run. So they stay where they were when
/// a block is made.
pub fn slots_lead_to_blocks()
    ensures step { (g : FramedGiven) (s : State) → HaveSlots s → HaveSlots (framed_step g s) }
    ensures runs { (g : FramedGiven) (entry : ℕ) (args : List Word) (n : ℕ)
        → HaveSlots (framed_state_at g entry args n) }
{}
