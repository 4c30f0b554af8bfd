//! Slots of activations in framed runs in which calls may give frames.

ghost use Rattle.std.specs.Prelude.{List, ℕ};
ghost use Rattle.pass_elide_proof.specs.OwnSlots.{CountsSlots, HaveNoSlots};
ghost use Rattle.pass_elide_proof.specs.Returning.{HaveOwnBlocks, HaveOwnSlots};
ghost use Rattle.pass_proofs.specs.ir_base.declared.outcome.Word.{Word};
ghost use Rattle.pass_proofs.specs.ir_model.declared.module.Module.{Module};
ghost use Rattle.pass_proofs.specs.run_framed.Framed.{FramedGiven, framed_step};
ghost use Rattle.pass_proofs.specs.run_source.Source.{first_state};
ghost use Rattle.pass_proofs.specs.run_source.declared.state.State.{State};
ghost use Rattle.run_slots.specs.Slots.{IsSlottedState};

/// Each slot of an activation has the block of an alloca that wasn't killed, and no two have one. So it is at the
/// start, and each step keeps it where instances have no slots.
pub fn slots_have_own_blocks()
    ensures start { (m : Module) (entry : ℕ) (args : List Word) → CountsSlots (first_state m entry args) }
    ensures step { (g : FramedGiven) (s : State) → HaveNoSlots s → CountsSlots s → CountsSlots (framed_step g s) }
    ensures means { (t : State) → CountsSlots t → HaveOwnSlots t }
{}

/// In each state of a run in which no call gives a frame each alloca's block is a slot too. Frames begin blocks of
/// allocators, which were killed if they were freed.
pub fn slotted_states_have_own_blocks()
    ensures { (s : State) → IsSlottedState s → HaveNoSlots s → HaveOwnBlocks s }
{}
