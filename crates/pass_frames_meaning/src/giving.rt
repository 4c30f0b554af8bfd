//! No frame of an instance that is suspended lies in a block that is given back.

ghost use Rattle.std.specs.Prelude.{◌≡◌, Ok};
ghost use Rattle.pass_frames_meaning.specs.Giving.{AreFramesOwned, HasNoHeapSlots, HasNoReturns};
ghost use Rattle.pass_frames_proof.specs.Asking.{AreInstancesPlaced};
ghost use Rattle.pass_frames_proof.specs.Heaps.{IsGivingBack};
ghost use Rattle.pass_frames_proof.specs.Related.{AreBuiltOf, Building};
ghost use Rattle.pass_frames_proof.specs.Returning.{HasSlotsListed};
ghost use Rattle.pass_frames_proof.specs.Slotted.{HasListedSlots};
ghost use Rattle.pass_frames_proof.specs.run_memory.declared.pointer.Value.{Value};
ghost use Rattle.run_slots.specs.Slots.{IsSlottedState};
ghost use Rattle.pass_frames_proof.specs.run_source.Source.{deallocate};
ghost use Rattle.pass_frames_proof.specs.run_source.declared.state.State.{State as TheState};

/// A block may be given back where that is defined. Nothing of the source lives in its home any more, and no instance that
/// is suspended owns it: else it couldn't be given back.
pub fn blocks_that_may_be_given_back()
    ensures { (b : Building) (s t : TheState) (r : AreBuiltOf b s t) → HasListedSlots s → HasSlotsListed s
        → AreInstancesPlaced s → AreFramesOwned s → HasNoHeapSlots t → HasNoReturns b s → (p : Value)
        (after : TheState) → deallocate s p ≡ Ok after → IsGivingBack b s t r p }
{}

/// In a state of a run instances own their blocks until these are freed. Slots have blocks of allocas.
pub fn slotted_states_own_their_frames()
    ensures owned { (s : TheState) → IsSlottedState s → AreFramesOwned s }
    ensures heapless { (s : TheState) → IsSlottedState s → HasNoHeapSlots s }
{}
