//! What laws on frames ask of the slots and frames of a run, in each of its states.

ghost use Rattle.std.specs.Prelude.{map};
ghost use Rattle.pass_frames_proof.specs.ir_laws.paths.woven_rules.Pairs.{AreDifferent};
ghost use Rattle.pass_frames_proof.specs.Asking.{AreInstancesPlaced};
ghost use Rattle.pass_frames_proof.specs.Related.{all_slots};
ghost use Rattle.pass_frames_proof.specs.Returning.{HasOwnSlots, HasSlotKinds, HasSlotsListed};
ghost use Rattle.pass_frames_proof.specs.Slotted.{HasListedSlots, HasSlotsApart, HasSlotsThere};
ghost use Rattle.run_slots.specs.Slots.{IsSlottedState};
ghost use Rattle.pass_frames_proof.specs.run_source.declared.state.State.{State};
ghost use Rattle.pass_frames_proof.specs.run_step.declared.world.Slot.{Slot as TheSlot};

/// In a state of a run each slot has a block that is there and wasn't killed, and no two have one. Blocks of allocas are
/// listed, instances begin at the start of allocators' blocks of their own, and slots of those that are over are dead.
pub fn slotted_states_have_their_slots()
    ensures there { (s : State) → IsSlottedState s → HasSlotsThere s }
    ensures once { (s : State) → IsSlottedState s → AreDifferent (map (λ (slot : TheSlot). slot.block) (all_slots s)) }
    ensures live { (s : State) → IsSlottedState s → HasListedSlots s }
    ensures listed { (s : State) → IsSlottedState s → HasSlotsListed s }
    ensures apart { (s : State) → IsSlottedState s → HasSlotsApart s }
    ensures own { (s : State) → IsSlottedState s → HasOwnSlots s }
    ensures kinds { (s : State) → IsSlottedState s → HasSlotKinds s }
    ensures instances { (s : State) → IsSlottedState s → AreInstancesPlaced s }
{}
