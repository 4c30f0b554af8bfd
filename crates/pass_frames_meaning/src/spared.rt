//! No live slot lies in the field of a value that crosses the suspend at which an instance is.

ghost use Rattle.pass_frames_meaning.specs.Spared.{AreFieldsApart, HasNoReturnsBelow};
ghost use Rattle.pass_frames_proof.specs.Asking.{AreInstancesPlaced};
ghost use Rattle.pass_frames_proof.specs.Related.{AreBuiltOf, Building};
ghost use Rattle.pass_frames_proof.specs.Returning.{HasSlotsListed};
ghost use Rattle.pass_frames_proof.specs.Slotted.{HasListedSlots, HasSlotsApart};
ghost use Rattle.pass_frames_proof.specs.Stepping.{AreFieldsSpared};
ghost use Rattle.pass_frames_proof.specs.run_source.declared.state.State.{State as TheState};

/// By what is known of slots and frames no byte of a live slot lies in the field of a value that crosses the suspend at
/// which an instance is. A block that is no slot is another one, or the frame's own, which is owned there.
pub fn fields_are_spared()
    ensures { (b : Building) (s t : TheState) (r : AreBuiltOf b s t) → HasListedSlots s → HasSlotsListed s
        → HasSlotsApart t → AreInstancesPlaced s → AreFieldsApart b s → HasNoReturnsBelow b s
        → AreFieldsSpared b s t r }
{}
