//! Slots of a frame lie where the layout has them.

ghost use Rattle.std.specs.Prelude.{ℕ};
ghost use Rattle.pass_frames_proof.specs.Framings.{IsFraming};
ghost use Rattle.pass_frames_proof.specs.Offsets.{AreHeldOnce};
ghost use Rattle.pass_frames_proof.specs.Places.{Framing};
ghost use Rattle.pass_frames_proof.specs.Stepping.{AreOffsetsPlaced};
ghost use Rattle.pass_frames_proof.specs.rule_laws.rules.function_rules.Kept.{KeepsFunctionRules};

/// A frame holds each value and slot once, because each name is defined once. So the offset of a slot is that of its place
/// among what is held.
pub fn slots_have_their_offsets()
    ensures once { (x : Framing) → IsFraming x → (position : ℕ) → KeepsFunctionRules x.code position x.function
        → AreHeldOnce x.contents.held }
    ensures offsets { (x : Framing) → IsFraming x → (position : ℕ) → KeepsFunctionRules x.code position x.function
        → AreOffsetsPlaced x }
{}
