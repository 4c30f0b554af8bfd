//! A worked coroutine: its places are where they were worked out to be.

ghost use Rattle.pass_frames_code.specs.Worked as one;

/// Places of a coroutine with a slot that is used before begin and values that cross its suspend.
#[tactic(none)]
pub fn worked_places()
    ensures first { one.FirstPlace }
    ensures begin { one.BeginPlaces }
    ensures own { one.OwnPlaces }
    ensures others { one.OtherPlaces }
    ensures costs { one.JumpCost }
{}
