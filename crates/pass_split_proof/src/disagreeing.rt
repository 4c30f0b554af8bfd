//! Worked framed modules with given frames with which their parts disagree, computed by the check. In each of them
//! what an instance that isn't Finished was given lives and is aligned.

ghost use Rattle.pass_split_proof.specs.disagreeing.Modules.{DisagreeOnCount, DisagreeOnFree, DisagreeOnIndex, DisagreeOnStart};

/// Four modules, of which elision has to make none. Frames of two coroutines begin in one block. The block of a
/// Suspended instance is started. An instance that was resumed frees. A ramp returns before begin, and its call is
/// counted.
#[tactic(none)]
pub fn given_frames_may_disagree()
    ensures index { DisagreeOnIndex }
    ensures start { DisagreeOnStart }
    ensures free { DisagreeOnFree }
    ensures count { DisagreeOnCount }
{}
