//! Rights of frames that lie somewhere else.

ghost use Rattle.std.specs.Prelude.{List, true, ◌≡◌, ◌≤◌, ℕ};
ghost use Rattle.pass_elide_proof.specs.Frames.{AreJudgedAlike};
ghost use Rattle.pass_proofs.specs.run_framed.Framed.{FramedGiven, frame_rights};
ghost use Rattle.pass_proofs.specs.run_laws.memory.Standing.{HasRights};
ghost use Rattle.pass_proofs.specs.run_memory.declared.block.MemoryBlock.{MemoryBlock};
ghost use Rattle.pass_proofs.specs.run_source.declared.state.Instance.{Instance};

/// What may be done with a block of a frame may be done with the bytes of another one, which are judged alike.
pub fn alike_frames_give_alike_rights()
    ensures { (g h : FramedGiven) (xs ys : List Instance) (b c by size : ℕ) (x y : MemoryBlock)
        → h.layouts ≡ g.layouts → AreJudgedAlike g h xs ys b c by size x y → x.size ≤ size
        → HasRights (frame_rights g xs) (frame_rights h ys) (record { block = c; offset = by; is_seen = true }) b x y }
{}
