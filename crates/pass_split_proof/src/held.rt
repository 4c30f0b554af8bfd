//! Suspended instances of a framed run have their frames.
//!
//! A frame that begins an allocator's block has it until the instance is freed: no step frees an owned block, and the
//! blocks of slots are others (`frames_in_blocks_are_kept`). A frame that was given lies in a block of its caller's, and
//! that it lives is asked (`DoGivenFramesLive`).

ghost use Rattle.std.specs.Prelude.{◌≡◌, ℕ, true, List, Some, slice_get};
ghost use Rattle.pass_proofs.specs.ir_base.declared.outcome.Word.{Word};
ghost use Rattle.pass_split_proof.specs.held.Kept.{DoGivenFramesLive, IsKeptState, MarksNoHeap, MarksNoHeaps};
ghost use Rattle.pass_split_proof.specs.states.Instances.{is_held};
ghost use Rattle.pass_proofs.specs.run_framed.Framed.{FramedGiven, framed_state_at, framed_step};
ghost use Rattle.pass_proofs.specs.run_source.State.{function_of, is_suspended};
ghost use Rattle.pass_proofs.specs.run_source.declared.state.Instance.{Instance};
ghost use Rattle.pass_proofs.specs.run_source.declared.state.State.{State as TheState};
ghost use Rattle.pass_proofs.specs.run_step.Step.{fetch};

/// Each step of a framed run keeps frames that begin blocks of allocators, where markers mark no such block. So does a
/// run.
pub fn frames_in_blocks_are_kept()
    ensures step { (g : FramedGiven) (s : TheState) → IsKeptState s
        → MarksNoHeap g s (fetch (function_of g.given s) s.top.block s.top.at) → IsKeptState (framed_step g s) }
    ensures runs { (g : FramedGiven) (entry : ℕ) (args : List Word) → MarksNoHeaps g entry args → (n : ℕ)
        → IsKeptState (framed_state_at g entry args n) }
{}

/// In each state of a framed run the frame of a Suspended instance is there: its block lives, and isn't freed.
pub fn suspended_instances_are_held()
    ensures { (g : FramedGiven) (entry : ℕ) (args : List Word) → MarksNoHeaps g entry args
        → DoGivenFramesLive g entry args → (n i : ℕ) (x : Instance)
        → slice_get (framed_state_at g entry args n).instances i ≡ Some x → is_suspended x.status ≡ true
        → is_held (framed_state_at g entry args n).world.memory x ≡ true }
{}
