//! A begin where a caller gave room for the frame: in a stack block, or in a field of the caller's own frame.
//!
//! Frames of earlier instances may lie in the same block. What they leave to a new one is `LeavesRoom`.

ghost use Rattle.std.specs.Prelude.{ℕ, ◌≡◌, true, false, List, [], ◌∷◌, Some, slice_get};
ghost use Rattle.pass_proofs.specs.ir_base.declared.outcome.Outcome.{Outcome};
ghost use Rattle.pass_proofs.specs.ir_base.declared.outcome.Word.{Word};
ghost use Rattle.pass_proofs.specs.pass_intrinsics.declared.shape.Part.{Part};
ghost use Rattle.pass_split_proof.specs.code.Positions.{is_given};
ghost use Rattle.pass_split_proof.specs.given_begins.Beginning.{HasBegunWithin, IsAtGivenBegin};
ghost use Rattle.pass_split_proof.specs.given_begins.Room.{BeginsAt, ChangesOwner, HasRoom, IsBegun, IsPlaceFor};
ghost use Rattle.pass_split_proof.specs.given_begins.Runs.{AreAllLaidOut, GivesBlocks, NestsNoFrames};
ghost use Rattle.pass_split_proof.specs.given_begins.Worked.{a_callee, a_caller, a_stack_block, an_older, an_owned_stack_block, begun_in_stack, callers_begun, callers_memory, nested_given};
ghost use Rattle.pass_split_proof.specs.own_blocks.Own.{IsOwnState};
ghost use Rattle.pass_split_proof.specs.simulation.Followed.{IsFollowed};
ghost use Rattle.pass_split_proof.specs.states.Instances.{AreFrames, IsLaidOut, StandsThere, is_destroyer};
ghost use Rattle.pass_split_proof.specs.states.Memories.{AreBeside};
ghost use Rattle.pass_split_proof.specs.states.Related.{AreRelated};
ghost use Rattle.pass_proofs.specs.run_agreement.Machines.{IsFine};
ghost use Rattle.pass_proofs.specs.run_framed.Framed.{FramedGiven, framed_state_at, framed_step};
ghost use Rattle.run_access_worked.specs.run_laws_worked.Worked.{an_instance, frame_given};
ghost use Rattle.pass_proofs.specs.run_source_tables.Given.{Given as TheGiven};
ghost use Rattle.pass_proofs.specs.run_memory.Memory.{with_block};
ghost use Rattle.pass_proofs.specs.run_memory.declared.block.Kind.{Kind};
ghost use Rattle.pass_proofs.specs.run_memory.declared.block.MemoryBlock.{MemoryBlock};
ghost use Rattle.pass_proofs.specs.run_memory.declared.pointer.Value.{Value};
ghost use Rattle.run_access_worked.specs.run_plain.Plain.{PlainGiven};
ghost use Rattle.run_access_worked.specs.run_plain.declared.state.PlainState.{PlainState as ThePlainState};
ghost use Rattle.pass_proofs.specs.run_source.Source.{new_instance};
ghost use Rattle.pass_proofs.specs.run_source.declared.state.Instance.{Instance};
ghost use Rattle.pass_proofs.specs.run_source.declared.state.State.{State as TheState};

/// Where the owner of a block that no allocator gave changes, memories stand beside each other as before, and frames
/// stay.
pub fn owners_change_beside()
    ensures beside { (g : FramedGiven) (xs : List Instance) (m n : List MemoryBlock) (b : ℕ)
        (f : MemoryBlock → MemoryBlock) → ChangesOwner f → (u : MemoryBlock) → slice_get m b ≡ Some u
        → (u.kind ≡ Kind.Allocator → ⊥) → AreFrames g xs m n → AreBeside g xs m n
        → AreBeside g xs (with_block m b f) n }
    ensures frames { (g : FramedGiven) (xs : List Instance) (m n : List MemoryBlock) (b : ℕ)
        (f : MemoryBlock → MemoryBlock) → ChangesOwner f → (u : MemoryBlock) → slice_get m b ≡ Some u
        → (u.kind ≡ Kind.Allocator → ⊥) → AreFrames g xs m n → AreFrames g xs (with_block m b f) n }
{}

/// A frame that begins where there is room for it has its header stored, wherever it starts in its block. The memories
/// stand beside each other with the new frame.
pub fn given_frames_begin_beside()
    ensures { (g : FramedGiven) (xs : List Instance) (x : Instance) (m n : List MemoryBlock) → HasRoom g xs x m n
        → AreFrames g xs m n → AreBeside g xs m n → IsLaidOut g x.coroutine → IsBegun x → (resumes : Value)
        (destroyer : Part) → is_destroyer destroyer ≡ true → StandsThere g x.coroutine destroyer
        → is_given destroyer ≡ true → BeginsAt g xs x m n resumes destroyer }
{}

/// There is room in a place that each earlier frame of the block leaves.
pub fn left_places_have_room()
    ensures { (g : FramedGiven) (xs : List Instance) (x : Instance) (m n : List MemoryBlock) → IsPlaceFor g xs x m n
        → AreBeside g xs m n → HasRoom g xs x m n }
{}

/// A begin in a ramp that was given its frame is followed in five steps, the first of which its call has paid, where
/// there is room for the frame.
pub fn begins_of_given_frames_are_followed()
    ensures { (g : FramedGiven) (h : PlainGiven) (s : TheState) (t : ThePlainState) (r : AreRelated g h s t)
        → s.outcome ≡ Outcome.Running → IsFine (framed_step g s).outcome → (k : IsAtGivenBegin g h s t r)
        → ((begun : HasBegunWithin g s r.top.shape.begin k.frame)
        → HasRoom g s.instances (new_instance s.top.func begun.block begun.start) begun.after t.world.memory)
        → IsFollowed g h s t }
{}

/// A coroutine begins in a stack block of its size, and once that instance is over another one begins there. A frame
/// begins in a field of its caller's frame. Behind each begin the memories stand beside each other.
pub fn given_begins_are_worked_beside()
    ensures first { (given : TheGiven) (resumes : Value) (destroyer : Part) → is_destroyer destroyer ≡ true
        → StandsThere (frame_given given) 0 destroyer → is_given destroyer ≡ true
        → BeginsAt (frame_given given) [] an_instance (an_owned_stack_block ∷ []) (a_stack_block ∷ []) resumes
        destroyer }
    ensures again { (given : TheGiven) (resumes : Value) (destroyer : Part) → is_destroyer destroyer ≡ true
        → StandsThere (frame_given given) 0 destroyer → is_given destroyer ≡ true
        → BeginsAt (frame_given given) (an_older ∷ []) an_instance (an_owned_stack_block ∷ [])
        (begun_in_stack given resumes destroyer) resumes destroyer }
    ensures nested { (given : TheGiven) (resumes : Value) (destroyer other : Part) → is_destroyer destroyer ≡ true
        → StandsThere (nested_given given) 1 destroyer → is_given destroyer ≡ false → is_destroyer other ≡ true
        → StandsThere (nested_given given) 0 other → is_given other ≡ true
        → BeginsAt (nested_given given) (a_caller ∷ []) a_callee callers_memory (callers_begun given resumes destroyer)
        resumes other }
{}

/// In a run that gives frames in stack blocks alone, each aligned as the frame and for one coroutine, such a begin is
/// followed. What is asked speaks of the framed run alone.
pub fn begins_in_given_blocks_are_followed()
    ensures { (g : FramedGiven) (h : PlainGiven) (entry : ℕ) (args : List Word) → GivesBlocks g entry args
        → AreAllLaidOut g → NestsNoFrames g → (n : ℕ) (t : ThePlainState)
        (r : AreRelated g h (framed_state_at g entry args n) t)
        → IsOwnState g.given.code (framed_state_at g entry args n)
        → (framed_state_at g entry args n).outcome ≡ Outcome.Running
        → IsFine (framed_step g (framed_state_at g entry args n)).outcome
        → IsAtGivenBegin g h (framed_state_at g entry args n) t r
        → IsFollowed g h (framed_state_at g entry args n) t }
{}
