//! What each state of a framed run has in which callees may be given frames.

ghost use Rattle.std.specs.Prelude.{List, None, Option, Some, false, slice_get, true, ◌≡◌, ℕ, ℤ};
ghost use Rattle.pass_elide_proof.specs.Beginning.{HaveFrames};
ghost use Rattle.pass_elide_proof.specs.Elision.{Elision, elided, framed};
ghost use Rattle.pass_elide_proof.specs.Match.{instance_in, is_given_mode};
ghost use Rattle.pass_elide_proof.specs.Sound.{IsSoundState, KnowsAllocas, NestsNone};
ghost use Rattle.pass_elide_proof.specs.StepCases.{LeadsTo};
ghost use Rattle.pass_proofs.specs.frame_layout.declared.layout.Layout.{Layout as TheLayout};
ghost use Rattle.pass_proofs.specs.ir_base.declared.outcome.Outcome.{Outcome};
ghost use Rattle.pass_proofs.specs.ir_base.declared.outcome.Word.{Word};
ghost use Rattle.pass_proofs.specs.ir_model.declared.module.Module.{Module as TheModule};
ghost use Rattle.pass_proofs.specs.run_agreement.Machines.{IsFine};
ghost use Rattle.pass_proofs.specs.run_framed.Framed.{FramedGiven, framed_given, framed_state_at, framed_step, is_given};
ghost use Rattle.pass_proofs.specs.run_memory.Memory.{is_live};
ghost use Rattle.pass_proofs.specs.run_memory.declared.block.Kind.{Kind};
ghost use Rattle.pass_proofs.specs.run_memory.declared.block.MemoryBlock.{MemoryBlock};
ghost use Rattle.pass_proofs.specs.run_source.State.{is_finished};
ghost use Rattle.pass_proofs.specs.run_source.declared.state.Instance.{Instance};
ghost use Rattle.pass_proofs.specs.run_source.declared.state.State.{State};
ghost use Rattle.run_slots.specs.Slots.{IsSlottedState};

/// Where no frame has room for another one, frames begin their blocks. A stack block is owned by an instance that isn't
/// Finished. Activations have slots of their functions' allocas.
pub fn framed_states_are_sound()
    ensures step { (g : FramedGiven) (s : State) → KnowsAllocas g → NestsNone g → IsSoundState g s
        → IsSoundState g (framed_step g s) }
    ensures runs { (g : FramedGiven) (entry : ℕ) (args : List Word) (n : ℕ) → KnowsAllocas g → NestsNone g
        → IsSoundState g (framed_state_at g entry args n) }
{}

/// The facts of a framed run know each alloca. Sound states have what the laws on begins, frees, rooms and saves ask,
/// where the framed run gives no frames.
pub fn sound_states_have_frames()
    ensures allocas { (m : TheModule) (layouts : List TheLayout) (answers : List ℤ)
        → KnowsAllocas (framed_given m layouts answers) }
    ensures frames { (e : Elision) (s t : State) → IsSlottedState s → IsSoundState (framed e) s
        → IsSoundState (elided e) t → HaveFrames e s t }
    ensures unowned { (g : FramedGiven) (t : State) → IsSoundState g t → (block : ℕ) (z : MemoryBlock)
        → slice_get t.world.memory block ≡ Some z → z.kind ≡ Kind.Stack
        → ((i : ℕ) (y : Instance) → slice_get t.instances i ≡ Some y → y.block ≡ block
        → is_finished y.status ≡ true) → z.owned ≡ None }
    ensures given { (g : FramedGiven) (t : State) → IsSoundState g t → (y : Instance)
        → instance_in t.instances t.top.instance ≡ Some y → is_given_mode t.top.mode ≡ true
        → is_given t.world.memory y ≡ true }
    ensures own { (g : FramedGiven) (s : State) → IsSoundState g s → (x : Instance)
        → instance_in s.instances s.top.instance ≡ Some x → x.coroutine ≡ s.top.func }
    ensures allocated { (s : State) → IsSlottedState s → (i : ℕ) (x : Instance)
        → slice_get s.instances i ≡ Some x → is_given s.world.memory x ≡ false }
    ensures dead { (s : State) → IsSlottedState s → (i : ℕ) (x : Instance) → slice_get s.instances i ≡ Some x
        → (z : MemoryBlock) → x.freed ≡ true → slice_get s.world.memory x.block ≡ Some z
        → is_live z.life ≡ false }
{}

/// A step of a framed run that isn't undefined is one of the cases that are written down, with the state behind it.
pub fn steps_are_one_of_the_cases()
    ensures { (g : FramedGiven) (s : State) → s.outcome ≡ Outcome.Running → IsFine (framed_step g s).outcome
        → LeadsTo g s (framed_step g s) }
{}
