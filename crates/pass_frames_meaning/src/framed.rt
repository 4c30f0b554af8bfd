//! The frame of each instance that isn't freed is there, in each state of a run by hooks.

ghost use Rattle.std.specs.Prelude.{◌≡◌, ◌<◌, ℕ, List, Some, false, slice_get, true};
ghost use Rattle.pass_frames_proof.specs.ir_base.declared.outcome.Word.{Word};
ghost use Rattle.pass_frames_proof.specs.ir_model.Names.{function_at};
ghost use Rattle.pass_frames_meaning.specs.Called.{IsCalledState};
ghost use Rattle.pass_frames_meaning.specs.Framed.{AreFramesHeld, HasAllocas, IsHeldState, KeepsAllocas, KeepsHeld};
ghost use Rattle.pass_frames_meaning.specs.Framed.{MarksNoFrame};
ghost use Rattle.pass_frames_meaning.specs.Setting.{Setting};
ghost use Rattle.pass_frames_proof.specs.Related.{is_coroutine};
ghost use Rattle.pass_frames_proof.specs.Slotted.{HasFrameThere};
ghost use Rattle.pass_renewed_meaning.specs.Rules.{KeepsStepRules};
ghost use Rattle.pass_frames_proof.specs.pass_renewed_proof.Renewed.{RenewedGiven, renewed_step};
ghost use Rattle.pass_frames_proof.specs.pass_renewed_proof.SlotRules.{KeepsAllSlots};
ghost use Rattle.pass_frames_proof.specs.run_framed.Framed.{layout_of};
ghost use Rattle.pass_renewed_meaning.specs.run_hooks.Away.{KeepsAllPlaceRules};
ghost use Rattle.pass_renewed_meaning.specs.run_hooks.Hooks.{Hooks, step_of};
ghost use Rattle.pass_renewed_meaning.specs.run_hooks.Meanings.{renewed_hooks};
ghost use Rattle.pass_renewed_meaning.specs.run_hooks.Reached.{AllHaveSwitches, IsReachedState};
ghost use Rattle.run_slots.specs.Slots.{IsSlottedState};
ghost use Rattle.pass_frames_proof.specs.run_source.Source.{first_state};
ghost use Rattle.pass_frames_proof.specs.run_source.declared.state.Instance.{Instance as TheInstance};
ghost use Rattle.pass_frames_proof.specs.run_source.declared.state.State.{State as TheState};
ghost use Rattle.pass_frames_proof.specs.run_source_tables.Given.{frame_of};
ghost use Rattle.pass_frames_proof.specs.run_step.Runs.{iterate};
ghost use Rattle.pass_renewed_meaning.specs.run_types.Rules.{KeepsAllTypes};

/// A begin takes a live block that nobody owns and that has the printed size, and owns it to that. A deallocator kills
/// only what nobody owns, slots that die lie in no frame, and no marker is of a frame's block. So each frame stays
/// until its instance is freed.
pub fn frames_stay_held()
    ensures step { (h : Hooks) → KeepsHeld h → (s : TheState) → IsSlottedState s → MarksNoFrame h s
        → AreFramesHeld h.given.sizes s.world.memory s.instances
        → AreFramesHeld h.given.sizes (step_of h s).world.memory (step_of h s).instances }
    ensures hooks { (g : RenewedGiven) → KeepsHeld (renewed_hooks g) }
    ensures renewed { (g : RenewedGiven) (entry : ℕ) (args : List Word) (n : ℕ)
        → ((k : ℕ) → k < n → MarksNoFrame (renewed_hooks g)
        (iterate (renewed_step g) k (first_state g.given.code entry args)))
        → IsHeldState g.given.sizes (iterate (renewed_step g) n (first_state g.given.code entry args)) }
{}

/// Layouts have the printed sizes. So the frame of an instance of a coroutine that isn't freed is there, as its layout
/// says.
pub fn held_frames_are_there()
    ensures there { (c : Setting)
        → ((func : ℕ) → is_coroutine c.b func ≡ true
        → (layout_of c.b.given.layouts func).size ≡ (frame_of c.g.given.sizes func).size)
        → (s : TheState) → IsSlottedState s → AreFramesHeld c.g.given.sizes s.world.memory s.instances
        → (i : ℕ) (x : TheInstance) → slice_get s.instances i ≡ Some x → is_coroutine c.b x.coroutine ≡ true
        → x.freed ≡ false → HasFrameThere c.b s x }
    ensures same { (c : Setting) (s : TheState) → IsSlottedState s
        → AreFramesHeld c.g.given.sizes s.world.memory s.instances → (i : ℕ) (x : TheInstance)
        → slice_get s.instances i ≡ Some x
        → (layout_of c.b.given.layouts x.coroutine).size ≡ (frame_of c.g.given.sizes x.coroutine).size
        → x.freed ≡ false → HasFrameThere c.b s x }
{}

/// The name of an alloca has no address, or one in an alloca's block, in each state of a run that makes slots anew. A
/// marker takes such a name, and frames lie in blocks of allocators. So no marker is of a frame's block, and frames
/// stay.
pub fn markers_mark_no_frame()
    ensures step { (h : Hooks) → KeepsAllocas h → KeepsAllTypes h.given.code → (s : TheState)
        → IsReachedState h.given s → IsCalledState h.given.code s → HasAllocas h.given.code s
        → HasAllocas h.given.code (step_of h s) }
    ensures hooks { (g : RenewedGiven) → KeepsAllSlots g.given.code g.keep g.flags g.roots
        → KeepsAllocas (renewed_hooks g) }
    ensures marks { (h : Hooks) → ((func : ℕ) → KeepsStepRules h.given.code (function_at h.given.code func))
        → (s : TheState) → IsSlottedState s → HasAllocas h.given.code s → MarksNoFrame h s }
    ensures renewed { (g : RenewedGiven) (entry : ℕ) (args : List Word) → AllHaveSwitches g.given.code
        → KeepsAllPlaceRules g.given → KeepsAllTypes g.given.code
        → KeepsAllSlots g.given.code g.keep g.flags g.roots
        → ((func : ℕ) → KeepsStepRules g.given.code (function_at g.given.code func)) → (n : ℕ)
        → MarksNoFrame (renewed_hooks g) (iterate (renewed_step g) n (first_state g.given.code entry args)) }
    ensures frames { (g : RenewedGiven) (entry : ℕ) (args : List Word) → AllHaveSwitches g.given.code
        → KeepsAllPlaceRules g.given → KeepsAllTypes g.given.code
        → KeepsAllSlots g.given.code g.keep g.flags g.roots
        → ((func : ℕ) → KeepsStepRules g.given.code (function_at g.given.code func)) → (n : ℕ)
        → IsHeldState g.given.sizes (iterate (renewed_step g) n (first_state g.given.code entry args)) }
{}
