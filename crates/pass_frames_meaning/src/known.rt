//! What steps of coroutines ask of a state is known of each state of a run that makes slots anew.

ghost use Rattle.std.specs.Prelude.{◌≡◌, ℕ, Bool, true, false, Option};
ghost use Rattle.pass_frames_proof.specs.ir_base.declared.outcome.Outcome.{Outcome};
ghost use Rattle.pass_frames_proof.specs.ir_model.Ty.{Ty};
ghost use Rattle.pass_frames_proof.specs.ir_model.declared.operand.Arg.{Arg};
ghost use Rattle.pass_frames_meaning.specs.Called.{IsCalledState};
ghost use Rattle.pass_frames_meaning.specs.Coroutines.{HasStorables, MayFollow, MayMark};
ghost use Rattle.pass_frames_meaning.specs.Executed.{IsExecutedState, KeepAllOwn};
ghost use Rattle.pass_frames_meaning.specs.Known.{IsKnown, KeepsKnown, KeepsMarks};
ghost use Rattle.pass_frames_meaning.specs.Marks.{AreMarkedSlotsThere, KeepsMarkers};
ghost use Rattle.pass_frames_meaning.specs.Setting.{KeepsAll, Setting};
ghost use Rattle.pass_frames_proof.specs.Marking.{IsWholeMarked, marking};
ghost use Rattle.pass_frames_proof.specs.Related.{AreBuiltOf, is_coroutine};
ghost use Rattle.pass_frames_proof.specs.pass_renewed_proof.Renewed.{renewed_step};
ghost use Rattle.run_slots.specs.Slots.{IsSlottedState};
ghost use Rattle.pass_frames_proof.specs.run_source.State.{function_of};
ghost use Rattle.pass_frames_proof.specs.run_source.declared.state.State.{State as TheState};
ghost use Rattle.pass_frames_proof.specs.run_states.sound_states.Sound.{IsSound};
ghost use Rattle.pass_frames_proof.specs.run_step.Step.{AtInstr, fetch};
ghost use Rattle.pass_frames_proof.specs.run_step.declared.world.Slot.{Slot};

/// An operand that names a slot in a frame has its address, or poison, and begin's value is the frame's address: it is
/// used behind begin. What values of kept names may be is left to ask.
pub fn operands_are_known()
    ensures { (c : Setting) (counts own : ℕ → ℕ → Bool) → KeepsAll c → KeepsKnown c counts → (s : TheState)
        → IsKnown c counts own s → s.outcome ≡ Outcome.Running → is_coroutine c.b s.top.func ≡ true
        → HasStorables c (renewed_step c.g s) → MayFollow c s }
{}

/// In a function that is no coroutine a marker stands behind its alloca, whose name has the address of its slot.
pub fn slots_of_markers_are_known()
    ensures { (c : Setting) (own : ℕ → ℕ → Bool) → KeepAllOwn c.g.given own → KeepsMarks c own → (s t : TheState)
        → AreBuiltOf c.b s t → IsSound c.g.given.code s → IsCalledState c.g.given.code s → IsSlottedState s
        → IsExecutedState c.g.given.code own s → s.outcome ≡ Outcome.Running → is_coroutine c.b s.top.func ≡ false
        → (starts must_tail : Bool) (ty : Option Ty) (size : Arg) (u : Ty) (name : ℕ)
        → fetch (function_of c.g.given s) s.top.block s.top.at ≡ AtInstr (marking starts must_tail ty size u name)
        → (slot : Slot) × IsWholeMarked c.b s name slot }
{}

/// So is the slot of a marker of a coroutine, by its class and by where its activation is, but for what is left: its
/// field
/// in the frame behind begin, its temporary before begin, and that no resumed activation meets a ramp slot's marker.
pub fn slots_of_markers_of_coroutines_are_known()
    ensures { (c : Setting) (counts own : ℕ → ℕ → Bool) → KeepsAll c → KeepsMarkers c counts own → (s t : TheState)
        → (r : AreBuiltOf c.b s t) → IsKnown c counts own s → s.outcome ≡ Outcome.Running
        → is_coroutine c.b s.top.func ≡ true → (starts : Bool)
        → ((must_tail : Bool) (ty : Option Ty) (size : Arg) (u : Ty) (name : ℕ)
        → fetch (function_of c.g.given s) s.top.block s.top.at ≡ AtInstr (marking starts must_tail ty size u name)
        → AreMarkedSlotsThere c own s t r name starts) → MayMark c s t r starts }
{}
