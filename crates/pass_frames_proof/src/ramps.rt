//! Calls of ramps: the framed run executes the front of the entry with the call.

ghost use Rattle.std.specs.Prelude.{◌≡◌, ◌≤◌, ℕ, Bool, List, Option, false, length, true};
ghost use Rattle.pass_frames_steps.specs.ir_model.declared.instr.Instr.{Instr};
ghost use Rattle.pass_frames_steps.specs.ir_model.declared.module.Module.{Module};
ghost use Rattle.pass_frames_steps.specs.pass_copies.Uses.{flag_at};
ghost use Rattle.pass_frames_steps.specs.Calling.{HasBlocks, IsAtCall, IsAtPlainCall};
ghost use Rattle.pass_frames_steps.specs.Followed.{IsFollowed};
ghost use Rattle.pass_frames_steps.specs.Framings.{IsFraming};
ghost use Rattle.pass_frames_steps.specs.Places.{Framing, edged, framed, marked};
ghost use Rattle.pass_frames_steps.specs.Ramps.{HasAllocasInFront, HasEntryFront, IsPlainEntry, IsRamp};
ghost use Rattle.pass_frames_steps.specs.Related.{AreBuiltOf, Building, is_coroutine};
ghost use Rattle.pass_frames_steps.specs.Stepping.{AreGiven};
ghost use Rattle.pass_frames_steps.specs.pass_renewed_proof.Renewed.{RenewedGiven};
ghost use Rattle.pass_frames_steps.specs.rule_laws.rules.function_rules.Kept.{KeepsFunctionRules};
ghost use Rattle.pass_frames_steps.specs.run_memory.declared.pointer.Value.{Value};
ghost use Rattle.pass_frames_steps.specs.run_source.declared.state.State.{State};
ghost use Rattle.pass_frames_steps.specs.run_step.Step.{has_markers};

/// In front of the entry stand all allocas, and behind them stores alone: of addresses of temporaries, and of
/// parameters.
pub fn entries_have_their_fronts()
    ensures { (x : Framing) → IsFraming x → IsPlainEntry x → HasEntryFront x }
{}

/// Among these allocas are those of slots that lie in no frame, of temporaries and of cells.
pub fn entries_have_their_allocas()
    ensures { (x : Framing) → IsFraming x → IsPlainEntry x → HasAllocasInFront x }
{}

/// Markers in a framed form are of slots of its ramp: of no other name, so of none that is new.
pub fn markers_are_of_ramp_slots()
    ensures others { (m : Module) (k : ℕ) (x : Framing) → IsFraming x → KeepsFunctionRules m k (framed x) → (name : ℕ)
        → flag_at (marked x) name ≡ false → has_markers (framed x) name ≡ false }
    ensures new { (m : Module) (k : ℕ) (x : Framing) → IsFraming x → KeepsFunctionRules m k (framed x) → (name : ℕ)
        → length (edged x).names ≤ name → has_markers (framed x) name ≡ false }
{}

/// A call of a ramp is followed, from a coroutine and from a function that is none. With the call the framed run
/// executes all allocas, and stores parameters and addresses of temporaries into their cells.
pub fn calls_of_ramps_are_followed()
    ensures coroutines { (b : Building) (g : RenewedGiven) → AreGiven b g → (s t : State) → AreBuiltOf b s t → (i : Instr)
        (func : ℕ) (args : List Value) (result : Option ℕ) (must_tail : Bool)
        → IsAtCall b g s i func args result must_tail → is_coroutine b func ≡ true
        → IsRamp b.framed_code func (b.framing func) args → HasBlocks t → IsFollowed b g s t }
    ensures others { (b : Building) (g : RenewedGiven) → AreGiven b g → (s t : State) → AreBuiltOf b s t → (i : Instr)
        (func : ℕ) (args : List Value) (result : Option ℕ) (must_tail : Bool)
        → IsAtPlainCall b g s i func args result must_tail → is_coroutine b func ≡ true
        → IsRamp b.framed_code func (b.framing func) args → HasBlocks t → IsFollowed b g s t }
{}
