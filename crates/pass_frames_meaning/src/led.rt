//! An alloca's name leads to its slot, and begin's to the activation's own frame, in each state of a run by hooks.

ghost use Rattle.std.specs.Prelude.{◌≡◌, ◌⊎◌, ℕ, Bool, List, Some, false, true};
ghost use Rattle.std.specs.List.{Contains};
ghost use Rattle.pass_frames_proof.specs.ir_base.declared.outcome.Word.{Word};
ghost use Rattle.pass_frames_proof.specs.ir_laws.facts.sound_states.Named.{AreLocalsNamed};
ghost use Rattle.pass_frames_proof.specs.ir_model.Names.{function_at};
ghost use Rattle.pass_frames_proof.specs.ir_model.declared.operand.Intrinsic.{Intrinsic};
ghost use Rattle.pass_frames_proof.specs.ir_paths.declared.point.Point.{Point};
ghost use Rattle.pass_frames_meaning.specs.Called.{IsCalledState};
ghost use Rattle.pass_frames_meaning.specs.Led.{IsLed, IsLedState, KeepAllNames};
ghost use Rattle.pass_frames_meaning.specs.Led.{KeepsLed, KeepsLedTables};
ghost use Rattle.pass_frames_proof.specs.pass_kept_proof.SuspendRules.{IsCallAt};
ghost use Rattle.pass_frames_proof.specs.pass_renewed_proof.Renewed.{RenewedGiven, renewed_step};
ghost use Rattle.pass_frames_proof.specs.pass_renewed_proof.SlotRules.{KeepsAllSlots};
ghost use Rattle.pass_frames_proof.specs.run_framed.Framed.{begin_name};
ghost use Rattle.pass_renewed_meaning.specs.run_hooks.Away.{KeepsAllPlaceRules};
ghost use Rattle.pass_renewed_meaning.specs.run_hooks.Hooks.{Hooks, step_of};
ghost use Rattle.pass_renewed_meaning.specs.run_hooks.Meanings.{renewed_hooks};
ghost use Rattle.pass_renewed_meaning.specs.run_hooks.Reached.{AllHaveSwitches, IsReachedState};
ghost use Rattle.pass_frames_proof.specs.run_memory.declared.pointer.Value.{Value};
ghost use Rattle.pass_frames_proof.specs.run_source.Source.{first_state};
ghost use Rattle.pass_frames_proof.specs.run_source.State.{address_in, function_of};
ghost use Rattle.pass_frames_proof.specs.run_source.declared.state.Instance.{Instance};
ghost use Rattle.pass_frames_proof.specs.run_source.declared.state.State.{State as TheState};
ghost use Rattle.pass_frames_proof.specs.run_states.sound_states.Sound.{HasValues, IsSound};
ghost use Rattle.pass_frames_proof.specs.run_step.Runs.{iterate};
ghost use Rattle.pass_frames_proof.specs.run_step.Values.{pointer_to, value_in};
ghost use Rattle.pass_frames_proof.specs.run_step.declared.world.Slot.{Slot as TheSlot};
ghost use Rattle.pass_renewed_meaning.specs.run_types.Rules.{KeepsAllTypes};
ghost use Rattle.std.specs.Prelude.{slice_get};

/// A step keeps it by hooks that place slots, begin and hand on values as `KeepsLed` says. Those of a run that makes
/// slots anew do.
pub fn led_states_stay()
    ensures step { (h : Hooks) (counts : ℕ → ℕ → Bool) → KeepsLed h counts → KeepAllNames h.given counts
        → KeepsAllTypes h.given.code → (s : TheState) → IsReachedState h.given s → IsCalledState h.given.code s
        → HasValues h.given.code s.top.func s.top.values → IsLedState h.given.code counts s
        → IsLedState h.given.code counts (step_of h s) }
    ensures renewed { (g : RenewedGiven) (counts : ℕ → ℕ → Bool) → KeepAllNames g.given counts
        → KeepsLedTables g counts → KeepsLed (renewed_hooks g) counts }
{}

/// What it asks of tables comes of what is asked of slots that are made anew, but for two things. What counts isn't
/// flagged, and a resume hands on begin's value.
pub fn tables_of_slots_keep_names()
    ensures { (g : RenewedGiven) (counts : ℕ → ℕ → Bool) → KeepsAllSlots g.given.code g.keep g.flags g.roots
        → KeepAllNames g.given counts → ((func v : ℕ) → counts func v ≡ true → g.flags func v ≡ false)
        → ((func : ℕ) (u : Point) (v : ℕ) → IsCallAt Intrinsic.CoroSuspend (function_at g.given.code func) u
        → begin_name (function_at g.given.code func) ≡ Some v → g.keep func u v ≡ true) → KeepsLedTables g counts }
{}

/// Such a run has sound states: each name of a function has a value or none, and instances are of their activations'
/// functions.
pub fn runs_that_make_slots_anew_stay_sound()
    ensures { (g : RenewedGiven) (entry : ℕ) (args : List Word) → AllHaveSwitches g.given.code
        → KeepsAllPlaceRules g.given → KeepsAllTypes g.given.code → AreLocalsNamed g.given.code
        → (n : ℕ) → IsSound g.given.code (iterate (renewed_step g) n (first_state g.given.code entry args)) }
{}

/// Names lead there in each state of a run that makes slots anew.
pub fn names_of_runs_lead_to_slots()
    ensures { (g : RenewedGiven) (counts : ℕ → ℕ → Bool) (entry : ℕ) (args : List Word) → AllHaveSwitches g.given.code
        → KeepsAllPlaceRules g.given → KeepsAllTypes g.given.code → AreLocalsNamed g.given.code
        → KeepAllNames g.given counts → KeepsLedTables g counts
        → (n : ℕ) → IsLedState g.given.code counts (iterate (renewed_step g) n (first_state g.given.code entry args)) }
{}

/// What laws on frames ask of slots in a frame. Begin's value is the address of the activation's instance, if it has
/// one. The name of an alloca has the address of one of that instance's slots, or poison.
pub fn led_activations_have_their_frame()
    ensures begun { (g : RenewedGiven) (counts : ℕ → ℕ → Bool) (s : TheState) → IsLed g.given.code counts s
        → (number : ℕ) (x : Instance) → s.top.instance ≡ Some number → slice_get s.instances number ≡ Some x → (v : ℕ)
        → begin_name (function_of g.given s) ≡ Some v → value_in s.top.values v ≡ address_in x.block x.start }
    ensures leads { (g : RenewedGiven) (counts : ℕ → ℕ → Bool) (s : TheState) → IsLed g.given.code counts s
        → (number : ℕ) (x : Instance) → s.top.instance ≡ Some number → slice_get s.instances number ≡ Some x → (v : ℕ)
        → counts s.top.func v ≡ true
        → (value_in s.top.values v ≡ Value.Poison)
        ⊎ ((slot : TheSlot) × Contains x.slots slot × (slot.alloca ≡ v)
        × (value_in s.top.values v ≡ pointer_to slot.block)) }
{}
