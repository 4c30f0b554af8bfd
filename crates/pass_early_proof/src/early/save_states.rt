//! A state of a source run, and that of the module whose saves are written out.
//!
//! Whatever stands where no save is written does the same to both states (`lone_steps_are_kept`). A suspend without a
//! save does what the written save and the suspend do one after the other (`written_saves_are_made`,
//! `suspends_come_behind`).

ghost use Rattle.std.specs.Prelude.{◌≡◌, ℕ, ℤ, List, Option, true, Ok, Some, slice_get, length};
ghost use Rattle.rule_laws.specs.run_source.Source.{given, go_to, context_of, save, new_slot, deallocate, enter, return, save_for, act, continue};
ghost use Rattle.rule_laws.specs.run_source.State.{own_instance, function_of, work_of, next, point_of, gives};
ghost use Rattle.rule_laws.specs.run_source.declared.state.State.{State};
ghost use Rattle.ir_model.specs.Names.{function_at};
ghost use Rattle.ir_model.specs.declared.module.Frame.{Frame};
ghost use Rattle.ir_model.specs.declared.module.Module.{Module};
ghost use Rattle.pass_early_proof.specs.early.saves.SavesWritten.{saves_written, is_bare};
ghost use Rattle.rule_laws.specs.ir_laws.paths.expanded.Tokens.{HasNamedTokens};
ghost use Rattle.pass_early_proof.specs.early.save_states.SavedState.{HasRoom, IsOwnedBy, saved_result, saved_state, StandsAlone, saved_action, IsNamedBelow};
ghost use Rattle.rule_laws.specs.ir_laws.facts.sound_states.Named.{HasNamedPhis, HasNamedResults, HasNamedParams, AreLocalsNamed};
ghost use Rattle.rule_laws.specs.run_step.Step.{action_of, fetch};
ghost use Rattle.rule_laws.specs.run_step.declared.world.Slot.{Slot};
ghost use Rattle.rule_laws.specs.run_memory.declared.pointer.Value.{Value};
ghost use Rattle.rule_laws.specs.ir_paths.declared.point.Point.{Point};
ghost use Rattle.pass_early_proof.specs.early.saves.Spots.{back_of, front_of, own_saves};
ghost use Rattle.ir_model.specs.declared.instr.Instr.{Instr};
ghost use Rattle.rule_laws.specs.run_step.Results.{and_then};
ghost use Rattle.rule_laws.specs.ir_laws.facts.expanded.Spots.{instrs_in};
ghost use Rattle.rule_laws.specs.ir_laws.facts.expanded.Tokens.{IsNamedResult};
ghost use Rattle.rule_laws.specs.ir_laws.paths.saved.SavedState.{AreTokensNamed};
ghost use Rattle.run_states.specs.sound_states.Sound.{IsSound};

/// A branch does the same, the windows that it leaves among it.
pub fn branches_are_kept()
    ensures { (m : Module) (sizes : List Frame) (answers : List ℤ) (s : State) (label : ℕ) → HasNamedPhis (function_at m s.top.func) → HasNamedTokens (function_at m s.top.func) → HasRoom m s → IsOwnedBy s (own_instance s) → go_to (given (saves_written m) sizes answers) (saved_state m s) label ≡ saved_result m (go_to (given m sizes answers) s label) }
{}

/// What stands at a place before which no save is written has the same action.
pub fn actions_are_kept()
    ensures { (m : Module) (sizes : List Frame) (answers : List ℤ) (s : State) → HasNamedResults (function_at m s.top.func) → HasRoom m s → StandsAlone m s → action_of (context_of (given (saves_written m) sizes answers) (saved_state m s)) (work_of (saved_state m s)) (fetch (function_of (given (saves_written m) sizes answers) (saved_state m s)) s.top.block (saved_state m s).top.at) ≡ saved_action (function_at m s.top.func) (action_of (context_of (given m sizes answers) s) (work_of s) (fetch (function_at m s.top.func) s.top.block s.top.at)) }
{}

/// A new slot goes to the same owner.
pub fn new_slots_are_kept()
    ensures { (m : Module) (sizes : List Frame) (answers : List ℤ) (s : State) (slot : Slot) → HasNamedTokens (function_at m s.top.func) → new_slot (given (saves_written m) sizes answers) (saved_state m s) slot ≡ saved_state m (new_slot (given m sizes answers) s slot) }
{}

/// A deallocation does the same.
pub fn deallocations_are_kept()
    ensures { (m : Module) (s : State) (p : Value) → StandsAlone m s → deallocate (saved_state m s) p ≡ saved_result m (deallocate s p) }
{}

/// A call enters its function in the same way.
pub fn calls_are_kept()
    ensures { (m : Module) (sizes : List Frame) (answers : List ℤ) (s : State) (func : ℕ) (args : List Value) (result : Option ℕ) → StandsAlone m s → HasNamedParams (function_at m func) → enter (given (saves_written m) sizes answers) (saved_state m s) func args result ≡ saved_state m (enter (given m sizes answers) s func args result) }
{}

/// A return goes back in the same way.
pub fn returns_are_kept()
    ensures { (m : Module) (s : State) (v : Option Value) → IsNamedBelow s.top.result s.below → return (saved_state m s) v ≡ saved_result m (return s v) }
{}

/// A save keeps the same, with its points moved.
pub fn saves_are_kept()
    ensures { (m : Module) (s : State) (save suspend : Point) → IsOwnedBy s (own_instance s) → save_for (saved_state m s) (front_of (function_at m s.top.func) save) (back_of (function_at m s.top.func) suspend) ≡ saved_result m (save_for s save suspend) }
{}

/// The save that is written right before a suspend keeps what the suspend itself keeps in the source.
pub fn written_saves_are_made()
    ensures { (m : Module) (sizes : List Frame) (answers : List ℤ) (s : State) (i : Instr) → HasNamedTokens (function_at m s.top.func) → IsOwnedBy s (own_instance s) → slice_get (instrs_in (slice_get (function_at m s.top.func).blocks s.top.block)) s.top.at ≡ Some i → is_bare (function_at m s.top.func).coroutine i ≡ true → save (given (saves_written m) sizes answers) (saved_state m s) ≡ and_then (saved_result m (save_for s (point_of s) (point_of s))) (λ t. Ok (next t)) }
{}

/// The suspend behind it then comes to where the source is behind the suspend.
pub fn suspends_come_behind()
    ensures { (m : Module) (s : State) (result : Option ℕ) (v : Value) → own_saves (function_at m s.top.func).coroutine (slice_get (instrs_in (slice_get (function_at m s.top.func).blocks s.top.block)) s.top.at) ≡ 1 → IsNamedResult (length s.top.values) result → gives (next (saved_state m s)) result v ≡ saved_state m (gives s result v) }
{}

/// What stands alone does the same to both states, the calls of coro intrinsics among it.
pub fn lone_steps_are_kept()
    ensures { (m : Module) (sizes : List Frame) (answers : List ℤ) (s : State) → AreLocalsNamed m → AreTokensNamed m → IsSound m s → StandsAlone m s → act (given (saves_written m) sizes answers) (continue (given (saves_written m) sizes answers)) (saved_state m s) (action_of (context_of (given (saves_written m) sizes answers) (saved_state m s)) (work_of (saved_state m s)) (fetch (function_of (given (saves_written m) sizes answers) (saved_state m s)) s.top.block (saved_state m s).top.at)) ≡ saved_result m (act (given m sizes answers) (continue (given m sizes answers)) s (action_of (context_of (given m sizes answers) s) (work_of s) (fetch (function_at m s.top.func) s.top.block s.top.at))) }
{}
