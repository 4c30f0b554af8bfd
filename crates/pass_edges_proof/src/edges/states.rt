//! A state of a source run, and that of the module whose coroutines' edges have blocks.
//!
//! Points, paths, windows and ramp slots stay, moved.

ghost use Rattle.std.specs.Prelude.{◌≡◌, ℕ, ℤ, IsTrue, List, length, Option, Ok};
ghost use Rattle.pass_edges_proof.specs.edges.states.MovedState.{edge_function, placed, Keeps, edges_split, moved_state, placed_block, moved_result, moved_instance, moved_values, AreEdgesKept};
ghost use Rattle.ir_model.specs.declared.module.Function.{Function};
ghost use Rattle.pass_early_proof.specs.ir_paths.declared.point.Point.{Point};
ghost use Rattle.pass_early_proof.specs.run_source_tables.Given.{is_final};
ghost use Rattle.pass_early_proof.specs.ir_base.declared.outcome.Outcome.{Outcome};
ghost use Rattle.pass_early_proof.specs.run_source.Source.{given, go_to, enter, deallocate, new_slot, save_for, continue, promise, act, context_of};
ghost use Rattle.pass_early_proof.specs.run_source.State.{own_instance, point_of, gives, function_of, work_of};
ghost use Rattle.pass_early_proof.specs.run_source.declared.state.State.{State};
ghost use Rattle.pass_early_proof.specs.run_states.branches.MovedState.{IsOwnedBy};
ghost use Rattle.pass_edges_proof.specs.edges.states.Near.{IsNear};
ghost use Rattle.pass_edges_proof.specs.edges.states.Ways.{Enters, Goes};
ghost use Rattle.ir_model.specs.Names.{function_at};
ghost use Rattle.ir_model.specs.declared.module.Frame.{Frame};
ghost use Rattle.ir_model.specs.declared.module.Module.{Module};
ghost use Rattle.pass_early_proof.specs.ir_paths.Paths.{entry_point, has_point, nexts};
ghost use Rattle.pass_early_proof.specs.ir_laws.facts.sound_states.Named.{HasNamedPhis, HasNamedParams, AreLocalsNamed};
ghost use Rattle.pass_early_proof.specs.ir_laws.paths.branches.Ways.{AreFetched};
ghost use Rattle.pass_early_proof.specs.run_step.Step.{fetch, action_of};
ghost use Rattle.pass_early_proof.specs.run_memory.declared.pointer.Value.{Value};
ghost use Rattle.pass_early_proof.specs.run_step.declared.world.Slot.{Slot};
ghost use Rattle.pass_early_proof.specs.run_source.declared.state.Instance.{Instance};
ghost use Rattle.pass_early_proof.specs.run_step.Values.{Env};
ghost use Rattle.ir_model.specs.declared.operand.Operand.{Operand};
ghost use Rattle.pass_early_proof.specs.run_step.Results.{and_then};
ghost use Rattle.pass_early_proof.specs.ir_laws.facts.expanded.Tokens.{IsNamedResult};
ghost use Rattle.pass_early_proof.specs.run_states.sound_states.Sound.{IsSound};

/// A final suspend stays final.
#[tactic(auto, using(crate::proofs::edges::states::Parts::final_kept))]
pub fn final_suspends_stay()
    ensures { (f : Function) (p : Point) → is_final (edge_function f) (placed f p) ≡ is_final f p }
{}

/// A block is entered directly, or over an edge's block, one step later.
pub fn blocks_are_entered()
    ensures { (m : Module) (sizes : List Frame) (answers : List ℤ) (s : State) → Keeps (function_at m s.top.func) → HasNamedPhis (function_at m s.top.func) → length s.top.values ≡ length (function_at m s.top.func).names → IsOwnedBy s (own_instance s) → s.outcome ≡ Outcome.Running → (t l : ℕ) → Enters (function_at m s.top.func) (function_at (edges_split m) s.top.func) (placed (function_at m s.top.func)) s.top.block t l → IsTrue (has_point (nexts (function_at (edges_split m) s.top.func) (placed (function_at m s.top.func) (point_of s))) (entry_point (function_at (edges_split m) s.top.func) l)) → IsNear m sizes answers (go_to (given m sizes answers) s t) (go_to (given (edges_split m) sizes answers) (moved_state m s) l) }
{}

/// What stands at a place is the same, or a terminator whose labels lead to the same blocks.
#[tactic(auto, using(crate::proofs::edges::states::Ways::fetch_kept))]
pub fn places_are_kept()
    ensures { (f : Function) → Keeps f → (p : Point) → AreFetched (Goes f (edge_function f) (placed f) p) (fetch f p.block p.at) (fetch (edge_function f) (placed_block f p.block) p.at) }
{}

/// A call enters its function in the same way.
pub fn calls_are_kept()
    ensures { (m : Module) (sizes : List Frame) (answers : List ℤ) (s : State) (func : ℕ) (args : List Value) (result : Option ℕ) → HasNamedParams (function_at m func) → enter (given (edges_split m) sizes answers) (moved_state m s) func args result ≡ moved_state m (enter (given m sizes answers) s func args result) }
{}

/// A deallocation does the same.
#[tactic(auto, using(crate::proofs::edges::states::Acts::deallocate_moved))]
pub fn deallocations_are_kept()
    ensures { (m : Module) (s : State) (p : Value) → deallocate (moved_state m s) p ≡ moved_result m (deallocate s p) }
{}

/// A new slot goes to the same owner.
pub fn new_slots_are_kept()
    ensures { (m : Module) (sizes : List Frame) (answers : List ℤ) (s : State) (slot : Slot) → Keeps (function_at m s.top.func) → new_slot (given (edges_split m) sizes answers) (moved_state m s) slot ≡ moved_state m (new_slot (given m sizes answers) s slot) }
{}

/// A save keeps the same, with its points moved.
#[tactic(auto, using(crate::proofs::edges::states::Suspends::save_for_moved))]
pub fn saves_are_kept()
    ensures { (m : Module) (s : State) (save suspend : Point) → IsOwnedBy s (own_instance s) → save_for (moved_state m s) (placed (function_at m s.top.func) save) (placed (function_at m s.top.func) suspend) ≡ moved_result m (save_for s save suspend) }
{}

/// A resume or destroy goes on behind the suspend, or at the block of the suspend's edge, one step before.
pub fn suspended_go_on()
    ensures { (m : Module) (sizes : List Frame) (answers : List ℤ) (s : State) (i : ℕ) (x : Instance) (suspend : Point) (values : Env) (t l : ℕ) → Keeps (function_at m x.coroutine) → HasNamedPhis (function_at m x.coroutine) → length values ≡ length (function_at m x.coroutine).names → s.outcome ≡ Outcome.Running → Enters (function_at m x.coroutine) (function_at (edges_split m) x.coroutine) (placed (function_at m x.coroutine)) suspend.block t l → IsNear m sizes answers (Ok (continue (given m sizes answers) s i x suspend values t)) (Ok (continue (given (edges_split m) sizes answers) (moved_state m s) i (moved_instance m x) (placed (function_at m x.coroutine) suspend) (moved_values (function_at m x.coroutine) values) l)) }
{}

/// The promise of an instance is found as it was.
pub fn promises_are_kept()
    ensures { (m : Module) (sizes : List Frame) (answers : List ℤ) (s : State) (result : Option ℕ) → IsNamedResult (length s.top.values) result → (v : Value) (from : Operand) → and_then (promise (given (edges_split m) sizes answers) (moved_state m s) v from) (λ w. Ok (gives (moved_state m s) result w)) ≡ moved_result m (and_then (promise (given m sizes answers) s v from) (λ w. Ok (gives s result w))) }
{}

/// Each step comes to where the source's comes, or one step before it.
pub fn steps_are_near()
    ensures { (m : Module) (sizes : List Frame) (answers : List ℤ) → AreLocalsNamed m → AreEdgesKept m → (s : State) → IsSound m s → s.outcome ≡ Outcome.Running → IsNear m sizes answers (act (given m sizes answers) (continue (given m sizes answers)) s (action_of (context_of (given m sizes answers) s) (work_of s) (fetch (function_of (given m sizes answers) s) s.top.block s.top.at))) (act (given (edges_split m) sizes answers) (continue (given (edges_split m) sizes answers)) (moved_state m s) (action_of (context_of (given (edges_split m) sizes answers) (moved_state m s)) (work_of (moved_state m s)) (fetch (function_of (given (edges_split m) sizes answers) (moved_state m s)) (moved_state m s).top.block s.top.at))) }
{}
