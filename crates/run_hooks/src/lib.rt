//! One step with hooks: the steps of sources, of framed modules and of the two meanings between are instances of it.
//!
//! The meanings differ in their rights, in how they go on behind a suspend, and in what some of their instructions do.
//! A record `Hooks` holds these, and `step_of` is the step by them. The law of each meaning says that its step is that
//! of its hooks (clause `step`), and that what is seen after n steps is so too (clause `seen`). A law about `step_of`
//! is thus one about each meaning.
//!
//! The first such law says what is reached: activations are at reached places, and instances are suspended at reached
//! suspends (`reached_states_stay`, `states_of_runs_are_reached`).
//!
//! The second says that an activation that hasn't left is the last one of its instance, which isn't Suspended
//! (`last_activations_stay`, `activations_of_runs_are_last`).
//!
//! The third says where they stand: one that has left is between a save and its suspend, at that or its switch, or at
//! the end or behind it, and one that hasn't is in no such window (`places_stay`, `activations_of_runs_are_placed`).
//!
//! The fourth says where live slots may be alive, and that two of one instance conflict (module `alive`).
#![tactic(auto)]

pub mod alive;

ghost use Rattle.std.specs.Prelude.{ℕ, ℤ, List, true, false, ◌≡◌, ◌∷◌};
ghost use Rattle.pass_renewed_proof.specs.frame_layout.declared.layout.Layouts.{Layouts as TheLayouts};
ghost use Rattle.pass_renewed_proof.specs.ir_base.declared.outcome.Word.{Word};
ghost use Rattle.pass_renewed_proof.specs.ir_model.declared.module.Frame.{Frame};
ghost use Rattle.pass_renewed_proof.specs.ir_model.declared.module.Module.{Module};
ghost use Rattle.pass_renewed_proof.specs.ir_paths.Windows.{IsInWindow};
ghost use Rattle.pass_renewed_proof.specs.ir_paths.declared.point.Point.{Point};
ghost use Rattle.pass_renewed_proof.specs.run_framed.Framed.{FramedAt, FramedGiven, framed_given, framed_state_at, framed_step};
ghost use Rattle.pass_renewed_proof.specs.pass_kept_proof.Kept.{Keep, KeptAt, continue_keeping};
ghost use Rattle.pass_renewed_proof.specs.pass_kept_proof.SuspendRules.{AllKeepSuspendRules};
ghost use Rattle.pass_renewed_proof.specs.Left.{IsLeftAt};
ghost use Rattle.pass_renewed_proof.specs.Renewed.{Flags, RenewedAt, RenewedGiven, Roots, renewed_given, renewed_step};
ghost use Rattle.pass_renewed_proof.specs.run_source.Source.{SourceAt, first_state, given, state_at, step, step_by};
ghost use Rattle.pass_renewed_proof.specs.run_source.State.{function_of};
ghost use Rattle.pass_renewed_proof.specs.run_source.declared.state.Mode.{Mode};
ghost use Rattle.pass_renewed_proof.specs.run_source.declared.state.State.{State};
ghost use Rattle.run_hooks.specs.Away.{IsPair, IsPlacedState, KeepsAllPlaceRules, KeepsPlaced, point_in};
ghost use Rattle.run_hooks.specs.Left.{HaveLeft, IsLastState, KeepsLast, sleeps};
ghost use Rattle.run_hooks.specs.Reached.{AllHaveSwitches, IsReachedState, KeepsReached};
ghost use Rattle.pass_renewed_proof.specs.run_step.Runs.{iterate};
ghost use Rattle.pass_renewed_proof.specs.run_source_tables.Given.{Given};
ghost use Rattle.run_hooks.specs.Hooks.{Hooks, SeenBy, hooked_state_at, step_of};
ghost use Rattle.run_hooks.specs.Meanings.{framed_hooks, kept_hooks, renewed_hooks, source_hooks};

/// A source's step is that of its hooks.
pub fn sources_step_by_hooks()
    ensures step { (g : Given) (s : State) → step g s ≡ step_of (source_hooks g) s }
    ensures seen { (m : Module) (sizes : List Frame) (entry : ℕ) (args : List Word) (answers : List ℤ) (n : ℕ)
        → SourceAt m sizes entry args answers n ≡ SeenBy (source_hooks (given m sizes answers)) entry args n }
{}

/// The step in which a resume hands on some values is that of its hooks.
pub fn kept_values_step_by_hooks()
    ensures step { (g : Given) (keep : Keep) (s : State)
        → step_by g (continue_keeping g keep) s ≡ step_of (kept_hooks g keep) s }
    ensures seen { (m : Module) (keep : Keep) (sizes : List Frame) (entry : ℕ) (args : List Word)
        (answers : List ℤ) (n : ℕ)
        → KeptAt m keep sizes entry args answers n ≡ SeenBy (kept_hooks (given m sizes answers) keep) entry args n }
{}

/// The step in which a resumed activation makes slots anew is that of its hooks.
pub fn renewed_slots_step_by_hooks()
    ensures step { (g : RenewedGiven) (s : State) → renewed_step g s ≡ step_of (renewed_hooks g) s }
    ensures seen { (m : Module) (keep : Keep) (flags : Flags) (roots : Roots) (sizes : List Frame)
        (entry : ℕ) (args : List Word) (answers : List ℤ) (n : ℕ)
        → RenewedAt m keep flags roots sizes entry args answers n
        ≡ SeenBy (renewed_hooks (renewed_given m keep flags roots sizes answers)) entry args n }
{}

/// A framed step is that of its hooks.
pub fn frames_step_by_hooks()
    ensures step { (g : FramedGiven) (s : State) → framed_step g s ≡ step_of (framed_hooks g) s }
    ensures seen { (m : Module) (layouts : TheLayouts) (entry : ℕ) (args : List Word) (answers : List ℤ) (n : ℕ)
        → FramedAt m layouts entry args answers n
        ≡ SeenBy (framed_hooks (framed_given m layouts.coroutines answers)) entry args n }
{}

/// Hooks that come from reached states to reached ones do so by each step, and so by a run. All activations are at
/// reached places there, and instances are suspended at reached suspends.
pub fn reached_states_stay()
    ensures step { (h : Hooks) (s : State) → AllHaveSwitches h.given.code → KeepsReached h
        → IsReachedState h.given s → IsReachedState h.given (step_of h s) }
    ensures runs { (h : Hooks) (entry : ℕ) (args : List Word) (n : ℕ) → AllHaveSwitches h.given.code → KeepsReached h
        → IsReachedState h.given (hooked_state_at h entry args n) }
{}

/// The hooks of each meaning come from reached states to reached states. Accepted functions have what that asks of
/// suspends.
pub fn meanings_keep_what_is_reached()
    ensures source { (g : Given) → KeepsReached (source_hooks g) }
    ensures kept { (g : Given) (keep : Keep) → KeepsReached (kept_hooks g keep) }
    ensures renewed { (g : RenewedGiven) → KeepsReached (renewed_hooks g) }
    ensures framed { (g : FramedGiven) → KeepsReached (framed_hooks g) }
    ensures switches { (m : Module) → AllKeepSuspendRules m → AllHaveSwitches m }
{}

/// So each state of a run is reached, in each of the meanings.
pub fn states_of_runs_are_reached()
    ensures source { (g : Given) (entry : ℕ) (args : List Word) (n : ℕ) → AllHaveSwitches g.code
        → IsReachedState g (state_at g entry args n) }
    ensures kept { (g : Given) (keep : Keep) (entry : ℕ) (args : List Word) (n : ℕ) → AllHaveSwitches g.code
        → IsReachedState g (iterate (step_by g (continue_keeping g keep)) n (first_state g.code entry args)) }
    ensures renewed { (g : RenewedGiven) (entry : ℕ) (args : List Word) (n : ℕ) → AllHaveSwitches g.given.code
        → IsReachedState g.given (iterate (renewed_step g) n (first_state g.given.code entry args)) }
    ensures framed { (g : FramedGiven) (entry : ℕ) (args : List Word) (n : ℕ) → AllHaveSwitches g.given.code
        → IsReachedState g.given (framed_state_at g entry args n) }
{}

/// An activation that hasn't left is the last one of its instance, which isn't Suspended. Hooks that change
/// activations and instances as their names say keep that by each step, and so by a run. All activations of a
/// Suspended instance have left.
pub fn last_activations_stay()
    ensures step { (h : Hooks) (s : State) → KeepsLast h → IsLastState s → IsLastState (step_of h s) }
    ensures runs { (h : Hooks) (entry : ℕ) (args : List Word) (n : ℕ) → KeepsLast h
        → IsLastState (hooked_state_at h entry args n) }
    ensures suspended { (s : State) (i : ℕ) → IsLastState s → sleeps s.instances i ≡ true
        → HaveLeft i (s.top ∷ s.below) }
{}

/// The hooks of each meaning change activations and instances as this asks.
pub fn meanings_keep_last_activations()
    ensures source { (g : Given) → KeepsLast (source_hooks g) }
    ensures kept { (g : Given) (keep : Keep) → KeepsLast (kept_hooks g keep) }
    ensures renewed { (g : RenewedGiven) → KeepsLast (renewed_hooks g) }
    ensures framed { (g : FramedGiven) → KeepsLast (framed_hooks g) }
{}

/// So in each state of a run an activation that hasn't left is the last one of its instance, which isn't Suspended.
pub fn activations_of_runs_are_last()
    ensures source { (g : Given) (entry : ℕ) (args : List Word) (n : ℕ) → IsLastState (state_at g entry args n) }
    ensures kept { (g : Given) (keep : Keep) (entry : ℕ) (args : List Word) (n : ℕ)
        → IsLastState (iterate (step_by g (continue_keeping g keep)) n (first_state g.code entry args)) }
    ensures renewed { (g : RenewedGiven) (entry : ℕ) (args : List Word) (n : ℕ)
        → IsLastState (iterate (renewed_step g) n (first_state g.given.code entry args)) }
    ensures framed { (g : FramedGiven) (entry : ℕ) (args : List Word) (n : ℕ)
        → IsLastState (framed_state_at g entry args n) }
{}

/// Each step of hooks that keep places comes from states whose activations stand where they may to such states.
/// There an activation that has left is at a place of `IsLeftAt`, and one that hasn't is in no window of a save, unless
/// it is still entering a label.
pub fn places_stay()
    ensures step { (h : Hooks) (s : State) → KeepsAllPlaceRules h.given → KeepsPlaced h → IsReachedState h.given s
        → IsPlacedState h s → IsPlacedState h (step_of h s) }
    ensures runs { (h : Hooks) (entry : ℕ) (args : List Word) (n : ℕ) → AllHaveSwitches h.given.code → KeepsReached h
        → KeepsAllPlaceRules h.given → KeepsPlaced h → IsPlacedState h (hooked_state_at h entry args n) }
    ensures left { (h : Hooks) (s : State) → IsPlacedState h s → s.top.has_left ≡ true
        → IsLeftAt (function_of h.given s) (point_in s.top) }
    ensures stays { (h : Hooks) (s : State) → IsPlacedState h s → s.top.has_left ≡ false
        → ((from label : ℕ) → s.top.mode ≡ Mode.Entering from label → ⊥) → (k u : Point)
        → IsPair (function_of h.given s) k u → IsInWindow (function_of h.given s) k u (point_in s.top) → ⊥ }
{}

/// The hooks of each meaning keep places.
pub fn meanings_keep_places()
    ensures source { (g : Given) → KeepsPlaced (source_hooks g) }
    ensures kept { (g : Given) (keep : Keep) → KeepsPlaced (kept_hooks g keep) }
    ensures renewed { (g : RenewedGiven) → KeepsPlaced (renewed_hooks g) }
    ensures framed { (g : FramedGiven) → KeepsAllPlaceRules g.given → KeepsPlaced (framed_hooks g) }
{}

/// So in each state of a run of a module by the rules all activations stand where they may.
pub fn activations_of_runs_are_placed()
    ensures source { (g : Given) (entry : ℕ) (args : List Word) (n : ℕ) → AllHaveSwitches g.code → KeepsAllPlaceRules g
        → IsPlacedState (source_hooks g) (state_at g entry args n) }
    ensures kept { (g : Given) (keep : Keep) (entry : ℕ) (args : List Word) (n : ℕ) → AllHaveSwitches g.code
        → KeepsAllPlaceRules g → IsPlacedState (kept_hooks g keep)
        (iterate (step_by g (continue_keeping g keep)) n (first_state g.code entry args)) }
    ensures renewed { (g : RenewedGiven) (entry : ℕ) (args : List Word) (n : ℕ) → AllHaveSwitches g.given.code
        → KeepsAllPlaceRules g.given → IsPlacedState (renewed_hooks g)
        (iterate (renewed_step g) n (first_state g.given.code entry args)) }
    ensures framed { (g : FramedGiven) (entry : ℕ) (args : List Word) (n : ℕ) → AllHaveSwitches g.given.code
        → KeepsAllPlaceRules g.given → IsPlacedState (framed_hooks g) (framed_state_at g entry args n) }
{}
