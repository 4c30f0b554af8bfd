//! Framed modules whose functions get blocks on some of their edges.
//!
//! The blocks hold a jump alone and leave no window, and all else stays at its place in its block. Each framed run
//! agrees within 2 with the run of the module (`moves_keep_framed_meaning`).

ghost use Rattle.std.specs.Prelude.{ℤ, List, ◌≡◌, ℕ};
ghost use Rattle.ir_laws.specs.run_source.declared.state.State.{State};
ghost use Rattle.ir_laws.specs.facts.sound_states.Named.{AreLocalsNamed};
ghost use Rattle.frame_layout.specs.declared.layout.Layout.{Layout};
ghost use Rattle.run_framed.specs.Framed.{framed_given, framed_step, framed_next, FramedAt};
ghost use Rattle.ir_laws.specs.ir_model.declared.module.Module.{Module};
ghost use Rattle.run_states.specs.moved_states.Moving.{AllMove, Moving, KeepsKinds};
ghost use Rattle.run_states.specs.moved_states.Near.{HoldsIn, IsNear};
ghost use Rattle.ir_laws.specs.ir_base.declared.outcome.Outcome.{Outcome};
ghost use Rattle.ir_laws.specs.run_source.State.{function_of};
ghost use Rattle.ir_laws.specs.run_step.Step.{fetch};
ghost use Rattle.run_states.specs.moved_states.MovedState.{moved_module, moved_state};
ghost use Rattle.ir_laws.specs.run_agreement.Agreements.{AgreesWithin};
ghost use Rattle.ir_laws.specs.ir_base.declared.outcome.Word.{Word};
ghost use Rattle.frame_layout.specs.declared.layout.Layouts.{Layouts};
ghost use Rattle.ir_laws.specs.run_agreement.Costs.{AgreesBy, IsNear as IsWithin};
ghost use Rattle.run_states.specs.moved_states.Beside.{IsMovedOf, framed_machine, PaysFor};

/// A framed step keeps what holds in each state.
pub fn framed_states_stay_sound()
    ensures { (mv : Moving) (m : Module) → AreLocalsNamed m → AllMove mv m → (layouts : List Layout) (answers : List ℤ) (s : State) → HoldsIn mv m s → HoldsIn mv m (framed_step (framed_given m layouts answers) s) }
{}

/// Each step comes to where the module's comes, or one step before it.
pub fn framed_steps_are_near()
    ensures { (mv : Moving) (m : Module) → KeepsKinds mv → AreLocalsNamed m → AllMove mv m → (layouts : List Layout) (answers : List ℤ) (s : State) → HoldsIn mv m s → s.outcome ≡ Outcome.Running → IsNear mv m layouts answers (framed_next (framed_given m layouts answers) s (fetch (function_of (framed_given m layouts answers).given s) s.top.block s.top.at)) (framed_next (framed_given (moved_module mv m) layouts answers) (moved_state mv m s) (fetch (function_of (framed_given (moved_module mv m) layouts answers).given (moved_state mv m s)) (moved_state mv m s).top.block s.top.at)) }
{}

/// Where blocks that hold a jump alone come onto edges and leave no window, and all else stays at its place in its block, each framed
/// run agrees within 2 with the run of the module.
pub fn moves_keep_framed_meaning()
    ensures { (mv : Moving) (m : Module) → KeepsKinds mv → AreLocalsNamed m → AllMove mv m → (layouts : Layouts) (entry : ℕ) (args : List Word) (answers : List ℤ) → AgreesWithin 2 (FramedAt m layouts entry args answers) (FramedAt (moved_module mv m) layouts entry args answers) }
{}

/// Each state is the module's with its places moved; those in between are one step away from one.
pub fn moves_keep_framed_states()
    ensures { (mv : Moving) (m : Module) → KeepsKinds mv → AreLocalsNamed m → AllMove mv m
        → (layouts : Layouts) (entry : ℕ) (args : List Word) (answers : List ℤ)
        → AgreesBy (IsMovedOf mv m) (IsWithin (framed_machine (moved_module mv m) layouts entry args answers) 2
        (IsMovedOf mv m)) (framed_machine m layouts entry args answers) (λ s. 2)
        (framed_machine (moved_module mv m) layouts entry args answers) (λ t. 1) }
{}

/// They cost a step where an edge gets a block and nothing elsewhere, by whatever steps cost the next pass.
pub fn moves_cost_at_edges()
    ensures { (mv : Moving) (m : Module) → KeepsKinds mv → AreLocalsNamed m → AllMove mv m
        → (layouts : Layouts) (entry : ℕ) (args : List Word) (answers : List ℤ) (price cost : State → ℕ)
        → PaysFor mv m layouts answers price cost
        → AgreesBy (IsMovedOf mv m) (IsWithin (framed_machine (moved_module mv m) layouts entry args answers) 2
        (IsMovedOf mv m)) (framed_machine m layouts entry args answers) price
        (framed_machine (moved_module mv m) layouts entry args answers) cost }
{}
