//! What holds in each state of a run of a source, and speaks of its module alone.
//!
//! There are as many values as names, and instances of their activations' functions, suspended at suspends
//! (`IsSound`). That holds at the start (`runs_start_sound`) and after each step, by each way to go on behind a
//! suspend that keeps it (`steps_stay_sound`).

ghost use Rattle.std.specs.Prelude.{ℕ, List, ℤ};
ghost use Rattle.ir_laws.specs.ir_base.declared.outcome.Word.{Word};
ghost use Rattle.ir_laws.specs.run_source.Source.{first_state, Continues, step, step_by, continue, given};
ghost use Rattle.ir_laws.specs.ir_model.declared.module.Module.{Module};
ghost use Rattle.run_states.specs.sound_states.Sound.{IsSound, KeepsSound};
ghost use Rattle.ir_laws.specs.run_source.declared.state.State.{State};
ghost use Rattle.ir_laws.specs.facts.sound_states.Named.{AreLocalsNamed};
ghost use Rattle.ir_laws.specs.run_source_tables.Given.{Given};
ghost use Rattle.ir_laws.specs.ir_model.declared.module.Frame.{Frame};

/// A run starts in a sound state.
pub fn runs_start_sound()
    ensures { (m : Module) (entry : ℕ) (args : List Word) → IsSound m (first_state m entry args) }
{}

/// A step keeps states sound, by each way to go on behind a suspend that does.
pub fn steps_stay_sound()
    ensures { (g : Given) (go : Continues) (s : State) → AreLocalsNamed g.code → KeepsSound g.code go → IsSound g.code s → IsSound g.code (step_by g go s) }
{}

/// The source's way does.
pub fn resumes_stay_sound()
    ensures { (g : Given) → KeepsSound g.code (continue g) }
{}

/// So a source's step keeps states sound.
pub fn source_steps_stay_sound()
    ensures { (m : Module) (sizes : List Frame) (answers : List ℤ) (s : State) → AreLocalsNamed m → IsSound m s → IsSound m (step (given m sizes answers) s) }
{}
