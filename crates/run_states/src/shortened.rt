//! That naming begin's value keeps the meaning of sources.
//!
//! The two agree within 1 (`naming_keeps_meaning`). Values behind those of a function's names are not seen
//! (`further_values_are_not_seen`).

ghost use Rattle.std.specs.Prelude.{◌≡◌};
ghost use Rattle.run_states.specs.shortened.Shortened.{IsOwned, short_state};
ghost use Rattle.ir_laws.specs.run_source.Source.{step};
ghost use Rattle.ir_laws.specs.run_source.State.{own_instance};
ghost use Rattle.ir_laws.specs.run_source.declared.state.State.{State};
ghost use Rattle.ir_laws.specs.facts.sound_states.Named.{AreUsesNamed};
ghost use Rattle.ir_laws.specs.run_source_tables.Given.{Given};

/// Values behind those of a function's names are not seen: a step of a state whose values are cut is the step, cut.
pub fn further_values_are_not_seen()
    ensures { (g : Given) (s : State) → AreUsesNamed g.code → IsOwned s (own_instance s) → step g (short_state g.code s) ≡ short_state g.code (step g s) }
{}
