//! What crosses suspends stays under the first pass.
//!
//! The values that cross suspends are the same (`crossing_stays`).

ghost use Rattle.std.specs.Prelude.{◌↔◌, ℕ, List};
ghost use Rattle.pass_early_proof.specs.early.renaming.Passes.{renamed_coroutine};
ghost use Rattle.pass_early_proof.specs.early.crossing.Plain.{HasPlainNames};
ghost use Rattle.pass_early.specs.declared.renaming.Renaming.{Renaming};
ghost use Rattle.ir_model.specs.declared.module.Function.{Function};
ghost use Rattle.rule_laws.specs.frame_crossing.Crossing.{AreCrossing};
ghost use Rattle.pass_early_proof.specs.early.saves.SavesWritten.{saved_function};
ghost use Rattle.rule_laws.specs.ir_laws.facts.sound_states.Named.{HasNamedLocals};
ghost use Rattle.pass_early.specs.BeginName.{with_begin_name};

/// The values that cross suspends stay where uses of `coro.frame` are renamed.
#[tactic(auto, using(crate::proofs::early::crossing::Renamed::crossing_renamed))]
pub fn crossing_stays_renamed()
    ensures { (f : Function) (r : Renaming) → HasPlainNames f r → (all : List (ℕ × ℕ)) → AreCrossing f all ↔ AreCrossing (renamed_coroutine r f) all }
{}

/// They stay where saves are written out.
#[tactic(auto, using(crate::proofs::early::crossing::Saved::crossing_saved))]
pub fn crossing_stays_saved()
    ensures { (f : Function) → HasNamedLocals f → (all : List (ℕ × ℕ)) → AreCrossing f all ↔ AreCrossing (saved_function f) all }
{}

/// They stay where begin's value gets a name.
#[tactic(auto, using(crate::proofs::early::crossing::Named::crossing_named))]
pub fn crossing_stays_named()
    ensures { (f : Function) → HasNamedLocals f → (all : List (ℕ × ℕ)) → AreCrossing f all ↔ AreCrossing (with_begin_name f) all }
{}
