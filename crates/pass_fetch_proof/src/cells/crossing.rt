//! Where values that cross suspends are kept in cells, nothing crosses a suspend.
//!
//! Behind a suspend that the entry reaches no value is needed then but tokens and those of allocas, begin and
//! `coro.frame` (`nothing_crosses_cells`).

ghost use Rattle.std.specs.Prelude.{◌≡◌, ℕ, Bool, true, List, None};
ghost use Rattle.pass_edges_proof.specs.rule_laws.frames.crossing.Crossed.{AreSuspendsApart, IsNothingNeeded};
ghost use Rattle.pass_fetch_proof.specs.cells.rules.Asked.{AreCellsFor};
ghost use Rattle.pass_edges_proof.specs.rule_laws.rules.counted.Widths.{first_other_width};
ghost use Rattle.pass_edges_proof.specs.flow_solver.Paths.{IsListed};
ghost use Rattle.pass_edges_proof.specs.rule_laws.rules.function_rules.Kept.{KeepsFunctionRules};
ghost use Rattle.ir_model.specs.declared.module.Function.{Function};
ghost use Rattle.ir_model.specs.declared.module.Module.{Module};
ghost use Rattle.pass_edges_proof.specs.ir_paths.Slots.{allocas_of};
ghost use Rattle.pass_edges_proof.specs.frame_crossing.Crossing.{AreCrossing};
ghost use Rattle.pass_edges_proof.specs.pass_cells.Kept.{is_flagged};
ghost use Rattle.pass_edges_proof.specs.pass_cells.Cells.{with_cells};

/// What is asked of the values that are kept holds of those that cross suspends, where suspends stand apart.
pub fn crossing_values_are_for_cells()
    ensures { (m : Module) (k : ℕ) (f : Function) (crossing : List (ℕ × ℕ)) (local : List Bool) → KeepsFunctionRules m k f → AreSuspendsApart f → AreCrossing f crossing → ((v : ℕ) → is_flagged local v ≡ true → IsListed v (allocas_of f)) → first_other_width k f ≡ None → AreCellsFor k f crossing local }
{}

/// Where all values that cross suspends are kept, none is needed behind a suspend that is reached.
pub fn nothing_crosses_cells()
    ensures { (m : Module) (k : ℕ) (f : Function) (crossing : List (ℕ × ℕ)) (local : List Bool) → KeepsFunctionRules m k f → AreCellsFor k f crossing local → AreSuspendsApart f → AreCrossing f crossing → IsNothingNeeded (with_cells m f crossing local) }
{}
