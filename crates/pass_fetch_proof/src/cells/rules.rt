//! Values that cross suspends are kept in cells, and that breaks no rule of functions.

ghost use Rattle.std.specs.Prelude.{ℕ, Bool, List};
ghost use Rattle.pass_fetch_proof.specs.cells.rules.Asked.{AreCellsFor};
ghost use Rattle.pass_fetch_proof.specs.cells.rules.Weaving.{cells_weaving};
ghost use Rattle.pass_edges_proof.specs.rule_laws.rules.function_rules.Kept.{KeepsFunctionRules};
ghost use Rattle.ir_model.specs.declared.module.Function.{Function};
ghost use Rattle.ir_model.specs.declared.module.Module.{Module};
ghost use Rattle.pass_edges_proof.specs.pass_cells.Cells.{with_cells};
ghost use Rattle.pass_edges_proof.specs.rule_laws.rules.woven_rules.Blocks.{IsWoven};
ghost use Rattle.pass_edges_proof.specs.rule_laws.rules.woven_rules.Pairs.{AreIncomingOnce};

/// A function whose crossing values are kept in cells is the function with instructions woven in.
pub fn cells_are_woven()
    ensures { (m : Module) (k : ℕ) (f : Function) (crossing : List (ℕ × ℕ)) (local : List Bool) → KeepsFunctionRules m k f → AreCellsFor k f crossing local → IsWoven (cells_weaving m f crossing local) m f (with_cells m f crossing local) }
{}

/// So it breaks none of the rules of functions, where the function breaks none, and its phis name each label once.
pub fn cells_keep_function_rules()
    ensures { (m : Module) (k : ℕ) (f : Function) (crossing : List (ℕ × ℕ)) (local : List Bool) → KeepsFunctionRules m k f → AreIncomingOnce f → AreCellsFor k f crossing local → KeepsFunctionRules m k (with_cells m f crossing local) }
{}

/// Its phis name each label once, too.
pub fn cells_leave_each_label_once()
    ensures { (m : Module) (k : ℕ) (f : Function) (crossing : List (ℕ × ℕ)) (local : List Bool) → KeepsFunctionRules m k f → AreIncomingOnce f → AreCellsFor k f crossing local → AreIncomingOnce (with_cells m f crossing local) }
{}
