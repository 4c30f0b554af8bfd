//! Lemmas on spelled.

ghost use Rattle.std.specs.Prelude.{ℕ, Bool, List};
ghost use Rattle.ir_model.specs.declared.module.Function.{Function};
ghost use Rattle.ir_model.specs.declared.module.Module.{Module};
ghost use Rattle.pass_edges_proof.specs.rule_laws.rules.spelled.Spelled.{IsSpelledFunction};
ghost use Rattle.pass_edges_proof.specs.pass_cells.Cells.{with_cells};

/// And where crossing values are kept in cells.
pub fn cells_can_be_spelled()
    ensures { (m : Module) (f : Function) (crossing : List (ℕ × ℕ)) (local : List Bool) → IsSpelledFunction f → IsSpelledFunction (with_cells m f crossing local) }
{}
