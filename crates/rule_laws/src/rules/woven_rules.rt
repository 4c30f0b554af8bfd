//! Functions into which instructions are woven break no rule of functions, where those from which they come break
//! none.
//!
//! In a woven function (`IsWoven`) some instructions are put in, some go, and the others stay with other operands in
//! the place of theirs. It breaks none of the rules of functions where it broke none and its phis name each label
//! once (`woven_functions_keep_rules`).

ghost use Rattle.std.specs.Prelude.{ℕ, List};
ghost use Rattle.rule_laws.specs.rules.function_rules.Kept.{KeepsFunctionRulesAt};
ghost use Rattle.rule_names.specs.declared.stage.Stage.{Stage};
ghost use Rattle.ir_laws.specs.ir_model.declared.module.Function.{Function};
ghost use Rattle.ir_laws.specs.ir_model.declared.module.Module.{Module};
ghost use Rattle.rule_laws.specs.rules.woven_rules.Blocks.{IsWoven};
ghost use Rattle.rule_laws.specs.rules.woven_rules.Pairs.{AreIncomingOnce};
ghost use Rattle.rule_laws.specs.rules.woven_rules.Weaving.{Weaving};
ghost use Rattle.ir_laws.specs.ir_base.declared.name.Name.{Name};
ghost use Rattle.ir_laws.specs.ir_model.declared.instr.Instr.{Instr};
ghost use Rattle.rule_laws.specs.rules.woven_rules.Fronts.{FrontFits, with_front};

/// A function that breaks none of the rules of functions, and whose phis name each label once, breaks none with instructions woven in.
pub fn woven_functions_keep_rules()
    ensures { (w : Weaving) (m : Module) (k : ℕ) (f g : Function) → IsWoven w m f g → KeepsFunctionRulesAt w.stage m k f
        → AreIncomingOnce f → KeepsFunctionRulesAt w.stage m k g }
{}

/// Its phis name each label once, too.
pub fn woven_phis_have_each_label_once()
    ensures { (w : Weaving) (m : Module) (f g : Function) → IsWoven w m f g → AreIncomingOnce f → AreIncomingOnce g }
{}

/// Allocas of new names that are put in at the front of the entry block are such instructions.
pub fn front_allocas_keep_rules()
    ensures { (stage : Stage) (m : Module) (k : ℕ) (f : Function) (front : List Instr) (names : List Name)
        → KeepsFunctionRulesAt stage m k f → FrontFits stage m f front names
        → KeepsFunctionRulesAt stage m k (with_front front names f) }
{}
