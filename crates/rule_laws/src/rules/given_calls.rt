//! Functions some of whose calls give their callees the address of a frame.

ghost use Rattle.std.specs.Prelude.{ℕ, List};
ghost use Rattle.ir_laws.specs.ir_model.declared.module.Block.{Block};
ghost use Rattle.ir_laws.specs.ir_model.declared.module.Function.{Function};
ghost use Rattle.ir_laws.specs.ir_model.declared.module.Module.{Module};
ghost use Rattle.rule_laws.specs.rules.function_rules.Kept.{KeepsFunctionRulesAt};
ghost use Rattle.rule_laws.specs.rules.given_calls.Given.{AreGivenBlocks, with_blocks};
ghost use Rattle.rule_names.specs.declared.stage.Stage.{Stage};

/// Where some calls become calls of functions that take a pointer more, a function still breaks none of the rules. What is
/// called then is in the module, and each path to such a call makes the pointer.
pub fn calls_that_give_frames_keep_rules()
    ensures { (stage : Stage) (m : Module) (k : ℕ) (f : Function) (blocks : List Block)
        → AreGivenBlocks m k f 0 f.blocks blocks → KeepsFunctionRulesAt stage m k f
        → KeepsFunctionRulesAt stage m k (with_blocks blocks f) }
{}
