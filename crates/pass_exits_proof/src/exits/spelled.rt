//! Lemmas on spelled.

ghost use Rattle.ir_model.specs.declared.module.Function.{Function};
ghost use Rattle.pass_fetch_proof.specs.rule_laws.rules.spelled.Spelled.{IsSpelledFunction};
ghost use Rattle.pass_split.specs.pass_exits.ExitBlocks.{with_exit_blocks};

/// And where edges that leave windows have blocks.
pub fn exit_blocks_can_be_spelled()
    ensures { (f : Function) → IsSpelledFunction f → IsSpelledFunction (with_exit_blocks f) }
{}
