//! Lemmas on unused frames.

ghost use Rattle.std.specs.Prelude.{◌≡◌, ℕ, List, None, Some, true};
ghost use Rattle.pass_exits_proof.specs.rule_shape.OneOfEach.{wrong_call};
ghost use Rattle.pass_exits_proof.specs.rule_shape.Switches.{wrong_switch};
ghost use Rattle.pass_exits_proof.specs.frame_contents.declared.contents.Contents.{Contents};
ghost use Rattle.pass_exits_proof.specs.frame_layout.declared.layout.Layout.{Layout};
ghost use Rattle.pass_exits_proof.specs.rule_laws.rules.function_rules.Kept.{KeepsFunctionRules};
ghost use Rattle.ir_model.specs.Calls.{first_result};
ghost use Rattle.ir_model.specs.declared.module.Function.{Function};
ghost use Rattle.ir_model.specs.declared.module.Module.{Module};
ghost use Rattle.ir_model.specs.declared.operand.Intrinsic.{Intrinsic};
ghost use Rattle.pass_exits_proof.specs.rule_laws.frames.needed.Crossed.{AreFramesUnneeded};
ghost use Rattle.pass_proofs.specs.frames.shape.Passes.{PassesFit};
ghost use Rattle.pass_exits_proof.specs.rule_laws.rules.unused.Unused.{AreFramesUnused};
ghost use Rattle.pass_frames.specs.Framed.{celled, copied, placed};
ghost use Rattle.pass_exits_proof.specs.frame_crossing.Crossing.{AreCrossing};
ghost use Rattle.pass_exits_proof.specs.rule_windows.Outside.{IsFirstOutside};
ghost use Rattle.pass_exits_proof.specs.rule_windows.Windows.{IsFirstWindow};

/// So none is needed behind a suspend once the frame is built.
pub fn no_frame_is_needed_in_framed_coroutines()
    ensures { (m : Module) (k : ℕ) (l : Layout) (f : Function) (c : Contents) (before : List ℕ) (begin : ℕ) → KeepsFunctionRules m k f → f.coroutine ≡ true → wrong_call k f ≡ None → wrong_switch k f ≡ None → IsFirstOutside k f None → IsFirstWindow k f None
        → first_result Intrinsic.CoroBegin f ≡ Some begin → AreCrossing f c.crossing → PassesFit m k l f c before → AreFramesUnused k f → AreFramesUnneeded (placed l f c (copied f c (celled m f c) before)) }
{}
