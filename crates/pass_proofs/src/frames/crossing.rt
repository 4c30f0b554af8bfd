//! Lemmas on crossing.

ghost use Rattle.std.specs.Prelude.{◌≡◌, ℕ, true, None, List, Some};
ghost use Rattle.pass_exits_proof.specs.rule_shape.OneOfEach.{wrong_call};
ghost use Rattle.pass_exits_proof.specs.rule_shape.Switches.{wrong_switch};
ghost use Rattle.pass_edges.specs.EdgeBlocks.{with_edge_blocks};
ghost use Rattle.pass_exits_proof.specs.split.crossing.Ended.{AreEndedFirst};
ghost use Rattle.pass_exits_proof.specs.rule_laws.rules.function_rules.Kept.{KeepsFunctionRules};
ghost use Rattle.ir_model.specs.declared.module.Function.{Function};
ghost use Rattle.ir_model.specs.declared.module.Module.{Module};
ghost use Rattle.pass_exits_proof.specs.rule_windows.Outside.{IsFirstOutside};
ghost use Rattle.pass_exits_proof.specs.frame_contents.declared.contents.Contents.{Contents};
ghost use Rattle.pass_exits_proof.specs.frame_layout.declared.layout.Layout.{Layout};
ghost use Rattle.pass_proofs.specs.frames.shape.Passes.{PassesFit};
ghost use Rattle.ir_model.specs.Calls.{first_result};
ghost use Rattle.ir_model.specs.declared.operand.Intrinsic.{Intrinsic};
ghost use Rattle.pass_frames.specs.Framed.{celled, copied, placed};
ghost use Rattle.pass_exits_proof.specs.frame_crossing.Crossing.{AreCrossing};
ghost use Rattle.pass_exits_proof.specs.rule_windows.Windows.{IsFirstWindow};
ghost use Rattle.pass_exits_proof.specs.rule_laws.frames.crossing.Crossed.{IsNothingNeeded};

/// In a coroutine that breaks no rule (K5), no path leads from a suspend to a return outside the end's block where its edges have blocks.
pub fn suspends_end_first_where_edges_have_blocks()
    ensures { (m : Module) (k : ℕ) (f : Function) → KeepsFunctionRules m k f → f.coroutine ≡ true → wrong_call k f ≡ None → wrong_switch k f ≡ None → IsFirstOutside k f None → AreEndedFirst (with_edge_blocks f) }
{}

/// So it is of a coroutine whose frame is built.
pub fn framed_suspends_end_first()
    ensures { (m : Module) (k : ℕ) (l : Layout) (f : Function) (c : Contents) (before : List ℕ) (begin : ℕ) → KeepsFunctionRules m k f → f.coroutine ≡ true → wrong_call k f ≡ None → wrong_switch k f ≡ None → IsFirstOutside k f None → IsFirstWindow k f None
        → first_result Intrinsic.CoroBegin f ≡ Some begin → AreCrossing f c.crossing → PassesFit m k l f c before → AreEndedFirst (placed l f c (copied f c (celled m f c) before)) }
{}

/// In a coroutine whose frame is built no value but tokens and those of allocas, of begin and of `coro.frame` is needed behind a suspend that is reached.
pub fn nothing_is_needed_in_framed_coroutines()
    ensures { (m : Module) (k : ℕ) (l : Layout) (f : Function) (c : Contents) (before : List ℕ) (begin : ℕ) → KeepsFunctionRules m k f → f.coroutine ≡ true → wrong_call k f ≡ None → wrong_switch k f ≡ None → IsFirstOutside k f None → IsFirstWindow k f None
        → first_result Intrinsic.CoroBegin f ≡ Some begin → AreCrossing f c.crossing → PassesFit m k l f c before → IsNothingNeeded (placed l f c (copied f c (celled m f c) before)) }
{}
