//! What is asked of coroutines so that their frames may be built, and that the framed form breaks no rule of
//! functions.
//!
//! A coroutine that breaks none of its rules is one whose frame may be built (`frames_may_be_built`). Its framed form
//! breaks none of the rules of functions and has the calls that splitting asks for (`framed_forms_are_kept`).

ghost use Rattle.std.specs.Prelude.{ℕ, List};
ghost use Rattle.pass_exits_proof.specs.frame_contents.declared.contents.Contents.{Contents};
ghost use Rattle.pass_exits_proof.specs.frame_layout.declared.layout.Layout.{Layout};
ghost use Rattle.pass_proofs.specs.frames.rules.Buildable.{IsBuildable};
ghost use Rattle.pass_proofs.specs.frames.shape.Passes.{PassesFit};
ghost use Rattle.ir_model.specs.declared.module.Function.{Function};
ghost use Rattle.ir_model.specs.declared.module.Module.{Module};
ghost use Rattle.pass_frames.specs.Framed.{copied, celled, placed};
ghost use Rattle.pass_exits_proof.specs.rule_laws.frames.shape.Passes.{IsKept};

/// What the passes that build frames ask of each other holds of such a coroutine: slots that are copied are made before begin, and what lies in
/// the frame is used behind it.
pub fn frames_may_be_built()
    ensures { (m : Module) (k : ℕ) (l : Layout) (f : Function) (c : Contents) (before : List ℕ) (begin : ℕ) → IsBuildable m k l f c before begin → PassesFit m k l f c before }
{}

/// So its framed form breaks none of the rules of functions, each of its phis names a label once, and its calls are what splitting asks.
pub fn framed_forms_are_kept()
    ensures { (m : Module) (k : ℕ) (l : Layout) (f : Function) (c : Contents) (before : List ℕ) (begin : ℕ) → IsBuildable m k l f c before begin → IsKept m k (placed l f c (copied f c (celled m f c) before)) begin }
{}
