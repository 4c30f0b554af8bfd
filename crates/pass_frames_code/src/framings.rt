//! Coroutines whose frames may be built.

ghost use Rattle.std.specs.Prelude.{ℕ, List};
ghost use Rattle.pass_proofs.specs.frame_contents.declared.contents.Contents.{Contents};
ghost use Rattle.pass_proofs.specs.frame_layout.declared.layout.Layout.{Layout};
ghost use Rattle.pass_proofs.specs.ir_model.declared.module.Function.{Function};
ghost use Rattle.pass_proofs.specs.ir_model.declared.module.Module.{Module};
ghost use Rattle.pass_frames_code.specs.Framings.{IsFraming};
ghost use Rattle.pass_proofs.specs.frames.rules.Buildable.{IsBuildable};

/// A coroutine that breaks none of its rules, with what the rules of frames say that its frame holds, is one whose frame
/// may be built.
pub fn coroutines_have_framings()
    ensures { (m : Module) (k : ℕ) (l : Layout) (f : Function) (c : Contents) (before : List ℕ) (begin : ℕ)
        → IsBuildable m k l f c before begin
        → IsFraming (record { code = m; layout = l; function = f; contents = c; before = before }) }
{}
