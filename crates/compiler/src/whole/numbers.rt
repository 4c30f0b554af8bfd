//! Lemmas on numbers.

ghost use Rattle.std.specs.Prelude.{◌≤◌, Bool, Ok, length};
ghost use Rattle.pass_proofs.specs.frame_contents.Frames.{AreLayouts};
ghost use Rattle.frame_layout.specs.declared.layout.Layout.{Layout};
ghost use Rattle.frame_layout.specs.declared.layout.Layouts.{Layouts};
ghost use Rattle.pass_proofs.specs.rule_laws.frames.suspend_counts.Given.{IsGiven};
ghost use Rattle.pass_proofs.specs.pass_intrinsics.Shapes.{shape_of, suspends_of};
ghost use Rattle.ir_model.specs.declared.module.Function.{Function};
ghost use Rattle.ir_model.specs.declared.module.Module.{Module};
ghost use Rattle.pass_frames.specs.Framed.{IsFramedCoroutine};
ghost use Rattle.pass_proofs.specs.rule_laws.frames.replaced.Parted.{IsSmall};
ghost use Rattle.pass_proofs.specs.pass_exits.ExitBlocks.{with_exit_blocks};

/// So the numbers of the shape by which a framed coroutine is split are small.
pub fn framed_shapes_are_small()
    ensures { (m : Module) (share : Bool) (layouts : Layouts) → AreLayouts m share (Ok layouts) → (f g : Function) (l : Layout) → IsGiven layouts.coroutines l → length (suspends_of f) ≤ 65536 → IsFramedCoroutine m l f g → IsSmall (shape_of (with_exit_blocks g) l) }
{}
