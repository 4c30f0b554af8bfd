//! The numbers of coroutines' frames fit their types: sizes, alignments and offsets of layouts, and how many
//! suspends there are.

ghost use Rattle.std.specs.Prelude.{ℕ, List, ◌<◌, ◌^◌, Bool, Ok, ◌≤◌, length, ◌≡◌};
ghost use Rattle.pass_exits_proof.specs.frame_layout.declared.layout.Layout.{Layout};
ghost use Rattle.pass_exits_proof.specs.rule_laws.frames.suspend_counts.Given.{IsGiven};
ghost use Rattle.pass_frames.specs.Framed.{layout_at, IsFramedCoroutine};
ghost use Rattle.pass_exits_proof.specs.frame_contents.Frames.{AreLayouts};
ghost use Rattle.pass_exits_proof.specs.frame_layout.declared.layout.Layouts.{Layouts};
ghost use Rattle.ir_model.specs.declared.module.Module.{Module};
ghost use Rattle.pass_frames.specs.Tables.{offset_at};
ghost use Rattle.pass_exits_proof.specs.pass_intrinsics.Shapes.{shape_of, suspends_of};
ghost use Rattle.ir_model.specs.declared.module.Function.{Function};
ghost use Rattle.pass_exits_proof.specs.rule_laws.frames.replaced.Parted.{IsSmall};

/// The layout that a coroutine is framed by is one of the module's, or that of a frame of an index alone.
pub fn layouts_by_number_are_given()
    ensures { (layouts : List Layout) (k : ℕ) → IsGiven layouts (layout_at layouts k) }
{}

/// The offsets of a layout are numbers of 64 bits.
pub fn offsets_are_near()
    ensures { (m : Module) (share : Bool) (layouts : Layouts) → AreLayouts m share (Ok layouts) → (l : Layout) → IsGiven layouts.coroutines l → (n : ℕ) → offset_at l n < 2 ^ 64 }
{}

/// The numbers of a coroutine's shape are small, where it hasn't more suspends than rule K11 lets it have.
pub fn layouts_are_small()
    ensures { (m : Module) (share : Bool) (layouts : Layouts) → AreLayouts m share (Ok layouts) → (f : Function) → length (suspends_of f) ≤ 65536 → (l : Layout) → IsGiven layouts.coroutines l → IsSmall (shape_of f l) }
{}

/// Nor does the frame that is built.
pub fn suspends_are_as_many_in_framed_coroutines()
    ensures { (m : Module) (l : Layout) (f g : Function) → IsFramedCoroutine m l f g → length (suspends_of g) ≡ length (suspends_of f) }
{}
