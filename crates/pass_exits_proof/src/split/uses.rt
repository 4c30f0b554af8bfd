//! In the parts into which a coroutine is split what is used is defined, and defined once.
//!
//! Each local that they use is theirs and is made on each path to its use, and stands once (N1, N2 of locals, F2).

ghost use Rattle.std.specs.Prelude.{ℕ, None, ◌≡◌, []};
ghost use Rattle.pass_fetch_proof.specs.rule_uses.Undefined.{IsFirstUndefined};
ghost use Rattle.pass_fetch_proof.specs.rule_uses.Uses.{uses_of};
ghost use Rattle.pass_fetch_proof.specs.frame_layout.declared.layout.Layout.{Layout};
ghost use Rattle.pass_fetch_proof.specs.pass_intrinsics.Shapes.{shape_of};
ghost use Rattle.pass_fetch_proof.specs.pass_intrinsics.declared.shape.Part.{Part};
ghost use Rattle.ir_model.specs.declared.module.Function.{Function};
ghost use Rattle.ir_model.specs.declared.module.Module.{Module};
ghost use Rattle.pass_exits_proof.specs.split.rules.Parted.{IsPartOf};
ghost use Rattle.pass_exits_proof.specs.split.rules.Splittable.{IsSplittable};
ghost use Rattle.pass_fetch_proof.specs.rule_laws.rules.replaced.Instructions.{KnowsItsLocals};
ghost use Rattle.pass_fetch_proof.specs.ir_parts.Locals.{locals_of};
ghost use Rattle.pass_fetch_proof.specs.rule_names.Definitions.{first_twice};

/// No path of a part of a coroutine reaches a use without its value (F2).
pub fn parts_make_what_they_use()
    ensures { (m : Module) (k l : ℕ) (layout : Layout) (part : Part) (begin : ℕ) (f g : Function) → IsSplittable m k f begin → IsPartOf (shape_of f layout) f part g → IsFirstUndefined g (uses_of l g) None }
{}

/// The locals that a part names are its own (N2).
pub fn parts_name_their_own_locals()
    ensures { (m : Module) (k l : ℕ) (layout : Layout) (part : Part) (begin : ℕ) (f g : Function) → IsSplittable m k f begin → IsPartOf (shape_of f layout) f part g → KnowsItsLocals l g }
{}

/// A part defines each of its locals once (N1).
pub fn parts_define_locals_once()
    ensures { (m : Module) (k l : ℕ) (layout : Layout) (part : Part) (begin : ℕ) (f g : Function) → IsSplittable m k f begin → IsPartOf (shape_of f layout) f part g → first_twice [] (locals_of l g) ≡ None }
{}
