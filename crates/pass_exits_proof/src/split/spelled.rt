//! Lemmas on spelled.

ghost use Rattle.pass_fetch_proof.specs.frame_layout.declared.layout.Layout.{Layout};
ghost use Rattle.pass_fetch_proof.specs.pass_intrinsics.Shapes.{shape_of};
ghost use Rattle.pass_fetch_proof.specs.pass_intrinsics.declared.shape.Part.{Part};
ghost use Rattle.ir_model.specs.declared.module.Function.{Function};
ghost use Rattle.pass_fetch_proof.specs.rule_laws.rules.spelled.Spelled.{IsSpelledFunction};
ghost use Rattle.pass_exits_proof.specs.split.rules.Parted.{IsPartOf};
ghost use Rattle.pass_split.specs.Parts.{plain_of, plain_shape};
ghost use Rattle.std.specs.Prelude.{ℕ};
ghost use Rattle.pass_fetch_proof.specs.rule_laws.rules.source_rules.Named.{HasTabledLocals};
ghost use Rattle.ir_model.specs.declared.module.Module.{Module};
ghost use Rattle.pass_exits_proof.specs.split.rules.Splittable.{IsSplittable};
ghost use Rattle.pass_fetch_proof.specs.ir_laws.facts.spelled.Filled.{HasFilledPhis, HasNoEntryPhis};

/// So can the parts of a coroutine.
pub fn parts_can_be_spelled()
    ensures { (layout : Layout) (part : Part) (f g : Function) → IsPartOf (shape_of f layout) f part g → IsSpelledFunction f → IsSpelledFunction g }
{}

/// And a function that is no coroutine, once it is turned.
pub fn turned_functions_can_be_spelled()
    ensures { (f : Function) → IsSpelledFunction f → IsSpelledFunction (plain_of (plain_shape f) f) }
{}

/// What a part of a coroutine defines are positions of its table of names.
pub fn parts_have_tabled_locals()
    ensures { (m : Module) (k l : ℕ) (layout : Layout) (part : Part) (begin : ℕ) (f g : Function) → IsSplittable m k f begin → IsPartOf (shape_of f layout) f part g → HasTabledLocals l g }
{}

/// Each phi of a part has an operand, where the first block of the coroutine has no phis.
pub fn parts_have_operands_for_their_phis()
    ensures { (m : Module) (k : ℕ) (layout : Layout) (part : Part) (begin : ℕ) (f g : Function) → IsSplittable m k f begin → HasNoEntryPhis f.blocks → IsPartOf (shape_of f layout) f part g → HasFilledPhis g }
{}
