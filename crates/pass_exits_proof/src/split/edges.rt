//! The parts into which a coroutine is split break none of the rules on edges, returns, allocas and markers.
//!
//! They break none of F1, F3 and K13. The parts that go on return nothing (`parts_that_go_on_return_nothing`).

ghost use Rattle.std.specs.Prelude.{◌≡◌, ℕ, None, true};
ghost use Rattle.pass_fetch_proof.specs.flow_solver.Paths.{IsListed};
ghost use Rattle.pass_fetch_proof.specs.frame_layout.declared.layout.Layout.{Layout};
ghost use Rattle.pass_fetch_proof.specs.pass_intrinsics.Shapes.{shape_of};
ghost use Rattle.pass_fetch_proof.specs.pass_intrinsics.declared.shape.Part.{Part};
ghost use Rattle.ir_model.specs.declared.module.Block.{Block};
ghost use Rattle.ir_model.specs.declared.module.Function.{Function};
ghost use Rattle.ir_model.specs.declared.module.Module.{Module};
ghost use Rattle.pass_fetch_proof.specs.ir_paths.Paths.{targets};
ghost use Rattle.pass_exits_proof.specs.split.rules.Parted.{IsPartOf};
ghost use Rattle.pass_exits_proof.specs.split.rules.Splittable.{IsSplittable};
ghost use Rattle.pass_fetch_proof.specs.ir_parts.Parts.{first_part, parts_of};
ghost use Rattle.pass_fetch_proof.specs.rule_names.Known.{is_label};
ghost use Rattle.pass_fetch_proof.specs.rule_laws.rules.replaced.Instructions.{names_lost};
ghost use Rattle.pass_fetch_proof.specs.rule_phis.Edges.{first_wrong_edge};
ghost use Rattle.pass_fetch_proof.specs.pass_intrinsics.Cuts.{goes_on};
ghost use Rattle.pass_fetch_proof.specs.rule_laws.rules.replaced.Returns.{ReturnsNothing};
ghost use Rattle.pass_fetch_proof.specs.rule_locals.Entries.{first_late_alloca};
ghost use Rattle.pass_fetch_proof.specs.rule_locals.Markers.{first_other_mark};
ghost use Rattle.pass_fetch_proof.specs.rule_laws.frames.same_names.Parts.{HasPartsOf};

/// The edges of a part lead to blocks of it.
pub fn edges_of_parts_lead_to_their_blocks()
    ensures { (m : Module) (k : ℕ) (layout : Layout) (part : Part) (begin : ℕ) (f g : Function) → IsSplittable m k f begin → IsPartOf (shape_of f layout) f part g → (b : Block) (label : ℕ) → IsListed b g.blocks → IsListed label (targets b.term) → (c : Block) × (IsListed c g.blocks × (c.label ≡ label)) }
{}

/// The labels that a part names are its own.
pub fn parts_name_their_own_labels()
    ensures { (m : Module) (k l : ℕ) (layout : Layout) (part : Part) (begin : ℕ) (f g : Function) → IsSplittable m k f begin → IsPartOf (shape_of f layout) f part g → first_part (names_lost (λ v. true) (is_label l g)) (parts_of l g) ≡ None }
{}

/// No edge leads to the entry block of a part, and the labels of its phis are the predecessors of their blocks (F1).
pub fn parts_keep_the_rule_of_edges()
    ensures { (m : Module) (k l : ℕ) (layout : Layout) (part : Part) (begin : ℕ) (f g : Function) → IsSplittable m k f begin → IsPartOf (shape_of f layout) f part g → first_wrong_edge l g ≡ None }
{}

/// The parts that go on behind a suspend return nothing.
pub fn parts_that_go_on_return_nothing()
    ensures { (m : Module) (k l : ℕ) (layout : Layout) (part : Part) (begin : ℕ) (f g : Function) → IsSplittable m k f begin → IsPartOf (shape_of f layout) f part g → goes_on part ≡ true → ReturnsNothing l g }
{}

/// The allocas of a part stand in its entry block (F3).
pub fn parts_keep_their_allocas_in_the_entry_block()
    ensures { (m : Module) (k l : ℕ) (layout : Layout) (part : Part) (begin : ℕ) (f g : Function) → IsSplittable m k f begin → IsPartOf (shape_of f layout) f part g → first_late_alloca l g ≡ None }
{}

/// The markers of a part name its allocas, with their sizes (K13).
pub fn parts_mark_their_allocas()
    ensures { (m n : Module) (k l : ℕ) (layout : Layout) (part : Part) (begin : ℕ) (f g : Function) → HasPartsOf m n → IsSplittable m k f begin → IsPartOf (shape_of f layout) f part g → first_other_mark n l g ≡ None }
{}
