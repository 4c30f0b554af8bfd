//! The parts into which a coroutine is split break none of the rules of modules without coroutines.
//!
//! Each block is cut into pieces (`blocks_are_cut_into_pieces`). The parts break no rule on types, calls, sizes and
//! `musttail` (`parts_keep_rules_of_instructions`). They know their names and fit their types
//! (`parts_know_names_and_fit_types`), where the locals that they name are their own and the parts that go on return
//! nothing. The search for the blocks that a function keeps finds exactly those to which paths from its entry lead
//! (`flagged_labels_are_those_reached`). There labels are positions of its table of names.

ghost use Rattle.std.specs.Prelude.{ℕ, List, ◌≡◌, Some, slice_get, true, false, None};
ghost use Rattle.pass_split.specs.Pieces.{next_after, pieces_of};
ghost use Rattle.pass_split.specs.declared.origin.Origin.{Origin};
ghost use Rattle.pass_fetch_proof.specs.pass_intrinsics.declared.shape.Part.{Part};
ghost use Rattle.pass_fetch_proof.specs.pass_intrinsics.declared.shape.Shape.{Shape};
ghost use Rattle.ir_model.specs.declared.module.Block.{Block};
ghost use Rattle.pass_exits_proof.specs.split.rules.Pieced.{ArePiecesOf};
ghost use Rattle.pass_fetch_proof.specs.frame_layout.declared.layout.Layout.{Layout};
ghost use Rattle.pass_fetch_proof.specs.rule_laws.rules.function_rules.Kept.{KeepsFunctionRules, KeepsFunctionRulesAt};
ghost use Rattle.pass_fetch_proof.specs.pass_intrinsics.Shapes.{shape_of};
ghost use Rattle.ir_model.specs.declared.module.Function.{Function};
ghost use Rattle.ir_model.specs.declared.module.Module.{Module};
ghost use Rattle.pass_fetch_proof.specs.rule_laws.frames.same_names.Parts.{HasPart, HasPartsOf};
ghost use Rattle.pass_fetch_proof.specs.rule_laws.rules.replaced.Instructions.{KeepsRulesOfInstructions, KnowsItsLocals};
ghost use Rattle.pass_exits_proof.specs.split.rules.Parted.{IsPartOf};
ghost use Rattle.pass_split.specs.Parts.{plain_of, plain_shape};
ghost use Rattle.pass_fetch_proof.specs.pass_intrinsics.Cuts.{goes_on};
ghost use Rattle.pass_fetch_proof.specs.rule_names.Known.{first_unknown};
ghost use Rattle.pass_fetch_proof.specs.rule_names.declared.stage.Stage.{Stage};
ghost use Rattle.pass_fetch_proof.specs.rule_laws.frames.replaced.Parted.{IsSmall};
ghost use Rattle.pass_fetch_proof.specs.rule_laws.rules.replaced.Returns.{ReturnsNothing};
ghost use Rattle.pass_exits_proof.specs.split.rules.Splittable.{IsSplittable};
ghost use Rattle.pass_fetch_proof.specs.rule_values.Values.{first_wrong_value};
ghost use Rattle.pass_split.specs.Reached.{is_flagged, reached, pruned};
ghost use Rattle.pass_exits_proof.specs.split.rules.Reached.{HasTabledLabels, IsLedTo, HasOwnBlocks};
ghost use Rattle.pass_fetch_proof.specs.flow_solver.Paths.{IsListed};
ghost use Rattle.pass_fetch_proof.specs.ir_paths.Paths.{targets};

/// What the pass makes of blocks are their pieces.
pub fn blocks_are_cut_into_pieces()
    ensures { (s : Shape) (part : Part) (origins : List Origin) (n : ℕ) (bs : List Block) → ArePiecesOf s part origins n bs (pieces_of s part origins n bs) (next_after s part origins n bs) }
{}

/// The parts of a coroutine break none of the rules on types, calls, names of functions and globals, sizes and `musttail`,
/// where the function is there that the ramp that is given its frame stores.
pub fn parts_keep_rules_of_instructions()
    ensures { (m n : Module) (k l : ℕ) (layout : Layout) (part : Part) (f g : Function) → HasPartsOf m n → slice_get m.functions k ≡ Some f → f.coroutine ≡ true → KeepsFunctionRules m k f → IsPartOf (shape_of f layout) f part g → (part ≡ Part.GivenRamp → HasPart n (shape_of f layout).cleanup_name) → KeepsRulesOfInstructions n l g }
{}

/// Nor does a function that is no coroutine, once its resumes, destroys, tests and promises are turned.
pub fn plain_functions_keep_rules_of_instructions()
    ensures { (stage : Stage) (m n : Module) (k l : ℕ) (f : Function) → HasPartsOf m n
        → slice_get m.functions k ≡ Some f → f.coroutine ≡ false → KeepsFunctionRulesAt stage m k f
        → KeepsRulesOfInstructions n l (plain_of (plain_shape f) f) }
{}

/// In the parts of a coroutine names are known (N2) and operands and results fit their types (Y1), where the locals that they
/// name are their own, the parts that go on return nothing, and the function is there that a given ramp stores.
pub fn parts_know_names_and_fit_types()
    ensures { (m n : Module) (k l : ℕ) (layout : Layout) (part : Part) (begin : ℕ) (f g : Function) → HasPartsOf m n → slice_get m.functions k ≡ Some f → IsSplittable m k f begin → IsSmall (shape_of f layout) → IsPartOf (shape_of f layout) f part g → (part ≡ Part.GivenRamp → HasPart n (shape_of f layout).cleanup_name) → KnowsItsLocals l g → (goes_on part ≡ true → ReturnsNothing l g) → (first_unknown n l g ≡ None) × (first_wrong_value n l g ≡ None) }
{}

/// So it is in what becomes of a function that is no coroutine.
pub fn plain_functions_know_names_and_fit_types()
    ensures { (stage : Stage) (m n : Module) (k l : ℕ) (f : Function) → HasPartsOf m n
        → slice_get m.functions k ≡ Some f → f.coroutine ≡ false → KeepsFunctionRulesAt stage m k f → KnowsItsLocals l (plain_of (plain_shape f) f) → (first_unknown n l (plain_of (plain_shape f) f) ≡ None) × (first_wrong_value n l (plain_of (plain_shape f) f) ≡ None) }
{}

/// The labels that are flagged are those to which paths lead from the entry.
pub fn flagged_labels_are_those_reached()
    ensures { (f : Function) → HasTabledLabels f → (label : ℕ) → (is_flagged (reached f) label ≡ true → IsLedTo f label) × (IsLedTo f label → is_flagged (reached f) label ≡ true) }
{}

/// Where the blocks that aren't reached go, the edges of the others lead to blocks that stay.
pub fn kept_blocks_lead_to_kept_blocks()
    ensures { (f : Function) → HasTabledLabels f → HasOwnBlocks f → (b : Block) (label : ℕ) → IsListed b (pruned f).blocks → IsListed label (targets b.term) → (c : Block) × (IsListed c (pruned f).blocks × (c.label ≡ label)) }
{}
