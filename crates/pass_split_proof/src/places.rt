//! Where the code of a function stands in what splitting makes of it.
//!
//! A ramp has the code of its coroutine from its first place on (`codes_begin_in_front`). What stands for an
//! instruction is told by where the pass cuts (`instructions_have_code`). The end of a block leads where it led
//! (`ends_of_blocks_have_code`). At a suspend the part takes the stop edge
//! (`suspends_take_the_stop_edge`).

ghost use Rattle.std.specs.Prelude.{◌≡◌, ℕ, List, Some, slice_get, true, false, ◌+◌, ◌∷◌};
ghost use Rattle.pass_proofs.specs.flow_solver.Paths.{IsListed};
ghost use Rattle.pass_proofs.specs.frame_layout.declared.layout.Layout.{Layout};
ghost use Rattle.pass_proofs.specs.ir_model.Names.{position_of};
ghost use Rattle.pass_proofs.specs.ir_model.declared.instr.Instr.{Instr};
ghost use Rattle.pass_proofs.specs.ir_model.declared.instr.Terminator.{Terminator};
ghost use Rattle.pass_proofs.specs.ir_model.declared.module.Block.{Block};
ghost use Rattle.pass_proofs.specs.ir_model.declared.module.Function.{Function};
ghost use Rattle.pass_proofs.specs.ir_model.declared.module.Module.{Module};
ghost use Rattle.pass_proofs.specs.ir_paths.Paths.{targets};
ghost use Rattle.pass_proofs.specs.pass_intrinsics.Cuts.{cut_at, goes_on};
ghost use Rattle.pass_proofs.specs.pass_intrinsics.Shapes.{shape_of};
ghost use Rattle.pass_proofs.specs.pass_intrinsics.declared.cuts.Cut.{Cut};
ghost use Rattle.pass_proofs.specs.pass_intrinsics.declared.shape.Part.{Part};
ghost use Rattle.pass_proofs.specs.pass_intrinsics.declared.shape.Shape.{Shape};
ghost use Rattle.pass_split_proof.specs.places.Places.{Enters, HasCode, IsCodeOf, IsPlace, IsStop, IsSuspendOf, Leads, StartsWithEnd};
ghost use Rattle.pass_proofs.specs.split.rules.Parted.{IsPartOf};
ghost use Rattle.pass_proofs.specs.split.rules.Splittable.{IsSplittable};
ghost use Rattle.pass_proofs.specs.pass_split.Pieces.{redirected_term};
ghost use Rattle.pass_proofs.specs.rule_shape.Suspends.{is_suspend};
ghost use Rattle.pass_proofs.specs.run_laws.access.Lines.{StandAt};
ghost use Rattle.pass_proofs.specs.run_step.Step.{AtInstr, AtTerm, fetch, label_of, values_in};
ghost use Rattle.pass_proofs.specs.run_step.Values.{Env as TheEnv};

/// At a place of a function its instruction has code in what splitting makes of it, and behind both is a place again.
pub fn instructions_have_code()
    ensures { (s : Shape) (part : Part) (f g : Function) (block at piece offset : ℕ) (i : Instr) → IsPlace s part f g block at piece offset → fetch f block at ≡ AtInstr i → HasCode s part f g block at piece offset i }
{}

/// So does the end of a block, whose edges lead to the places to which they led, and set phis to the same.
pub fn ends_of_blocks_have_code()
    ensures { (f g : Function) (s : Shape) (part : Part) (block at piece offset : ℕ) (t : Terminator) → IsCodeOf f g s part → IsPlace s part f g block at piece offset → fetch f block at ≡ AtTerm t → (fetch g piece offset ≡ AtTerm (redirected_term s t)) × ((label : ℕ) → IsListed label (targets t) → Leads s part f g block piece label) }
{}

/// A suspend stands last in its block, whose switch goes to the end when the suspend is left.
pub fn suspends_stand_last()
    ensures { (m : Module) (k : ℕ) (f : Function) (begin block at : ℕ) (i : Instr) (layout : Layout) → IsSplittable m k f begin → fetch f block at ≡ AtInstr i → is_suspend i ≡ true → IsStop f block at i (shape_of f layout).end }
{}

/// At a suspend a part takes the stop edge.
pub fn suspends_take_the_stop_edge()
    ensures { (m : Module) (k : ℕ) (f g : Function) (begin block at piece offset : ℕ) (i : Instr) (layout : Layout) (part : Part) → IsSplittable m k f begin → IsPartOf (shape_of f layout) f part g → IsPlace (shape_of f layout) part f g block at piece offset → fetch f block at ≡ AtInstr i → is_suspend i ≡ true → (fetch g piece offset ≡ AtTerm (Terminator.Jump (shape_of f layout).end)) × Enters (shape_of f layout) part f g block piece (shape_of f layout).end }
{}

/// A resume that transfers stands right before the suspend of its number.
pub fn transfers_stand_before_their_suspends()
    ensures { (s : Shape) (part : Part) (f : Function) (block at j : ℕ) (i : Instr) (after : List Instr) → StandAt f block at (i ∷ after) → cut_at s part i after ≡ Cut.Transfers j → IsSuspendOf s f block (at + 1) j }
{}

/// The end of a coroutine stands first in its block, which has no phis.
pub fn ends_stand_first()
    ensures { (m : Module) (k : ℕ) (f : Function) (begin : ℕ) (layout : Layout) → IsSplittable m k f begin → StartsWithEnd f (shape_of f layout).end }
{}

/// The code of a ramp begins where the coroutine does, and so does that of a function that is no coroutine.
pub fn codes_begin_in_front()
    ensures { (f g : Function) (s : Shape) (part : Part) (b : Block) → IsCodeOf f g s part → goes_on part ≡ false → slice_get f.blocks 0 ≡ Some b → IsPlace s part f g 0 0 0 0 }
{}

/// Where an edge enters a block phis set the same names to the same values, in any module.
pub fn edges_set_phis_to_the_same()
    ensures { (s : Shape) (part : Part) (f g : Function) (block from label : ℕ) → Enters s part f g block from label → (m : Module) (env : TheEnv) → values_in m (slice_get g.blocks (position_of g label)) (label_of (slice_get g.blocks from)) env ≡ values_in m (slice_get f.blocks (position_of f label)) (label_of (slice_get f.blocks block)) env }
{}
