//! What crosses no suspend.

ghost use Rattle.pass_elide_edges.specs.pass_elide_proof.Places.{instrs_of};
ghost use Rattle.pass_elide_edges.specs.pass_elide_proof.pass_proofs.flow_solver.Paths.{IsListed};
ghost use Rattle.pass_elide_edges.specs.pass_elide_proof.pass_proofs.frame_crossing.Crossing.{Crosses};
ghost use Rattle.pass_elide_edges.specs.pass_elide_proof.pass_proofs.frame_crossing.Paths.{phis_at, used_by};
ghost use Rattle.pass_elide_edges.specs.pass_elide_proof.pass_proofs.ir_model.declared.instr.Instr.{Instr};
ghost use Rattle.pass_elide_edges.specs.pass_elide_proof.pass_proofs.ir_model.declared.module.Function.{Function};
ghost use Rattle.pass_elide_edges.specs.pass_elide_proof.pass_proofs.ir_parts.Contents.{result_of};
ghost use Rattle.pass_elide_edges.specs.pass_elide_proof.pass_proofs.ir_paths.declared.point.Point.{Point};
ghost use Rattle.pass_elide_edges.specs.pass_elide_proof.pass_proofs.rule_shape.Uses.{uses_of};
ghost use Rattle.pass_elide_edges.specs.pass_elide_proof.pass_proofs.run_step.Step.{fetch};
ghost use Rattle.std.specs.Prelude.{Some, slice_get, ◌<◌, ◌≡◌, ◌≤◌, ℕ};

/// A value that is used once, behind its definition in the same block, crosses no suspend. So it is with what a phi
/// gives that is used once, in the phi's block.
pub fn values_used_in_their_blocks_cross_nothing()
    ensures instrs { (f : Function) (v q to : ℕ) → uses_of f v ≤ 1 → IsListed v (used_by (fetch f q to)) → (j : ℕ)
        (i : Instr) → slice_get (instrs_of f q) j ≡ Some i → result_of i ≡ Some v → j < to → (s : Point)
        → Crosses f v s → ⊥ }
    ensures phis { (f : Function) (v q to : ℕ) → uses_of f v ≤ 1 → IsListed v (used_by (fetch f q to))
        → IsListed v (phis_at f q) → (s : Point) → Crosses f v s → ⊥ }
{}
