//! What is freed when a coroutine is destroyed.

ghost use Rattle.elide_sites.specs.Destroyed.{FreesWhenDestroyed};
ghost use Rattle.pass_elide_ready.specs.Ways.{HasSameWays};
ghost use Rattle.pass_elide_edges.specs.pass_elide_proof.pass_proofs.ir_laws.paths.threads.Labels.{HasNamedLabels};
ghost use Rattle.pass_elide_edges.specs.pass_elide_proof.pass_proofs.ir_model.declared.module.Function.{Function};
ghost use Rattle.pass_elide_edges.specs.pass_elide_proof.pass_proofs.pass_edges.EdgeBlocks.{with_edge_blocks};

/// A coroutine that frees its frame when it is destroyed, and not before, does so where its edges have blocks. So does
/// one with the same edges and the same calls in each block.
pub fn coroutines_free_alike()
    ensures edges { (f : Function) → HasNamedLabels f → FreesWhenDestroyed f
        → FreesWhenDestroyed (with_edge_blocks f) }
    ensures ways { (f g : Function) → HasSameWays f g → FreesWhenDestroyed f → FreesWhenDestroyed g }
{}
