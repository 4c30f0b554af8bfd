//! The blocks in which a coroutine asks for its frame and frees it.

ghost use Rattle.elide_shape.specs.Frees.{is_tested_next};
ghost use Rattle.elide_shape.specs.Guard.{is_guarded};
ghost use Rattle.pass_elide_ready.specs.Blocks.{AskingBlocks, AsksBlocks, FreeingBlocks, FreesBlocks};
ghost use Rattle.pass_elide_ready.specs.Ways.{HasSameEnds};
ghost use Rattle.pass_elide_edges.specs.pass_elide_proof.pass_proofs.ir_model.declared.module.Block.{Block};
ghost use Rattle.pass_elide_edges.specs.pass_elide_proof.pass_proofs.ir_model.declared.module.Function.{Function};
ghost use Rattle.pass_elide_edges.specs.pass_elide_proof.pass_proofs.ir_model.declared.module.Module.{Module};
ghost use Rattle.pass_elide_edges.specs.pass_elide_proof.pass_proofs.pass_edges.EdgeBlocks.{with_edge_blocks};
ghost use Rattle.pass_elide_edges.specs.pass_elide_proof.pass_proofs.rule_laws.rules.function_rules.Kept.{KeepsFunctionRules};
ghost use Rattle.std.specs.Prelude.{Some, slice_get, true, ◌≡◌, ℕ};

/// A guarded coroutine whose edges have blocks asks for its frame at the end of one block. The allocator's block and
/// the block beside it have single entries, and so have the blocks on edges to begin's block.
pub fn guarded_coroutines_ask_in_blocks()
    ensures edges { (m : Module) (k : ℕ) (f : Function) → KeepsFunctionRules m k f → is_guarded f ≡ true
        → (a : AskingBlocks) × AsksBlocks (with_edge_blocks f) a }
    ensures alike { (f g : Function) → HasSameEnds f g → (a : AskingBlocks) → AsksBlocks f a → AsksBlocks g a }
{}

/// Where a coroutine tests what coro.free gave, it frees it in a block of a single entry. Behind that and beside it
/// stand two blocks on edges to one block, or that block alone.
pub fn tested_frees_have_blocks()
    ensures edges { (m : Module) (number : ℕ) (f : Function) → KeepsFunctionRules m number f → (k from v at : ℕ)
        (b : Block) → slice_get f.blocks k ≡ Some b → is_tested_next f from v b at ≡ true
        → (q : FreeingBlocks) × FreesBlocks (with_edge_blocks f) q }
    ensures alike { (f g : Function) → HasSameEnds f g → (q : FreeingBlocks) → FreesBlocks f q → FreesBlocks g q }
{}
