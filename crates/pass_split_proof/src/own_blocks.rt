//! Each frame of a framed run begins a block of an allocator, or was given by a call. What an activation's allocas have
//! given are blocks of others.
//!
//! So a marker, whose operand is an alloca (K13), marks no block of an allocator (`MarksNoHeaps`). A ramp is given its
//! frame only where a call of the module gives one (`GivesFrames`), and an activation that was resumed has an instance.

ghost use Rattle.std.specs.Prelude.{◌≡◌, ℕ, false, List};
ghost use Rattle.pass_proofs.specs.ir_base.declared.outcome.Word.{Word};
ghost use Rattle.pass_proofs.specs.ir_model.Names.{function_at};
ghost use Rattle.pass_split_proof.specs.held.Kept.{MarksNoHeaps};
ghost use Rattle.pass_split_proof.specs.own_blocks.Own.{HasOwnBlocks, IsOwnState};
ghost use Rattle.pass_proofs.specs.run_framed.Framed.{FramedGiven, framed_state_at, framed_step};
ghost use Rattle.pass_proofs.specs.run_source.declared.state.State.{State as TheState};

/// Each step of a framed run keeps that, and so does a run.
pub fn frames_begin_allocated_blocks()
    ensures step { (g : FramedGiven) → HasOwnBlocks g.given.code → (s : TheState) → IsOwnState g.given.code s
        → IsOwnState g.given.code (framed_step g s) }
    ensures runs { (g : FramedGiven) → HasOwnBlocks g.given.code → (entry : ℕ) (args : List Word)
        → (function_at g.given.code entry).coroutine ≡ false → (n : ℕ)
        → IsOwnState g.given.code (framed_state_at g entry args n) }
    ensures marks { (g : FramedGiven) → HasOwnBlocks g.given.code → (entry : ℕ) (args : List Word)
        → (function_at g.given.code entry).coroutine ≡ false → MarksNoHeaps g entry args }
{}
