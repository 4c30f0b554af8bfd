//! The start of both runs.

ghost use Rattle.std.specs.Prelude.{List, Some, false, length, slice_get, ◌<◌, ◌^◌, ◌≡◌, ℕ};
ghost use Rattle.pass_elide_proof.specs.Elision.{Elision, elided_code, function_in};
ghost use Rattle.pass_elide_proof.specs.Match.{AreElided};
ghost use Rattle.pass_proofs.specs.ir_base.declared.outcome.Word.{Word};
ghost use Rattle.pass_proofs.specs.run_laws.memory.Standing.{Embeds, own_homes};
ghost use Rattle.pass_proofs.specs.run_memory.Memory.{owner_rights};
ghost use Rattle.pass_proofs.specs.run_memory.declared.block.MemoryBlock.{MemoryBlock};
ghost use Rattle.pass_proofs.specs.run_source.Source.{first_state};
ghost use Rattle.pass_proofs.specs.run_step.Step.{first_world};

/// The states in which both runs start stand beside each other. The entry is a function that is no coroutine. Globals
/// stand in themselves, and have small sizes.
pub fn runs_start_beside_each_other()
    ensures { (e : Elision) (entry : ℕ) (args : List Word) → (function_in e entry).coroutine ≡ false
        → Embeds owner_rights owner_rights (own_homes 0 (length (first_world e.code).memory))
        (first_world e.code).memory
        (first_world e.code).memory
        → ((b : ℕ) (x : MemoryBlock) → slice_get (first_world e.code).memory b ≡ Some x → x.size < 2 ^ 64)
        → AreElided e (first_state e.code entry args) (first_state (elided_code e) entry args) }
{}
