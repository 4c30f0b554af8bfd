//! The two runs start in states that stand beside each other.

ghost use Rattle.std.specs.Prelude.{◌≡◌, ◌<◌, ◌^◌, ℕ, List, Some, false, length, slice_get};
ghost use Rattle.pass_proofs.specs.ir_base.declared.outcome.Word.{Word};
ghost use Rattle.pass_proofs.specs.ir_model.Names.{function_at};
ghost use Rattle.pass_proofs.specs.ir_model.declared.module.Module.{Module};
ghost use Rattle.pass_frames_code.specs.Related.{AreBuilt, AreBuiltOf, Building, is_coroutine};
ghost use Rattle.pass_proofs.specs.run_laws.memory.Standing.{Embeds, own_homes};
ghost use Rattle.pass_proofs.specs.run_memory.Memory.{owner_rights};
ghost use Rattle.pass_proofs.specs.run_memory.declared.block.MemoryBlock.{MemoryBlock};
ghost use Rattle.pass_proofs.specs.run_source.Source.{first_state};
ghost use Rattle.pass_proofs.specs.run_step.Step.{first_world};

/// They do where the entry is no coroutine and the globals are the same in both, and stand in themselves.
pub fn starts_stand_beside_each_other()
    ensures { (b : Building) (code : Module) (entry : ℕ) (args : List Word) → AreBuilt b
        → is_coroutine b entry ≡ false → function_at code entry ≡ function_at b.code entry
        → first_world b.framed_code ≡ first_world code
        → Embeds owner_rights owner_rights (own_homes 0 (length (first_world code).memory)) (first_world code).memory
        (first_world code).memory
        → ((n : ℕ) (x : MemoryBlock) → slice_get (first_world code).memory n ≡ Some x → x.size < 2 ^ 64)
        → AreBuiltOf b (first_state code entry args) (first_state b.framed_code entry args) }
{}
