//! The block beside the allocation.

ghost use Rattle.pass_elide_meaning.specs.pass_elide_edges.Keeping.{KeepsEnds};
ghost use Rattle.pass_elide_meaning.specs.pass_elide_edges.pass_elide_proof.Elision.{Elision, elided};
ghost use Rattle.pass_elide_meaning.specs.pass_elide_edges.pass_elide_proof.Places.{instrs_of};
ghost use Rattle.pass_elide_meaning.specs.pass_elide_edges.pass_elide_proof.Placing.{KeepsPlaces};
ghost use Rattle.pass_elide_meaning.specs.pass_elide_edges.pass_elide_proof.pass_proofs.ir_base.declared.outcome.Word.{Word};
ghost use Rattle.pass_elide_meaning.specs.pass_elide_edges.pass_elide_proof.pass_proofs.ir_model.declared.instr.Instr.{Instr};
ghost use Rattle.pass_elide_meaning.specs.pass_elide_edges.pass_elide_proof.pass_proofs.ir_model.declared.module.Function.{Function};
ghost use Rattle.pass_elide_meaning.specs.pass_elide_edges.pass_elide_proof.pass_proofs.ir_model.declared.module.Module.{Module};
ghost use Rattle.pass_elide_meaning.specs.pass_elide_edges.pass_elide_proof.pass_proofs.ir_model.declared.module.Param.{Param};
ghost use Rattle.pass_elide_meaning.specs.pass_elide_edges.pass_elide_proof.pass_proofs.ir_parts.Contents.{result_of};
ghost use Rattle.pass_elide_meaning.specs.pass_elide_edges.pass_elide_proof.pass_proofs.rule_laws.rules.function_rules.Kept.{KeepsFunctionRules};
ghost use Rattle.pass_elide_meaning.specs.pass_elide_edges.pass_elide_proof.pass_proofs.run_agreement.Machines.{IsFine};
ghost use Rattle.pass_elide_meaning.specs.pass_elide_edges.pass_elide_proof.pass_proofs.run_framed.Framed.{framed_state_at};
ghost use Rattle.pass_elide_meaning.specs.pass_elide_edges.pass_elide_proof.pass_proofs.run_laws.changed.Changed.{Each};
ghost use Rattle.pass_elide_lacks.specs.Aside.{StandAside};
ghost use Rattle.pass_elide_lacks.specs.Keeps.{KeepsAsked};
ghost use Rattle.pass_elide_meaning.specs.pass_elide_runs.Keeps.{KeepsRuns};
ghost use Rattle.std.specs.Prelude.{List, Some, slice_get, ◌≡◌, ◌≢◌, ℕ};

/// In each state of the run that gives frames a ramp that was given its frame alone is in the block beside the
/// allocator's. That block is entered by one branch, on what coro.alloc gave, and no switch of a suspend leads there.
pub fn given_ramps_stand_aside()
    ensures { (e : Elision) (entry : ℕ) (args : List Word) (n : ℕ) → KeepsPlaces e → KeepsEnds e → KeepsRuns e
        → KeepsAsked e → IsFine (framed_state_at (elided e) entry args n).outcome
        → StandAside e (framed_state_at (elided e) entry args n) }
{}

/// No parameter has the name of what an instruction gives, as what coro.alloc gives (N1).
pub fn names_of_instructions_are_no_parameters()
    ensures { (m : Module) (k : ℕ) (f : Function) → KeepsFunctionRules m k f → (block at v : ℕ) (i : Instr)
        → slice_get (instrs_of f block) at ≡ Some i → result_of i ≡ Some v
        → Each (λ (p : Param). p.name ≢ v) f.params }
{}
