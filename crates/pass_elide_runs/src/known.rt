//! States of both runs are known.

ghost use Rattle.pass_elide_proof.specs.Elision.{Elision, elided, framed, function_in};
ghost use Rattle.pass_elide_proof.specs.Match.{instance_in};
ghost use Rattle.pass_elide_proof.specs.Placing.{KeepsPlaces};
ghost use Rattle.pass_elide_runs.specs.Keeps.{KeepsRuns, KnowsFramed, KnowsGiving};
ghost use Rattle.pass_elide_proof.specs.pass_proofs.ir_base.declared.outcome.Outcome.{Outcome};
ghost use Rattle.pass_elide_proof.specs.pass_proofs.ir_base.declared.outcome.Word.{Word};
ghost use Rattle.pass_elide_proof.specs.pass_proofs.ir_model.Names.{is_local};
ghost use Rattle.pass_elide_proof.specs.pass_proofs.ir_model.declared.operand.Intrinsic.{Intrinsic};
ghost use Rattle.pass_elide_proof.specs.pass_proofs.ir_paths.Windows.{call_operand};
ghost use Rattle.pass_elide_proof.specs.pass_proofs.pass_kept_proof.SuspendRules.{IsCallAt};
ghost use Rattle.pass_elide_proof.specs.pass_proofs.run_agreement.Machines.{IsFine};
ghost use Rattle.pass_elide_proof.specs.pass_proofs.run_framed.Framed.{framed_state_at};
ghost use Rattle.pass_elide_proof.specs.pass_proofs.run_source.State.{is_finished};
ghost use Rattle.pass_elide_proof.specs.pass_proofs.run_source.declared.state.Instance.{Instance};
ghost use Rattle.pass_elide_proof.specs.pass_proofs.run_source.declared.state.State.{State};
ghost use Rattle.run_hooks.specs.Away.{point_in};
ghost use Rattle.std.specs.Prelude.{List, Some, false, ◌≡◌, ℕ};

/// By what the framed module keeps, each state of both runs is known.
pub fn states_of_runs_are_known()
    ensures framed { (e : Elision) (entry : ℕ) (args : List Word) (n : ℕ) → KeepsPlaces e → KeepsRuns e
        → (function_in e entry).coroutine ≡ false → IsFine (framed_state_at (framed e) entry args n).outcome
        → KnowsFramed e (framed_state_at (framed e) entry args n) }
    ensures giving { (e : Elision) (entry : ℕ) (args : List Word) (n : ℕ) → KeepsPlaces e → KeepsRuns e
        → (function_in e entry).coroutine ≡ false → IsFine (framed_state_at (elided e) entry args n).outcome
        → KnowsGiving e (framed_state_at (elided e) entry args n) }
{}

/// In a known state the own instance isn't Finished at a save, or at a suspend without a token.
pub fn known_instances_go_on()
    ensures saves { (e : Elision) (s : State) → KeepsRuns e → KnowsFramed e s → s.outcome ≡ Outcome.Running
        → IsCallAt Intrinsic.CoroSave (function_in e s.top.func) (point_in s.top) → (x : Instance)
        → instance_in s.instances s.top.instance ≡ Some x → is_finished x.status ≡ false }
    ensures suspends { (e : Elision) (s : State) → KeepsRuns e → KnowsFramed e s → s.outcome ≡ Outcome.Running
        → (is : IsCallAt Intrinsic.CoroSuspend (function_in e s.top.func) (point_in s.top))
        → ((v : ℕ) → is_local v (call_operand is.instr 0) ≡ false) → (x : Instance)
        → instance_in s.instances s.top.instance ≡ Some x → is_finished x.status ≡ false }
{}
