//! Instances until they are Finished.

ghost use Rattle.pass_elide_proof.specs.Match.{instance_in};
ghost use Rattle.pass_elide_runs.specs.Ends.{EndsOnce, GoOnTillEnd};
ghost use Rattle.pass_elide_proof.specs.pass_proofs.ir_base.declared.outcome.Outcome.{Outcome};
ghost use Rattle.pass_elide_proof.specs.pass_proofs.ir_base.declared.outcome.Word.{Word};
ghost use Rattle.pass_elide_proof.specs.pass_proofs.ir_model.Names.{function_at, is_local};
ghost use Rattle.pass_elide_proof.specs.pass_proofs.ir_model.declared.module.Module.{Module};
ghost use Rattle.pass_elide_proof.specs.pass_proofs.ir_model.declared.operand.Intrinsic.{Intrinsic};
ghost use Rattle.pass_elide_proof.specs.pass_proofs.ir_paths.Windows.{call_operand};
ghost use Rattle.pass_elide_proof.specs.pass_proofs.pass_kept_proof.SuspendRules.{IsCallAt};
ghost use Rattle.pass_elide_proof.specs.pass_proofs.run_agreement.Machines.{IsFine};
ghost use Rattle.pass_elide_proof.specs.pass_proofs.run_framed.Framed.{FramedGiven, framed_state_at};
ghost use Rattle.pass_elide_proof.specs.pass_proofs.run_source.State.{function_of, is_finished};
ghost use Rattle.pass_elide_proof.specs.pass_proofs.run_source.declared.state.Instance.{Instance};
ghost use Rattle.pass_elide_proof.specs.pass_proofs.run_source.declared.state.State.{State};
ghost use Rattle.run_hooks.specs.Away.{IsPlacedState, KeepsPlaceRules, point_in};
ghost use Rattle.run_hooks.specs.Hooks.{Hooks};
ghost use Rattle.run_hooks.specs.Reached.{AllHaveSwitches};
ghost use Rattle.std.specs.Prelude.{List, Some, false, ◌≡◌, ℕ};

/// The instance of an activation that hasn't left is Finished only where a path leads to the place from the end. A
/// ramp goes on there.
pub fn instances_go_on_till_the_end()
    ensures { (g : FramedGiven) (entry : ℕ) (args : List Word) (n : ℕ) → AllHaveSwitches g.given.code
        → (function_at g.given.code entry).coroutine ≡ false → IsFine (framed_state_at g entry args n).outcome
        → GoOnTillEnd g.given.code (framed_state_at g entry args n) }
{}

/// So the own instance isn't Finished where an activation that hasn't left comes to a save, a suspend or the end.
pub fn own_instances_go_on_at_calls()
    ensures saves { (m : Module) (s : State) → GoOnTillEnd m s → s.outcome ≡ Outcome.Running
        → s.top.has_left ≡ false → EndsOnce (function_at m s.top.func)
        → IsCallAt Intrinsic.CoroSave (function_at m s.top.func) (record { block = s.top.block; at = s.top.at })
        → (x : Instance) → instance_in s.instances s.top.instance ≡ Some x → is_finished x.status ≡ false }
    ensures suspends { (m : Module) (s : State) → GoOnTillEnd m s → s.outcome ≡ Outcome.Running
        → s.top.has_left ≡ false → EndsOnce (function_at m s.top.func)
        → IsCallAt Intrinsic.CoroSuspend (function_at m s.top.func) (record { block = s.top.block; at = s.top.at })
        → (x : Instance) → instance_in s.instances s.top.instance ≡ Some x → is_finished x.status ≡ false }
    ensures ends { (m : Module) (s : State) → GoOnTillEnd m s → s.outcome ≡ Outcome.Running
        → s.top.has_left ≡ false → EndsOnce (function_at m s.top.func)
        → IsCallAt Intrinsic.CoroEnd (function_at m s.top.func) (record { block = s.top.block; at = s.top.at })
        → (x : Instance) → instance_in s.instances s.top.instance ≡ Some x → is_finished x.status ≡ false }
{}

/// An activation that comes to a save, or to a suspend without a token, hasn't left.
pub fn activations_at_saves_have_not_left()
    ensures saves { (h : Hooks) (s : State) → IsPlacedState h s
        → KeepsPlaceRules h.given.code (function_of h.given s) → EndsOnce (function_of h.given s)
        → IsCallAt Intrinsic.CoroSave (function_of h.given s) (point_in s.top) → s.top.has_left ≡ false }
    ensures suspends { (h : Hooks) (s : State) → IsPlacedState h s
        → KeepsPlaceRules h.given.code (function_of h.given s) → EndsOnce (function_of h.given s)
        → (is : IsCallAt Intrinsic.CoroSuspend (function_of h.given s) (point_in s.top))
        → ((v : ℕ) → is_local v (call_operand is.instr 0) ≡ false) → s.top.has_left ≡ false }
{}
