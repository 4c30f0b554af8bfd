//! Activations that a coro.destroy has called, until they free their instances.

ghost use Rattle.std.specs.Prelude.{List, Option, Some, slice_get, true, ◌∷◌, ◌≡◌, ℕ};
ghost use Rattle.elide_sites.specs.Destroyed.{FreesWhenDestroyed};
ghost use Rattle.pass_elide_proof.specs.Destroying.{AreDestroysOnWay, DestroysAreToFree, HasToFree, IsAtDestroyedEnd, IsBehindDestroy};
ghost use Rattle.pass_elide_proof.specs.Elision.{Elision, framed, function_in};
ghost use Rattle.pass_elide_proof.specs.Releasing.{FreesAtOnce, HaveReleased};
ghost use Rattle.pass_elide_proof.specs.Sound.{IsSoundState};
ghost use Rattle.pass_elide_proof.specs.Worked.{a_caller, before, module_of};
ghost use Rattle.pass_proofs.specs.edges.rules.Returns.{AreSwitched};
ghost use Rattle.pass_proofs.specs.ir_base.declared.outcome.Word.{Word};
ghost use Rattle.pass_proofs.specs.ir_model.Names.{function_at};
ghost use Rattle.pass_proofs.specs.ir_model.declared.module.Module.{Module as TheModule};
ghost use Rattle.pass_proofs.specs.run_framed.Framed.{FramedGiven, framed_state_at, framed_step};
ghost use Rattle.pass_proofs.specs.run_source.Source.{first_state};
ghost use Rattle.pass_proofs.specs.run_source.declared.state.Activation.{Activation};
ghost use Rattle.pass_proofs.specs.run_source.declared.state.Instance.{Instance};
ghost use Rattle.pass_proofs.specs.run_source.declared.state.State.{State};
ghost use Rattle.pass_proofs.specs.run_source_tables.Given.{Given};
ghost use Rattle.pass_proofs.specs.pass_kept_proof.Related.{AreSoundInstances};
ghost use Rattle.run_slots.specs.run_hooks.Reached.{AllHaveSwitches};

/// What stands right on top of an activation behind a coro.destroy has released its instance, or has yet to come to a
/// coro.free. Each step of a framed run keeps it, where paths lead from destroy edges.
pub fn destroyed_activations_are_to_free()
    ensures start { (m : TheModule) (entry : ℕ) (args : List Word) → DestroysAreToFree m (first_state m entry args) }
    ensures step { (g : FramedGiven) (s : State) → AreDestroysOnWay g.given.code s.instances
        → DestroysAreToFree g.given.code s → DestroysAreToFree g.given.code (framed_step g s) }
    ensures runs { (g : FramedGiven) (entry : ℕ) (args : List Word) (n : ℕ) → AllHaveSwitches g.given.code
        → ((func : ℕ) → AreSwitched (function_at g.given.code func))
        → DestroysAreToFree g.given.code (framed_state_at g entry args n) }
{}

/// Where suspends are followed by their switches, the destroy label of a suspended instance is where a destroy edge leads.
pub fn destroys_enter_at_destroy_edges()
    ensures { (g : Given) (xs : List Instance) → ((func : ℕ) → AreSwitched (function_at g.code func))
        → AreSoundInstances g xs → AreDestroysOnWay g.code xs }
{}

/// So its instance was freed when it comes to coro.end, if each path from a destroy edge to there passes a coro.free.
pub fn destroyed_instances_are_freed_at_the_end()
    ensures { (e : Elision) (s : State) → IsSoundState (framed e) s → HaveReleased e s
        → DestroysAreToFree e.code s → FreesAtOnce (function_in e s.top.func) (e.shape s.top.func)
        → FreesWhenDestroyed (function_in e s.top.func) → IsAtDestroyedEnd e.code s → (number : ℕ) (x : Instance)
        → s.top.instance ≡ Some number → slice_get s.instances number ≡ Some x → x.freed ≡ true }
{}

/// In the worked run the destroy calls an activation that is to free the instance.
#[tactic(none)]
pub fn a_worked_activation_is_to_free()
    ensures to_free { HasToFree (module_of a_caller) (before 42).instances (before 42).top }
    ensures behind { (b : Activation) × (below : List Activation) × ((before 42).below ≡ b ∷ below)
        × IsBehindDestroy a_caller b }
{}
