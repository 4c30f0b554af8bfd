//! A live slot of an instance may be alive where the instance is: at the suspend where it is Suspended, else where its
//! activation that hasn't left stands.
//!
//! Each address that an alloca has given is that of a slot of its own activation or instance (`AreTagged`). So a marker
//! starts or ends that slot alone. No marker of a coroutine slot stands in a window or after the end, so one that
//! has left marks none. A slot without markers may be alive behind begin.
//!
//! The point behind the last start of a coroutine slot lies outside the end's block and what that reaches. All slots
//! that live now may be alive there (`AreMet`), wherever the activation has gone since. So any two of them conflict.

ghost use Rattle.std.specs.Prelude.{◌≡◌, ℕ, Bool, true, false, List, Some, slice_get};
ghost use Rattle.pass_renewed_proof.specs.frame_classes.Alive.{MayBeAlive};
ghost use Rattle.frame_conflicts.specs.Conflicts.{Conflict};
ghost use Rattle.pass_renewed_proof.specs.ir_base.declared.outcome.Word.{Word};
ghost use Rattle.pass_renewed_proof.specs.ir_model.Names.{function_at};
ghost use Rattle.pass_renewed_proof.specs.ir_model.declared.module.Function.{Function};
ghost use Rattle.pass_renewed_proof.specs.ir_model.declared.module.Module.{Module};
ghost use Rattle.pass_renewed_proof.specs.ir_model.declared.operand.Intrinsic.{Intrinsic};
ghost use Rattle.pass_renewed_proof.specs.ir_paths.declared.point.Point.{Point};
ghost use Rattle.pass_renewed_proof.specs.pass_kept_proof.SuspendRules.{IsCallAt};
ghost use Rattle.run_hooks.specs.Away.{IsPlacedState, KeepsAllPlaceRules};
ghost use Rattle.run_hooks.specs.Hooks.{step_of};
ghost use Rattle.run_hooks.specs.Left.{IsLastState};
ghost use Rattle.run_hooks.specs.Reached.{AllHaveSwitches, IsReachedState};
ghost use Rattle.run_hooks.specs.alive.Alive.{
  AreAliveAt,
  HandsOver,
  IsAliveSomewhere,
  IsAliveState,
  KeepsAllAliveRules,
  handing,
};
ghost use Rattle.run_hooks.specs.alive.Apart.{LiveAreApart};
ghost use Rattle.run_hooks.specs.alive.Slots.{lives};
ghost use Rattle.run_hooks.specs.alive.Worked as worked;
ghost use Rattle.pass_renewed_proof.specs.pass_kept_proof.Kept.{Keep, continue_keeping};
ghost use Rattle.pass_renewed_proof.specs.run_memory.declared.block.MemoryBlock.{MemoryBlock as TheBlock};
ghost use Rattle.pass_renewed_proof.specs.run_source.Source.{first_state, state_at, step_by};
ghost use Rattle.pass_renewed_proof.specs.run_source.declared.state.Instance.{Instance};
ghost use Rattle.pass_renewed_proof.specs.run_source.declared.state.State.{State};
ghost use Rattle.pass_renewed_proof.specs.run_source.declared.state.Status.{Status};
ghost use Rattle.pass_renewed_proof.specs.run_source_tables.Given.{Given};
ghost use Rattle.pass_renewed_proof.specs.run_step.Runs.{iterate};
ghost use Rattle.pass_renewed_proof.specs.run_step.Values.{Env};
ghost use Rattle.pass_renewed_proof.specs.run_step.declared.world.Slot.{Slot};

/// It holds at the start, and each step keeps it where a resume hands on the addresses of the slots that count. So it
/// holds in each state of a source run, and of one in which a resume hands on these and any other values. A live slot
/// may be alive at the suspend where its instance is Suspended, and where the activation is that goes on in a Running
/// one.
pub fn live_slots_may_be_alive()
    ensures first { (g : Given) (counts : ℕ → ℕ → Bool) (entry : ℕ) (args : List Word)
        → IsAliveState g.code counts (first_state g.code entry args) }
    ensures step { (g : Given) (counts : ℕ → ℕ → Bool) (hand : ℕ → Point → Env → Env)
        → HandsOver g.code counts hand → KeepsAllAliveRules g → KeepsAllPlaceRules g → AllHaveSwitches g.code
        → (s : State) → IsAliveState g.code counts s → IsReachedState g s → IsLastState s
        → IsPlacedState (handing g hand) s → IsAliveState g.code counts (step_of (handing g hand) s) }
    ensures source { (g : Given) (counts : ℕ → ℕ → Bool) (entry : ℕ) (args : List Word) (n : ℕ)
        → KeepsAllAliveRules g → KeepsAllPlaceRules g → AllHaveSwitches g.code
        → IsAliveState g.code counts (state_at g entry args n) }
    ensures kept { (g : Given) (keep : Keep) (counts : ℕ → ℕ → Bool)
        → ((func : ℕ) (u : Point) (v : ℕ) → IsCallAt Intrinsic.CoroSuspend (function_at g.code func) u
        → counts func v ≡ true → keep func u v ≡ true)
        → (entry : ℕ) (args : List Word) (n : ℕ)
        → KeepsAllAliveRules g → KeepsAllPlaceRules g → AllHaveSwitches g.code
        → IsAliveState g.code counts
        (iterate (step_by g (continue_keeping g keep)) n (first_state g.code entry args)) }
    ensures running { (m : Module) (counts : ℕ → ℕ → Bool) (s : State) → IsAliveState m counts s → (i : ℕ)
        (x : Instance) → slice_get s.instances i ≡ Some x → x.status ≡ Status.Running → x.freed ≡ false
        → IsAliveSomewhere m counts s i x }
    ensures alive { (counts : ℕ → Bool) (memory : List TheBlock) (f : Function) (values : Env) (p : Point)
        (x : Instance) → AreAliveAt counts memory f values p x → (n : ℕ) (slot : Slot)
        → slice_get x.slots n ≡ Some slot → lives memory slot.block ≡ true → counts slot.alloca ≡ true
        → MayBeAlive f slot.alloca p }
    ensures suspended { (m : Module) (counts : ℕ → ℕ → Bool) (s : State) → IsAliveState m counts s → (i n : ℕ)
        (x : Instance) (u : Point) (values : Env) (slot : Slot) → slice_get s.instances i ≡ Some x
        → x.status ≡ Status.Suspended u values → slice_get x.slots n ≡ Some slot
        → lives s.world.memory slot.block ≡ true → counts x.coroutine slot.alloca ≡ true
        → MayBeAlive (function_at m x.coroutine) slot.alloca u }
{}

/// A run comes to a state in which an instance is Suspended and two of its slots with markers live.
#[tactic(none)]
pub fn worked_slots_live()
    ensures { worked.Computes }
{}

/// Two live slots of one instance conflict, in each state of a run of a source. A live slot may be alive at the
/// suspend where its instance is Suspended, so it conflicts with each value that crosses that suspend.
pub fn live_slots_conflict()
    ensures states { (m : Module) (counts : ℕ → ℕ → Bool) (s : State) → IsAliveState m counts s → (i j k : ℕ)
        (x : Instance) (one other : Slot) → slice_get s.instances i ≡ Some x → slice_get x.slots j ≡ Some one
        → slice_get x.slots k ≡ Some other → lives s.world.memory one.block ≡ true
        → lives s.world.memory other.block ≡ true → counts x.coroutine one.alloca ≡ true
        → counts x.coroutine other.alloca ≡ true
        → Conflict (function_at m x.coroutine) one.alloca other.alloca }
    ensures source { (g : Given) (entry : ℕ) (args : List Word) (n : ℕ)
        → KeepsAllAliveRules g → KeepsAllPlaceRules g → AllHaveSwitches g.code
        → LiveAreApart g.code (state_at g entry args n) }
{}
