//! Slots of activations.

ghost use Rattle.pass_elide_proof.specs.Elision.{Elision, elided, elided_code, function_in};
ghost use Rattle.pass_elide_proof.specs.Ends.{IsOwnSlot};
ghost use Rattle.pass_elide_proof.specs.Placing.{KeepsPlaces};
ghost use Rattle.pass_elide_proof.specs.PlacingStates.{BeginsInCoroutines};
ghost use Rattle.pass_elide_proof.specs.Sound.{KnowsAllocas};
ghost use Rattle.pass_elide_runs.specs.Kinds.{HasSlotKinds, HaveSlotKinds};
ghost use Rattle.pass_elide_runs.specs.Marks.{HasPlainAllocas, MarksAlloca, MarksOwnSlot};
ghost use Rattle.pass_elide_runs.specs.Slots.{AllocasFirst, HasItsSlots, HaveItsSlots, NamesAllocas};
ghost use Rattle.pass_elide_proof.specs.pass_proofs.ir_base.declared.outcome.Word.{Word};
ghost use Rattle.pass_elide_proof.specs.pass_proofs.ir_model.Names.{function_at};
ghost use Rattle.pass_elide_proof.specs.pass_proofs.ir_model.declared.operand.Arg.{Arg};
ghost use Rattle.pass_elide_proof.specs.pass_proofs.run_agreement.Machines.{IsFine};
ghost use Rattle.pass_elide_proof.specs.pass_proofs.run_framed.Framed.{FramedGiven, framed_state_at};
ghost use Rattle.pass_elide_proof.specs.pass_proofs.run_laws.changed.Changed.{Each};
ghost use Rattle.pass_elide_proof.specs.pass_proofs.ir_model.declared.module.Module.{Module};
ghost use Rattle.pass_elide_proof.specs.pass_proofs.run_source.declared.state.Activation.{Activation};
ghost use Rattle.pass_elide_proof.specs.pass_proofs.run_source.declared.state.State.{State};
ghost use Rattle.run_hooks.specs.Reached.{AllHaveSwitches};
ghost use Rattle.run_slots.specs.Slots.{IsSlottedState};
ghost use Rattle.std.specs.Prelude.{List, [], true, ◌≡◌, ℕ};

/// In each state of a framed run an activation has a slot for each alloca that it has passed, and no others. The
/// names of these have the addresses of their slots. One that was resumed doesn't come back to the entry block.
pub fn activations_have_their_slots()
    ensures { (g : FramedGiven) (entry : ℕ) (args : List Word) (n : ℕ)
        → ((func : ℕ) → AllocasFirst (function_at g.given.code func)) → KnowsAllocas g
        → AllHaveSwitches g.given.code → BeginsInCoroutines g.given.code
        → IsFine (framed_state_at g entry args n).outcome
        → HaveItsSlots g.given.code (framed_state_at g entry args n) }
{}

/// So it is in the run that gives frames. Where calls give frames, allocas stand in entry blocks as in the framed
/// form.
pub fn giving_activations_have_their_slots()
    ensures allocas { (e : Elision) (func : ℕ) → AllocasFirst (function_in e func)
        → AllocasFirst (function_at (elided_code e) func) }
    ensures begins { (e : Elision) → KeepsPlaces e → BeginsInCoroutines (elided_code e) }
    ensures runs { (e : Elision) (entry : ℕ) (args : List Word) (n : ℕ) → KeepsPlaces e
        → ((func : ℕ) → AllocasFirst (function_in e func)) → KnowsAllocas (elided e) → AllHaveSwitches e.code
        → IsFine (framed_state_at (elided e) entry args n).outcome
        → HaveItsSlots (elided_code e) (framed_state_at (elided e) entry args n) }
    ensures first { (m : Module) (a : Activation) → HasItsSlots m a → a.block ≡ 0 → a.at ≡ 0 → a.slots ≡ [] }
{}

/// A slot of a coroutine's activation is no stack block.
pub fn slots_of_coroutines_are_no_stack_blocks()
    ensures { (g : FramedGiven) (entry : ℕ) (args : List Word) (n : ℕ)
        → IsFine (framed_state_at g entry args n).outcome
        → HaveSlotKinds g.given.code (framed_state_at g entry args n) }
{}

/// So where the framed run gives no frames, none lies in a slot. A marker marks a slot of its activation.
pub fn slots_hold_no_frames()
    ensures own { (e : Elision) (s : State) → IsSlottedState s → HasItsSlots e.code s.top
        → NamesAllocas (function_in e s.top.func) → HasPlainAllocas e s.top.func
        → (function_in e s.top.func).coroutine ≡ true → HasSlotKinds e.code s.world.memory s.top
        → Each (IsOwnSlot e s) s.top.slots }
    ensures marks { (e : Elision) (s : State) (args : List Arg) → IsSlottedState s → HasItsSlots e.code s.top
        → NamesAllocas (function_in e s.top.func)
        → MarksAlloca (function_in e s.top.func) s.top.block s.top.at args → MarksOwnSlot e s args }
{}
