//! What laws on kinds of steps of coroutines ask holds of accepted sources.

ghost use Rattle.std.specs.Prelude.{◌≡◌, ◌+◌, ◌≤◌, ℕ, Bool, List, None, Option, Some, slice_get, true};
ghost use Rattle.compiler_theorem.specs.theorem.Anew.{Anew, IsAnewOf};
ghost use Rattle.compiler_theorem.specs.theorem.Asked.{asking};
ghost use Rattle.compiler_theorem.specs.theorem.Entries.{IsEntryCall, Run};
ghost use Rattle.compiler_theorem.specs.theorem.Built.{building};
ghost use Rattle.compiler.specs.run_framed.Framed.{framed_state_at, layout_of};
ghost use Rattle.compiler.specs.run_memory.declared.block.MemoryBlock.{MemoryBlock};
ghost use Rattle.pass_frames_meaning.specs.run_slots.Slots.{IsSlottedState};
ghost use Rattle.compiler_theorem.specs.theorem.Lowered.{HasFewBytes, IsLowered, Lowered, early, edged, sizes_of};
ghost use Rattle.compiler_theorem.specs.theorem.Between.{renewing, setting};
ghost use Rattle.compiler.specs.pass_proofs.addresses.rules.Addresses.{lies_in_frame};
ghost use Rattle.compiler.specs.run_laws.transfer.Places.{IsBlank};
ghost use Rattle.compiler.specs.run_memory.Memory.{is_live};
ghost use Rattle.pass_frames_meaning.specs.Blank.{IsBlankState, IsUnusedEarly};
ghost use Rattle.pass_frames_meaning.specs.Covered.{IsKeptOver};
ghost use Rattle.pass_frames_meaning.specs.pass_frames_proof.Places.{offsets};
ghost use Rattle.compiler.specs.ir_model.Names.{function_at};
ghost use Rattle.compiler.specs.ir_model.Ty.{Ty};
ghost use Rattle.compiler.specs.ir_model.declared.instr.Instr.{Instr};
ghost use Rattle.compiler.specs.ir_model.declared.module.Module.{Module};
ghost use Rattle.compiler.specs.ir_model.declared.operand.Arg.{Arg};
ghost use Rattle.compiler.specs.ir_model.declared.operand.Callee.{Callee};
ghost use Rattle.compiler.specs.ir_model.declared.operand.Intrinsic.{Intrinsic};
ghost use Rattle.compiler.specs.pass_kept_proof.Kept.{continue_keeping};
ghost use Rattle.compiler.specs.run_source.Source.{first_state, given, is_among, step_by};
ghost use Rattle.compiler.specs.run_source.declared.state.Status.{Status};
ghost use Rattle.compiler.specs.run_step.Runs.{iterate};
ghost use Rattle.compiler.specs.run_step.Step.{AtInstr, fetch};
ghost use Rattle.compiler.specs.pass_frames.Framed.{begin_of};
ghost use Rattle.pass_frames_meaning.specs.Kinds.{IsOwnAlloca, KeepsKinds};
ghost use Rattle.pass_frames_meaning.specs.Sized.{IsSizedState};
ghost use Rattle.pass_frames_meaning.specs.Led.{IsLed};
ghost use Rattle.pass_frames_meaning.specs.pass_frames_proof.Related.{AreBuiltOf, is_coroutine, is_first};
ghost use Rattle.pass_frames_meaning.specs.pass_renewed_proof.Beside.{IsBeside};
ghost use Rattle.pass_frames_meaning.specs.pass_renewed_proof.Renewed.{Flags, RenewedGiven, Roots, renewed_step};
ghost use Rattle.compiler.specs.ir_base.declared.outcome.Outcome.{Outcome};
ghost use Rattle.compiler.specs.run_agreement.Machines.{IsFine};
ghost use Rattle.compiler.specs.run_step.declared.world.Slot.{Slot};
ghost use Rattle.std.specs.List.{Contains};
ghost use Rattle.compiler.specs.run_source.State.{address_in, function_of, own_facts};
ghost use Rattle.compiler.specs.run_source.declared.state.Instance.{Instance};
ghost use Rattle.compiler.specs.run_source.declared.state.Mode.{Mode};
ghost use Rattle.compiler.specs.run_source.declared.state.State.{State as TheState};
ghost use Rattle.compiler.specs.run_step.Values.{value_in};

/// An accepted source with blocks on its edges and its framed form keep what these laws ask.
pub fn sources_keep_kinds()
    ensures { (l : Lowered) (low : IsLowered l) (a : Anew) → IsAnewOf (early l) a → (r : Run)
        → KeepsKinds (asking l low a r) }
{}

/// Begin's name has the address of the activation's frame, where names lead to slots. Where no instance is begun, an
/// activation that stands beside one of the run before is a ramp's, if it isn't the entry's. So it is in the entry block.
pub fn states_tell_kinds()
    ensures begun { (l : Lowered) (low : IsLowered l) (a : Anew) (r : Run) (counts : ℕ → ℕ → Bool) (s : TheState)
        → IsLed (edged l) counts s → is_coroutine (asking l low a r).b s.top.func ≡ true → (i : ℕ) (x : Instance)
        → s.top.instance ≡ Some i → slice_get s.instances i ≡ Some x
        → value_in s.top.values (begin_of ((asking l low a r).b.framing s.top.func).function)
        ≡ address_in x.block x.start }
    ensures ramp { (m : Module) (flags : Flags) (roots : Roots) (v s : TheState) → IsBeside m flags roots v s
        → (s.top.mode ≡ Mode.Plain → ⊥) → s.top.instance ≡ None → s.top.mode ≡ Mode.Ramp }
    ensures first { (l : Lowered) (low : IsLowered l) → HasFewBytes l → (a : Anew) → IsAnewOf (early l) a → (v s : TheState)
        → IsBeside (edged l) a.flags a.roots v s → (s.top.mode ≡ Mode.Plain → ⊥) → s.top.block ≡ 0
        → is_first s.top.mode ≡ true }
{}

/// Where a save stands at the place, the activation's instance runs, in each state of a run that makes slots anew which
/// stands beside one of the run before.
pub fn saving_instances_run()
    ensures { (l : Lowered) (low : IsLowered l) → HasFewBytes l → (a : Anew) → IsAnewOf (early l) a → (r : Run)
        (n k : ℕ)
        → IsBeside (edged l) a.flags a.roots
        (iterate (step_by (given (edged l) (sizes_of l) r.answers) (continue_keeping (given (edged l) (sizes_of l)
        r.answers) a.keep)) k (first_state (edged l) r.entry r.args))
        (iterate (renewed_step (renewing l a r)) n (first_state (edged l) r.entry r.args))
        → (result : Option ℕ) (must_tail : Bool) (ty : Option Ty) (args : List Arg)
        → fetch (function_at (edged l)
        (iterate (renewed_step (renewing l a r)) n (first_state (edged l) r.entry r.args)).top.func)
        (iterate (renewed_step (renewing l a r)) n (first_state (edged l) r.entry r.args)).top.block
        (iterate (renewed_step (renewing l a r)) n (first_state (edged l) r.entry r.args)).top.at
        ≡ AtInstr (Instr.Call result must_tail ty (Callee.Intrinsic Intrinsic.CoroSave) args)
        → (i : ℕ) (y : Instance)
        → (iterate (renewed_step (renewing l a r)) n (first_state (edged l) r.entry r.args)).top.instance ≡ Some i
        → slice_get (iterate (renewed_step (renewing l a r)) n (first_state (edged l) r.entry r.args)).instances i
        ≡ Some y → y.status ≡ Status.Running }
{}

/// Where begin stands at the place and its step is fine, the activation is a ramp's, in each state that stands beside
/// one of the run before. Each of its slots is of an alloca of its coroutine, with the block's size and alignment.
/// In the framed form each slot of an activation is among those that its facts tell of.
pub fn begins_of_sources_are_known()
    ensures ramp { (g : RenewedGiven) (m : Module) (flags : Flags) (roots : Roots) (v s : TheState)
        → IsBeside m flags roots v s → (s.top.mode ≡ Mode.Plain → ⊥) → s.outcome ≡ Outcome.Running
        → IsFine (renewed_step g s).outcome → (result : Option ℕ) (must_tail : Bool) (ty : Option Ty) (args : List Arg)
        → fetch (function_of g.given s) s.top.block s.top.at
        ≡ AtInstr (Instr.Call result must_tail ty (Callee.Intrinsic Intrinsic.CoroBegin) args)
        → s.top.mode ≡ Mode.Ramp }
    ensures allocas { (l : Lowered) (low : IsLowered l) (a : Anew) (r : Run) (s : TheState) → IsSizedState (edged l) s
        → is_coroutine (asking l low a r).b s.top.func ≡ true → (slot : Slot) → Contains s.top.slots slot
        → IsOwnAlloca (asking l low a r) s slot }
    ensures framed { (l : Lowered) (low : IsLowered l) (r : Run) (n : ℕ) (slot : Slot)
        → Contains (framed_state_at (building l low.is_framed r.answers).given r.entry r.args n).top.slots slot
        → is_among (own_facts (building l low.is_framed r.answers).given.given
        (framed_state_at (building l low.is_framed r.answers).given r.entry r.args n)).ramp_slots slot ≡ true }
{}

/// The block of each instance has the size of its frame's layout, also where the instance is freed, in each state of a run
/// that makes slots anew.
pub fn frames_of_sources_fit()
    ensures { (l : Lowered) (low : IsLowered l) (a : Anew) → IsAnewOf (early l) a → (r : Run) (n : ℕ)
        → IsSlottedState (iterate (renewed_step (renewing l a r)) n (first_state (edged l) r.entry r.args))
        → (t : TheState)
        → AreBuiltOf (asking l low a r).b
        (iterate (renewed_step (renewing l a r)) n (first_state (edged l) r.entry r.args)) t
        → (i : ℕ) (x : Instance) (z : MemoryBlock)
        → slice_get (iterate (renewed_step (renewing l a r)) n (first_state (edged l) r.entry r.args)).instances i
        ≡ Some x
        → slice_get (iterate (renewed_step (renewing l a r)) n (first_state (edged l) r.entry r.args)).world.memory
        x.block ≡ Some z → x.start + (layout_of (asking l low a r).b.given.layouts x.coroutine).size ≤ z.size }
{}

/// Before begin a slot in the frame holds nothing that no access uses there. This is told of states that are related: at
/// the start, and behind each step. So it is where begin stands.
pub fn unused_slots_of_sources_stay_blank()
    ensures states { (l : Lowered) (low : IsLowered l) → HasFewBytes l → (a : Anew) → IsAnewOf (early l) a → (r : Run)
        → IsEntryCall l.source r
        → IsKeptOver (setting l a r) (building l low.is_framed r.answers) (IsBlankState (asking l low a r)) }
    ensures begin { (l : Lowered) (low : IsLowered l) (a : Anew) (r : Run) (s : TheState)
        → IsBlankState (asking l low a r) s → is_coroutine (asking l low a r).b s.top.func ≡ true
        → s.top.instance ≡ None → (slot : Slot) → Contains s.top.slots slot
        → lies_in_frame (offsets ((asking l low a r).b.framing s.top.func)) slot.alloca ≡ true
        → IsUnusedEarly ((asking l low a r).b.framing s.top.func) slot.alloca → (z : MemoryBlock)
        → slice_get s.world.memory slot.block ≡ Some z → is_live z.life ≡ true → IsBlank z }
{}
