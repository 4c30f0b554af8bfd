//! Where begin stands each slot that is used before it was made.

ghost use Rattle.std.specs.List.{Contains};
ghost use Rattle.std.specs.Prelude.{◌≡◌, ℕ, Bool, true, List, None, Option};
ghost use Rattle.compiler_theorem.specs.made.Made.{IsMadeState};
ghost use Rattle.compiler_theorem.specs.theorem.Anew.{Anew, IsAnewOf};
ghost use Rattle.compiler_theorem.specs.theorem.Asked.{asking};
ghost use Rattle.compiler_theorem.specs.theorem.Between.{renewing};
ghost use Rattle.compiler_theorem.specs.theorem.Entries.{IsEntryCall, Run};
ghost use Rattle.compiler_theorem.specs.theorem.Lowered.{HasFewBytes, IsLowered, Lowered, early, edged};
ghost use Rattle.compiler.specs.ir_base.declared.outcome.Outcome.{Outcome};
ghost use Rattle.compiler.specs.ir_model.Ty.{Ty};
ghost use Rattle.compiler.specs.ir_model.declared.instr.Instr.{Instr};
ghost use Rattle.compiler.specs.ir_model.declared.operand.Arg.{Arg};
ghost use Rattle.compiler.specs.ir_model.declared.operand.Callee.{Callee};
ghost use Rattle.compiler.specs.ir_model.declared.operand.Intrinsic.{Intrinsic};
ghost use Rattle.compiler.specs.pass_copies.declared.slot.EarlySlot.{EarlySlot};
ghost use Rattle.pass_frames_meaning.specs.pass_frames_proof.Places.{copies};
ghost use Rattle.pass_frames_meaning.specs.pass_frames_proof.Related.{is_coroutine};
ghost use Rattle.pass_frames_meaning.specs.pass_renewed_proof.Renewed.{renewed_step};
ghost use Rattle.compiler.specs.run_source.Source.{first_state};
ghost use Rattle.compiler.specs.run_source.State.{function_of};
ghost use Rattle.compiler.specs.run_source.declared.state.Mode.{Mode};
ghost use Rattle.compiler.specs.run_source.declared.state.State.{State};
ghost use Rattle.compiler.specs.run_step.Runs.{iterate};
ghost use Rattle.compiler.specs.run_step.Step.{AtInstr, fetch};
ghost use Rattle.compiler.specs.run_step.declared.world.Slot.{Slot};

/// Each alloca that a called activation has passed before begin has a slot of the activation's, in each state of the run
/// that makes slots anew.
pub fn passed_allocas_have_slots()
    ensures { (l : Lowered) → IsLowered l → HasFewBytes l → (a : Anew) → IsAnewOf (early l) a → (r : Run)
        → IsEntryCall l.source r → (n : ℕ)
        → IsMadeState (edged l) (iterate (renewed_step (renewing l a r)) n (first_state (edged l) r.entry r.args)) }
{}

/// Where begin stands each slot of the coroutine that is used before it was made. Its alloca stands in the entry block,
/// and before each use (rules F2 and F3).
pub fn slots_used_before_begin_are_made()
    ensures { (l : Lowered) (low : IsLowered l) → HasFewBytes l → (a : Anew) → IsAnewOf (early l) a → (r : Run)
        → IsEntryCall l.source r → (n : ℕ)
        → (iterate (renewed_step (renewing l a r)) n (first_state (edged l) r.entry r.args)).outcome ≡ Outcome.Running
        → is_coroutine (asking l low a r).b
        (iterate (renewed_step (renewing l a r)) n (first_state (edged l) r.entry r.args)).top.func ≡ true
        → (iterate (renewed_step (renewing l a r)) n (first_state (edged l) r.entry r.args)).top.mode ≡ Mode.Ramp
        → (iterate (renewed_step (renewing l a r)) n (first_state (edged l) r.entry r.args)).top.instance ≡ None
        → (result : Option ℕ) (must_tail : Bool) (ty : Option Ty) (args : List Arg)
        → fetch (function_of (renewing l a r).given
        (iterate (renewed_step (renewing l a r)) n (first_state (edged l) r.entry r.args)))
        (iterate (renewed_step (renewing l a r)) n (first_state (edged l) r.entry r.args)).top.block
        (iterate (renewed_step (renewing l a r)) n (first_state (edged l) r.entry r.args)).top.at
        ≡ AtInstr (Instr.Call result must_tail ty (Callee.Intrinsic Intrinsic.CoroBegin) args) → (e : EarlySlot)
        → Contains (copies ((asking l low a r).b.framing
        (iterate (renewed_step (renewing l a r)) n (first_state (edged l) r.entry r.args)).top.func)).slots e
        → (slot : Slot)
        × Contains (iterate (renewed_step (renewing l a r)) n (first_state (edged l) r.entry r.args)).top.slots slot
        × (slot.alloca ≡ e.slot) }
{}
