//! Values fit their types in each state of a run: a value of a name of type iN is a word of N bits, or poison.
//!
//! It is said once over the step with hooks (`fitting_states_stay`), so it holds of all four meanings
//! (`meanings_keep_values`, `values_of_runs_fit`). What it asks of a module is N1, Y1 and Y2, by what stands at the
//! places
//! of its functions (`KeepsTypes`). What is loaded fits since each byte of a number is one of 8 bits. What is handed
//! on, kept where an instance is suspended, or returned fits as what was there before.
//!
//! So a size that is handed to an allocator is below 2^64 (`sizes_are_small`).
#![tactic(auto)]

ghost use Rattle.std.specs.Prelude.{ℕ, List, Some, Option, Bool, ◌≡◌, ◌<◌, ◌^◌};
ghost use Rattle.run_hooks.specs.ir_base.declared.outcome.Word.{Word};
ghost use Rattle.run_hooks.specs.ir_model.Ty.{Ty};
ghost use Rattle.run_hooks.specs.ir_model.declared.instr.Instr.{Instr};
ghost use Rattle.run_hooks.specs.ir_model.declared.module.Function.{Function};
ghost use Rattle.run_hooks.specs.ir_model.declared.module.Module.{Module};
ghost use Rattle.run_hooks.specs.ir_model.declared.operand.Allocator.{Allocator};
ghost use Rattle.run_hooks.specs.ir_model.declared.operand.Arg.{Arg};
ghost use Rattle.run_hooks.specs.ir_model.declared.operand.Callee.{Callee};
ghost use Rattle.run_hooks.specs.pass_kept_proof.Kept.{Keep, continue_keeping};
ghost use Rattle.run_hooks.specs.pass_renewed_proof.Renewed.{RenewedGiven, renewed_step};
ghost use Rattle.run_hooks.specs.run_framed.Framed.{FramedGiven, framed_state_at};
ghost use Rattle.run_hooks.specs.Hooks.{Hooks, hooked_state_at, step_of};
ghost use Rattle.run_hooks.specs.Meanings.{framed_hooks, kept_hooks, renewed_hooks, source_hooks};
ghost use Rattle.run_hooks.specs.Reached.{AllHaveSwitches, IsReachedState, KeepsReached};
ghost use Rattle.run_hooks.specs.run_memory.declared.pointer.Value.{Value};
ghost use Rattle.run_hooks.specs.run_source.Source.{first_state, state_at, step_by};
ghost use Rattle.run_hooks.specs.run_source.declared.state.State.{State};
ghost use Rattle.run_hooks.specs.run_source_tables.Given.{Given};
ghost use Rattle.run_hooks.specs.run_step.Runs.{iterate};
ghost use Rattle.run_hooks.specs.run_step.Step.{AtInstr, fetch};
ghost use Rattle.run_hooks.specs.run_step.Values.{Env, arg_values, nth};
ghost use Rattle.run_types.specs.Fitting.{AreFitting};
ghost use Rattle.run_types.specs.Rules.{KeepsAllTypes, KeepsGivenTypes, KeepsTypes};
ghost use Rattle.run_types.specs.States.{AreArguments, IsFittingState, KeepsFitting, TakesSize};
ghost use Rattle.run_types.specs.Worked as worked;

/// Hooks that come from states in which all values fit to such states do so by each step, and so by a run whose entry
/// arguments are words of its parameters' widths.
pub fn fitting_states_stay()
    ensures step { (h : Hooks) (s : State) → KeepsAllTypes h.given.code → KeepsFitting h → IsReachedState h.given s
        → IsFittingState h.given.code s → IsFittingState h.given.code (step_of h s) }
    ensures runs { (h : Hooks) (entry : ℕ) (args : List Word) (n : ℕ) → AllHaveSwitches h.given.code → KeepsReached h
        → KeepsAllTypes h.given.code → KeepsFitting h → AreArguments h.given.code entry args
        → IsFittingState h.given.code (hooked_state_at h entry args n) }
{}

/// The hooks of each meaning keep this. A framed run may call a ramp to which it gives a frame, so there the types of
/// such calls are asked for too.
pub fn meanings_keep_values()
    ensures source { (g : Given) → KeepsAllTypes g.code → KeepsFitting (source_hooks g) }
    ensures kept { (g : Given) (keep : Keep) → KeepsAllTypes g.code → KeepsFitting (kept_hooks g keep) }
    ensures renewed { (g : RenewedGiven) → KeepsAllTypes g.given.code → KeepsFitting (renewed_hooks g) }
    ensures framed { (g : FramedGiven) → KeepsAllTypes g.given.code → KeepsGivenTypes g.given.code
        → KeepsFitting (framed_hooks g) }
{}

/// So in each state of a run all values fit.
pub fn values_of_runs_fit()
    ensures source { (g : Given) (entry : ℕ) (args : List Word) (n : ℕ) → AllHaveSwitches g.code
        → KeepsAllTypes g.code → AreArguments g.code entry args → IsFittingState g.code (state_at g entry args n) }
    ensures kept { (g : Given) (keep : Keep) (entry : ℕ) (args : List Word) (n : ℕ) → AllHaveSwitches g.code
        → KeepsAllTypes g.code → AreArguments g.code entry args → IsFittingState g.code
        (iterate (step_by g (continue_keeping g keep)) n (first_state g.code entry args)) }
    ensures renewed { (g : RenewedGiven) (entry : ℕ) (args : List Word) (n : ℕ) → AllHaveSwitches g.given.code
        → KeepsAllTypes g.given.code → AreArguments g.given.code entry args → IsFittingState g.given.code
        (iterate (renewed_step g) n (first_state g.given.code entry args)) }
    ensures framed { (g : FramedGiven) (entry : ℕ) (args : List Word) (n : ℕ) → AllHaveSwitches g.given.code
        → KeepsAllTypes g.given.code → KeepsGivenTypes g.given.code → AreArguments g.given.code entry args
        → IsFittingState g.given.code (framed_state_at g entry args n) }
{}

/// The size that a call hands to an allocator is a number below 2^64, or poison.
pub fn sizes_are_small()
    ensures { (m : Module) (f : Function) (env : Env) → KeepsTypes m f → AreFitting f env → (block at : ℕ)
        (result : Option ℕ) (must_tail : Bool) (ty : Option Ty) (a : Allocator) (args : List Arg)
        → fetch f block at ≡ AtInstr (Instr.Call result must_tail ty (Callee.Allocator a) args) → TakesSize a
        → (x : Word) → nth (arg_values m env args) 0 ≡ Value.Int x → x.bits < 2 ^ 64 }
{}

/// A worked module has what this asks of its instructions, and hands a size of 64 bits to an allocator.
#[tactic(none)]
pub fn worked_values_fit()
    ensures { worked.Computes }
{}
