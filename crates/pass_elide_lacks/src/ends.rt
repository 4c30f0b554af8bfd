//! Ends and rets.

ghost use Rattle.pass_elide_meaning.specs.pass_elide_edges.pass_elide_proof.Assembling.{framed_after};
ghost use Rattle.pass_elide_meaning.specs.pass_elide_edges.pass_elide_proof.Elision.{Elision, framed, function_in};
ghost use Rattle.pass_elide_meaning.specs.pass_elide_edges.pass_elide_proof.Placing.{KeepsPlaces};
ghost use Rattle.pass_elide_meaning.specs.pass_elide_edges.pass_elide_proof.Statement.{IsEntryCall};
ghost use Rattle.pass_elide_meaning.specs.pass_elide_edges.pass_elide_proof.pass_proofs.ir_base.declared.outcome.Outcome.{Outcome};
ghost use Rattle.pass_elide_meaning.specs.pass_elide_edges.pass_elide_proof.pass_proofs.ir_base.declared.outcome.Word.{Word};
ghost use Rattle.pass_elide_meaning.specs.pass_elide_edges.pass_elide_proof.pass_proofs.ir_model.declared.instr.Terminator.{Terminator};
ghost use Rattle.pass_elide_meaning.specs.pass_elide_edges.pass_elide_proof.pass_proofs.ir_model.declared.module.Function.{Function};
ghost use Rattle.pass_elide_meaning.specs.pass_elide_edges.pass_elide_proof.pass_proofs.ir_model.declared.module.Module.{Module};
ghost use Rattle.pass_elide_meaning.specs.pass_elide_edges.pass_elide_proof.pass_proofs.ir_model.declared.operand.Arg.{Arg};
ghost use Rattle.pass_elide_meaning.specs.pass_elide_edges.pass_elide_proof.pass_proofs.rule_laws.rules.function_rules.Kept.{KeepsFunctionRules};
ghost use Rattle.pass_elide_meaning.specs.pass_elide_edges.pass_elide_proof.pass_proofs.rule_shape.OneOfEach.{wrong_call};
ghost use Rattle.pass_elide_meaning.specs.pass_elide_edges.pass_elide_proof.pass_proofs.rule_windows.Outside.{IsFirstOutside};
ghost use Rattle.pass_elide_meaning.specs.pass_elide_edges.pass_elide_proof.pass_proofs.run_agreement.Machines.{IsFine};
ghost use Rattle.pass_elide_meaning.specs.pass_elide_edges.pass_elide_proof.pass_proofs.run_framed.Framed.{framed_state_at};
ghost use Rattle.pass_elide_meaning.specs.pass_elide_edges.pass_elide_proof.pass_proofs.run_source.State.{function_of};
ghost use Rattle.pass_elide_meaning.specs.pass_elide_edges.pass_elide_proof.pass_proofs.run_source.declared.state.Mode.{Mode};
ghost use Rattle.pass_elide_meaning.specs.pass_elide_edges.pass_elide_proof.pass_proofs.run_step.Step.{AtTerm, fetch};
ghost use Rattle.pass_elide_kept.specs.Runs.{EndsInBlock, IsKeptFramed};
ghost use Rattle.pass_elide_meaning.specs.pass_elide_known.Keeping.{KeepsMore};
ghost use Rattle.pass_elide_lacks.specs.Ends.{EndsBeforeRets, HasOneEnd, HaveRunOut, KeepsEndings};
ghost use Rattle.pass_elide_meaning.specs.pass_elide_runs.Ends.{EndsOnce};
ghost use Rattle.pass_elide_meaning.specs.pass_elide_runs.Keeps.{KeepsRuns};
ghost use Rattle.std.specs.Prelude.{List, None, Option, false, true, ◌≡◌, ℕ};

/// A coroutine that breaks neither K2 nor K5 has one coro.end, and returns behind it. No save, suspend or end stands
/// behind the end. A function that is no coroutine has neither begin, save, suspend nor end (K1).
pub fn rules_give_ends()
    ensures coroutine { (k : ℕ) (f : Function) → f.coroutine ≡ true → wrong_call k f ≡ None → IsFirstOutside k f None
        → HasOneEnd f × EndsBeforeRets f × EndsOnce f }
    ensures plain { (m : Module) (k : ℕ) (f : Function) → KeepsFunctionRules m k f → f.coroutine ≡ false
        → HasOneEnd f × EndsBeforeRets f × EndsOnce f }
{}

/// Where a function has one coro.end, that stands in its end block.
pub fn ends_stand_in_the_end_block()
    ensures { (e : Elision) (func : ℕ) → HasOneEnd (function_in e func) → EndsInBlock e func }
{}

/// A resumed activation stands where a path leads from begin without the end between: at the end it returns. So it
/// comes to no ret.
pub fn resumed_activations_come_to_no_ret()
    ensures paths { (e : Elision) (entry : ℕ) (args : List Word) (n : ℕ) → KeepsRuns e
        → ((func : ℕ) → EndsBeforeRets (function_in e func))
        → IsFine (framed_state_at (framed e) entry args n).outcome
        → HaveRunOut e.code (framed_state_at (framed e) entry args n) }
    ensures rets { (e : Elision) (entry : ℕ) (args : List Word) (n : ℕ) → KeepsRuns e
        → ((func : ℕ) → EndsBeforeRets (function_in e func))
        → IsFine (framed_state_at (framed e) entry args n).outcome → (value : Option Arg)
        → (framed_state_at (framed e) entry args n).top.mode ≡ Mode.Resumed
        → fetch (function_of (framed e).given (framed_state_at (framed e) entry args n))
        (framed_state_at (framed e) entry args n).top.block (framed_state_at (framed e) entry args n).top.at
        ≡ AtTerm (Terminator.Ret value) → ⊥ }
{}

/// So what keeps states related is had in each state of the framed run.
pub fn framed_runs_are_kept()
    ensures { (e : Elision) (entry : ℕ) (args : List Word) (n : ℕ) → KeepsPlaces e → KeepsMore e → KeepsRuns e
        → KeepsEndings e → IsEntryCall e entry args → (framed_after e entry args n).outcome ≡ Outcome.Running
        → IsKeptFramed e (framed_after e entry args n) }
{}
