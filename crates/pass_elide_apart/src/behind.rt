//! Where instances go on when they are woken.

ghost use Rattle.pass_elide_apart.specs.Behind.{EnterBehind, GoesBehind, IsBehindSuspend, KnowsBehind, LeadsBehind};
ghost use Rattle.pass_elide_apart.specs.Rets.{EndsBeforeRets, HasOneEnd, StandUnended};
ghost use Rattle.pass_elide_edges.specs.pass_elide_proof.Elision.{Elision, elided, framed, function_in};
ghost use Rattle.pass_elide_edges.specs.pass_elide_proof.OwnSlots.{CountsSlots, HaveNoSlots};
ghost use Rattle.pass_elide_edges.specs.pass_elide_proof.Placing.{KeepsPlaces};
ghost use Rattle.pass_elide_edges.specs.pass_elide_proof.Sound.{KnowsAllocas, NestsNone};
ghost use Rattle.pass_elide_edges.specs.pass_elide_proof.Worked.{a_caller, a_coroutine, before, module_of, the_elision};
ghost use Rattle.pass_elide_kept.specs.Modules.{KeepsHandlesAndEnds};
ghost use Rattle.pass_elide_kept.specs.Runs.{LeadsPast, WakesPast};
ghost use Rattle.pass_elide_runs.specs.Keeps.{KeepsRuns};
ghost use Rattle.pass_elide_edges.specs.pass_elide_proof.pass_proofs.edges.rules.Returns.{AreSwitched};
ghost use Rattle.pass_elide_edges.specs.pass_elide_proof.pass_proofs.ir_base.declared.outcome.Word.{Word};
ghost use Rattle.pass_elide_edges.specs.pass_elide_proof.pass_proofs.ir_model.Names.{function_at};
ghost use Rattle.pass_elide_edges.specs.pass_elide_proof.pass_proofs.ir_model.declared.instr.Instr.{Instr};
ghost use Rattle.pass_elide_edges.specs.pass_elide_proof.pass_proofs.ir_model.declared.instr.Terminator.{Terminator};
ghost use Rattle.pass_elide_edges.specs.pass_elide_proof.pass_proofs.ir_model.declared.module.Function.{Function};
ghost use Rattle.pass_elide_edges.specs.pass_elide_proof.pass_proofs.ir_model.declared.operand.Arg.{Arg};
ghost use Rattle.pass_elide_edges.specs.pass_elide_proof.pass_proofs.ir_model.declared.operand.Intrinsic.{Intrinsic};
ghost use Rattle.pass_elide_edges.specs.pass_elide_proof.pass_proofs.ir_paths.Windows.{end_block, is_call_of};
ghost use Rattle.pass_elide_edges.specs.pass_elide_proof.pass_proofs.ir_paths.declared.point.Point.{Point};
ghost use Rattle.pass_elide_edges.specs.pass_elide_proof.pass_proofs.pass_kept_proof.Needed.{IsReached};
ghost use Rattle.pass_elide_edges.specs.pass_elide_proof.pass_proofs.pass_kept_proof.SuspendRules.{IsCallAt};
ghost use Rattle.pass_elide_edges.specs.pass_elide_proof.pass_proofs.run_agreement.Machines.{IsFine};
ghost use Rattle.pass_elide_edges.specs.pass_elide_proof.pass_proofs.run_framed.Framed.{FramedGiven, framed_state_at};
ghost use Rattle.pass_elide_edges.specs.pass_elide_proof.pass_proofs.run_source.State.{function_of};
ghost use Rattle.pass_elide_edges.specs.pass_elide_proof.pass_proofs.run_source.declared.state.Instance.{Instance};
ghost use Rattle.pass_elide_edges.specs.pass_elide_proof.pass_proofs.run_source.declared.state.Mode.{Mode};
ghost use Rattle.pass_elide_edges.specs.pass_elide_proof.pass_proofs.run_source.declared.state.State.{State};
ghost use Rattle.pass_elide_edges.specs.pass_elide_proof.pass_proofs.run_source.declared.state.Status.{Status};
ghost use Rattle.pass_elide_edges.specs.pass_elide_proof.pass_proofs.run_step.Step.{AtInstr, AtTerm, fetch};
ghost use Rattle.pass_elide_edges.specs.pass_elide_proof.pass_proofs.run_step.Values.{Env};
ghost use Rattle.run_hooks.specs.Reached.{AllHaveSwitches, HasSwitches};
ghost use Rattle.std.specs.Prelude.{List, Option, Some, false, slice_get, true, ◌≡◌, ℕ};

/// The switch behind a suspend that is reached leads to the labels of 0 and 1.
pub fn suspends_lead_to_both_labels()
    ensures { (f : Function) (p : Point) → HasSwitches f → AreSwitched f → IsReached f p.block p.at
        → IsCallAt Intrinsic.CoroSuspend f p → LeadsBehind f p }
{}

/// In each state of a framed run an activation that executes its allocas again goes on at such a label. So all holds
/// that is asked where an instance of the framed run is woken.
pub fn labels_stay_behind_suspends()
    ensures runs { (g : FramedGiven) (entry : ℕ) (args : List Word) (n : ℕ) → AllHaveSwitches g.given.code
        → ((func : ℕ) → AreSwitched (function_at g.given.code func)) → KnowsAllocas g → NestsNone g
        → EnterBehind g.given.code (framed_state_at g entry args n) }
    ensures framed { (e : Elision) (entry : ℕ) (args : List Word) (n : ℕ) → KeepsPlaces e → KeepsRuns e
        → NestsNone (framed e) → (function_in e entry).coroutine ≡ false
        → IsFine (framed_state_at (framed e) entry args n).outcome
        → KnowsBehind e.code (framed_state_at (framed e) entry args n) }
{}

/// Instances have no slots, so in each state of the run that gives frames each slot has a block of its own.
pub fn slots_are_counted_in_runs()
    ensures instances { (g : FramedGiven) (entry : ℕ) (args : List Word) (n : ℕ) → AllHaveSwitches g.given.code
        → ((func : ℕ) → AreSwitched (function_at g.given.code func)) → KnowsAllocas g → NestsNone g
        → HaveNoSlots (framed_state_at g entry args n) }
    ensures giving { (e : Elision) (entry : ℕ) (args : List Word) (n : ℕ) → KeepsPlaces e → KeepsRuns e
        → NestsNone (framed e) → CountsSlots (framed_state_at (elided e) entry args n) }
{}

/// No frame is freed at a label behind a suspend: what frees is entered from where what is to be freed is tested. So an
/// instance of the run that gives frames goes on past such blocks, at once or behind its allocas.
pub fn labels_lead_past_frees()
    ensures label { (e : Elision) (func from label : ℕ) → KeepsHandlesAndEnds e
        → IsBehindSuspend (function_in e func) from label → LeadsPast e func label }
    ensures sleepers { (e : Elision) (entry : ℕ) (args : List Word) (n : ℕ) → KeepsPlaces e → KeepsRuns e
        → NestsNone (framed e) → KeepsHandlesAndEnds e → (number : ℕ) (x : Instance) (q : Point) (values : Env)
        → slice_get (framed_state_at (elided e) entry args n).instances number ≡ Some x
        → x.status ≡ Status.Suspended q values → WakesPast e x q }
    ensures entering { (e : Elision) (entry : ℕ) (args : List Word) (n : ℕ) → KeepsPlaces e → KeepsRuns e
        → NestsNone (framed e) → KeepsHandlesAndEnds e → (from label : ℕ)
        → (framed_state_at (elided e) entry args n).top.mode ≡ Mode.Entering from label
        → LeadsPast e (framed_state_at (elided e) entry args n).top.func label }
{}

/// A resumed activation of a framed run stands where a path leads from coro.begin without the coro.end. So it comes to
/// no ret, by what K5 says of suspends and rets.
pub fn resumed_activations_come_to_no_ret()
    ensures stand { (g : FramedGiven) (entry : ℕ) (args : List Word) (n : ℕ) → AllHaveSwitches g.given.code
        → ((func : ℕ) → AreSwitched (function_at g.given.code func)) → KnowsAllocas g → NestsNone g
        → ((func : ℕ) → EndsBeforeRets (function_at g.given.code func))
        → IsFine (framed_state_at g entry args n).outcome
        → StandUnended g.given.code (framed_state_at g entry args n) }
    ensures rets { (g : FramedGiven) (s : State) → StandUnended g.given.code s
        → EndsBeforeRets (function_of g.given s) → (value : Option Arg) → s.top.mode ≡ Mode.Resumed
        → fetch (function_of g.given s) s.top.block s.top.at ≡ AtTerm (Terminator.Ret value) → ⊥ }
{}

/// In the worked run the activation that a destroy has called goes on at such a label.
pub fn a_worked_activation_goes_behind()
    ensures { GoesBehind (module_of a_caller) (before 42).top }
{}

/// A function's one coro.end stands in its end block.
pub fn one_end_stands_in_the_end_block()
    ensures { (f : Function) → HasOneEnd f → (block at : ℕ) (i : Instr) → fetch f block at ≡ AtInstr i
        → is_call_of Intrinsic.CoroEnd i ≡ true → block ≡ end_block f }
{}

/// In the worked module no ret stands behind begin without the end before it. The coroutine has one end.
pub fn the_worked_module_ends_before_rets()
    ensures rets { (func : ℕ) → EndsBeforeRets (function_in the_elision func) }
    ensures one { HasOneEnd a_coroutine }
{}
