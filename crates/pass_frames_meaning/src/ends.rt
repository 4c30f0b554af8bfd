//! The ends of blocks of coroutines are followed: jumps, branches, switches and returns.
//!
//! What is fetched at the end of a block may be, and phis get what stands for the source's. It is derived of rules, of
//! invariants of both runs, and of what is in `KeepsEnds` and `MayGoOn`.

ghost use Rattle.std.specs.Prelude.{◌≡◌, ◌∷◌, Bool, List, Option, ℕ, false, true};
ghost use Rattle.pass_frames_proof.specs.ir_base.declared.outcome.Outcome.{Outcome};
ghost use Rattle.pass_frames_proof.specs.ir_base.declared.outcome.Word.{Word};
ghost use Rattle.pass_frames_proof.specs.ir_model.Names.{function_at};
ghost use Rattle.pass_frames_proof.specs.ir_model.Ty.{Ty};
ghost use Rattle.pass_frames_proof.specs.ir_model.declared.instr.Instr.{Instr};
ghost use Rattle.pass_frames_proof.specs.ir_model.declared.instr.Terminator.{Terminator};
ghost use Rattle.pass_frames_proof.specs.ir_model.declared.operand.Arg.{Arg};
ghost use Rattle.pass_frames_proof.specs.ir_model.declared.operand.Callee.{Callee};
ghost use Rattle.pass_frames_proof.specs.ir_model.declared.operand.Intrinsic.{Intrinsic};
ghost use Rattle.pass_frames_proof.specs.ir_paths.Windows.{windows_of};
ghost use Rattle.pass_frames_meaning.specs.Based.{AreBegunOnce, IsBasedState, KeepsBased};
ghost use Rattle.pass_frames_meaning.specs.Called.{FitsMode, IsCalledState};
ghost use Rattle.pass_frames_meaning.specs.Coroutines.{IsEnding, MayEnd, MayFollow, MaySuspend};
ghost use Rattle.pass_frames_meaning.specs.Ends.{AreEndsKnown, KeepsEdges, KeepsEnds, MayGoOn, MayLeaveEdge};
ghost use Rattle.pass_frames_meaning.specs.Fresh.{AreBareBlocks, IsFreshState, KeepsFresh, LeadsToNone};
ghost use Rattle.pass_frames_meaning.specs.Setting.{AreOfRuns, KeepsAll, Setting};
ghost use Rattle.pass_frames_proof.specs.Followed.{IsFollowed};
ghost use Rattle.pass_frames_proof.specs.Leaving.{AreWindowsPlaced};
ghost use Rattle.pass_frames_proof.specs.Places.{edged, framed, is_return};
ghost use Rattle.pass_frames_proof.specs.Related.{AreBuiltOf, is_coroutine};
ghost use Rattle.pass_frames_proof.specs.Stepping.{IsNotEntering};
ghost use Rattle.pass_frames_proof.specs.pass_renewed_proof.Renewed.{RenewedGiven, renewed_step};
ghost use Rattle.pass_frames_proof.specs.run_agreement.Machines.{IsFine};
ghost use Rattle.pass_renewed_meaning.specs.run_hooks.Away.{IsPlacedState, KeepsAllPlaceRules};
ghost use Rattle.pass_renewed_meaning.specs.run_hooks.Hooks.{Hooks, step_of};
ghost use Rattle.pass_renewed_meaning.specs.run_hooks.Meanings.{renewed_hooks};
ghost use Rattle.pass_renewed_meaning.specs.run_hooks.Reached.{AllHaveSwitches};
ghost use Rattle.pass_frames_proof.specs.run_source.Source.{context_of, first_state};
ghost use Rattle.pass_frames_proof.specs.run_source.State.{function_of, work_of};
ghost use Rattle.pass_frames_proof.specs.run_source.declared.state.Activation.{Activation};
ghost use Rattle.pass_frames_proof.specs.run_source.declared.state.State.{State as TheState};
ghost use Rattle.pass_frames_proof.specs.run_step.Runs.{iterate};
ghost use Rattle.pass_frames_proof.specs.run_step.Step.{AtInstr, AtTerm, GoTo, fetch, term_action};
ghost use Rattle.pass_renewed_meaning.specs.run_types.Rules.{KeepsAllTypes};

/// A terminator that goes to a label is followed, where its block is on no resume or destroy edge. Behind a suspend the
/// switch goes to the end.
pub fn jumps_of_coroutines_are_followed()
    ensures { (c : Setting) → KeepsAll c → KeepsEnds c → (s t : TheState) (r : AreBuiltOf c.b s t) → AreOfRuns c s t r
        → s.outcome ≡ Outcome.Running → IsFine (renewed_step c.g s).outcome → is_coroutine c.b s.top.func ≡ true
        → IsNotEntering s.top.mode → MayFollow c s → MayGoOn c s → (e : Terminator)
        → fetch (function_of c.g.given s) s.top.block s.top.at ≡ AtTerm e
        → is_return (c.b.framing s.top.func) s.top.block ≡ false → (label : ℕ)
        → term_action (context_of c.g.given s) (work_of s) e ≡ GoTo label → IsFollowed c.b c.g s t }
{}

/// So is a return.
pub fn returns_of_coroutines_are_followed()
    ensures { (c : Setting) → KeepsAll c → KeepsEnds c → (s t : TheState) (r : AreBuiltOf c.b s t) → AreOfRuns c s t r
        → s.outcome ≡ Outcome.Running → IsFine (renewed_step c.g s).outcome → is_coroutine c.b s.top.func ≡ true
        → IsNotEntering s.top.mode → MayFollow c s → MayGoOn c s → (arg : Option Arg)
        → fetch (function_of c.g.given s) s.top.block s.top.at ≡ AtTerm (Terminator.Ret arg)
        → is_return (c.b.framing s.top.func) s.top.block ≡ false → (a : Activation) (more : List Activation)
        → s.below ≡ a ∷ more → IsFollowed c.b c.g s t }
{}

/// So is a jump from a block on a resume or destroy edge.
pub fn jumps_from_edges_of_coroutines_are_followed()
    ensures { (c : Setting) → KeepsAll c → KeepsEnds c → (s t : TheState) (r : AreBuiltOf c.b s t) → AreOfRuns c s t r
        → s.outcome ≡ Outcome.Running → IsFine (renewed_step c.g s).outcome → is_coroutine c.b s.top.func ≡ true
        → IsNotEntering s.top.mode → MayFollow c s → MayGoOn c s → KeepsEdges c → MayLeaveEdge c s
        → is_return (c.b.framing s.top.func) s.top.block ≡ true → (label : ℕ)
        → fetch (function_of c.g.given s) s.top.block s.top.at ≡ AtTerm (Terminator.Jump label)
        → IsFollowed c.b c.g s t }
{}

/// So is the end of each block.
pub fn ends_of_blocks_are_followed()
    ensures { (c : Setting) → KeepsAll c → KeepsEnds c → (s t : TheState) (r : AreBuiltOf c.b s t) → AreOfRuns c s t r
        → s.outcome ≡ Outcome.Running → IsFine (renewed_step c.g s).outcome → is_coroutine c.b s.top.func ≡ true
        → IsNotEntering s.top.mode → MayFollow c s → MayGoOn c s → KeepsEdges c → MayLeaveEdge c s
        → (e : Terminator) → IsEnding e
        → fetch (function_of c.g.given s) s.top.block s.top.at ≡ AtTerm e → IsFollowed c.b c.g s t }
{}

/// Windows of the framed form are those of the coroutine at their places, one to one.
pub fn windows_stay_in_place()
    ensures { (c : Setting) → KeepsAll c → (func : ℕ) → is_coroutine c.b func ≡ true
        → AreWindowsPlaced (c.b.framing func) (windows_of (edged (c.b.framing func)))
        (windows_of (framed (c.b.framing func))) }
{}

/// An activation without an instance stands where a path without begin leads. One of a coroutine is a ramp's or is
/// woken, and stands on another one. Steps by hooks leave it so, and it is so in each state of a run that makes slots
/// anew.
pub fn activations_stay_based()
    ensures step { (h : Hooks) → KeepsBased h → AreBegunOnce h.given.code → (s : TheState)
        → IsBasedState h.given.code s → FitsMode s.top.instance s.top.mode → IsBasedState h.given.code (step_of h s) }
    ensures renewed { (g : RenewedGiven) (entry : ℕ) (args : List Word) → AllHaveSwitches g.given.code
        → KeepsAllPlaceRules g.given → KeepsAllTypes g.given.code → AreBegunOnce g.given.code
        → (function_at g.given.code entry).coroutine ≡ false → (n : ℕ)
        → IsBasedState g.given.code (iterate (renewed_step g) n (first_state g.given.code entry args)) }
{}

/// A suspend takes its save's token, and its result is kept nowhere.
pub fn suspends_are_told()
    ensures { (c : Setting) → KeepsEnds c → (s : TheState) → is_coroutine c.b s.top.func ≡ true
        → (result : Option ℕ) (must_tail : Bool) (ty : Option Ty) (args : List Arg)
        → fetch (function_of c.g.given s) s.top.block s.top.at
        ≡ AtInstr (Instr.Call result must_tail ty (Callee.Intrinsic Intrinsic.CoroSuspend) args)
        → MaySuspend c s result args }
{}

/// Where coro.end stands the activation has an instance, and it is a ramp's or was woken on another one.
pub fn ends_have_instances()
    ensures { (c : Setting) → KeepsAll c → KeepsEnds c → (s : TheState) → is_coroutine c.b s.top.func ≡ true
        → MayGoOn c s → IsNotEntering s.top.mode
        → (result : Option ℕ) (must_tail : Bool) (ty : Option Ty) (args : List Arg)
        → fetch (function_of c.g.given s) s.top.block s.top.at
        ≡ AtInstr (Instr.Call result must_tail ty (Callee.Intrinsic Intrinsic.CoroEnd) args) → MayEnd s }
{}

/// An activation that makes allocas again, or that stands in one of some bare blocks to which no terminator leads, was
/// woken: its instance is Running, and isn't freed. Steps by hooks leave it so, and it is so in each state of a run
/// that makes slots anew.
pub fn activations_on_edges_were_woken()
    ensures step { (h : Hooks) (edges : ℕ → ℕ → Bool) → KeepsFresh h → AreBareBlocks h.given.code edges
        → (s : TheState) → IsFreshState edges s → IsCalledState h.given.code s → IsPlacedState h s
        → LeadsToNone h edges s → IsFreshState edges (step_of h s) }
    ensures hooks { (g : RenewedGiven) → KeepsFresh (renewed_hooks g) }
{}

/// So suspends, coro.end and ends of blocks are known where a coroutine's activation makes no allocas again.
pub fn ends_are_known()
    ensures { (c : Setting) → KeepsAll c → KeepsEnds c → KeepsEdges c → (s t : TheState) (r : AreBuiltOf c.b s t)
        → AreOfRuns c s t r → s.outcome ≡ Outcome.Running → IsFine (renewed_step c.g s).outcome
        → is_coroutine c.b s.top.func ≡ true → IsNotEntering s.top.mode → MayFollow c s → MayGoOn c s
        → MayLeaveEdge c s → AreEndsKnown c s t }
{}
