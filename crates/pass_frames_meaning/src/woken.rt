//! Steps that enter a coroutine are followed: resumes and destroys, calls of ramps, and slots made anew.

ghost use Rattle.std.specs.Prelude.{◌≡◌, ◌⊎◌, ℕ, Bool, List, None, Option, true};
ghost use Rattle.pass_frames_proof.specs.ir_base.declared.outcome.Outcome.{Outcome};
ghost use Rattle.pass_frames_proof.specs.ir_base.declared.outcome.Word.{Word};
ghost use Rattle.pass_frames_proof.specs.ir_model.Ty.{Ty};
ghost use Rattle.pass_frames_proof.specs.ir_model.declared.instr.Instr.{Instr};
ghost use Rattle.pass_frames_proof.specs.ir_model.declared.operand.Arg.{Arg};
ghost use Rattle.pass_frames_proof.specs.ir_model.declared.operand.Callee.{Callee};
ghost use Rattle.pass_frames_proof.specs.ir_model.declared.operand.Intrinsic.{Intrinsic};
ghost use Rattle.pass_frames_meaning.specs.Called.{IsCalledState};
ghost use Rattle.pass_frames_meaning.specs.Coroutines.{HasStorables, MayFollow};
ghost use Rattle.pass_frames_meaning.specs.Others.{EntersCoroutines};
ghost use Rattle.pass_frames_meaning.specs.Setting.{AreOfRuns, KeepsAll, Setting};
ghost use Rattle.pass_frames_meaning.specs.Woken.{IsFramedFit, IsOnWay, KeepsWaking, MayEnter, MayWake};
ghost use Rattle.pass_frames_proof.specs.Anew.{HasCellsMade};
ghost use Rattle.pass_frames_proof.specs.Followed.{IsFollowed};
ghost use Rattle.pass_frames_proof.specs.Related.{AreBuiltOf, is_coroutine};
ghost use Rattle.pass_frames_proof.specs.Stepping.{IsNotEntering};
ghost use Rattle.pass_frames_proof.specs.pass_renewed_proof.Renewed.{renewed_step};
ghost use Rattle.pass_frames_proof.specs.run_agreement.Machines.{IsFine};
ghost use Rattle.pass_frames_proof.specs.run_framed.Framed.{framed_state_at, given_call};
ghost use Rattle.pass_frames_proof.specs.run_memory.declared.pointer.Value.{Value};
ghost use Rattle.run_slots.specs.Slots.{IsSlottedState};
ghost use Rattle.pass_frames_proof.specs.run_source.Source.{context_of, first_state};
ghost use Rattle.pass_frames_proof.specs.run_source.State.{function_of, work_of};
ghost use Rattle.pass_frames_proof.specs.run_source.declared.state.Mode.{Mode};
ghost use Rattle.pass_frames_proof.specs.run_source.declared.state.State.{State as TheState};
ghost use Rattle.pass_frames_proof.specs.run_states.sound_states.Sound.{IsSound};
ghost use Rattle.pass_frames_proof.specs.run_step.Runs.{iterate};
ghost use Rattle.pass_frames_proof.specs.run_step.Step.{AtInstr, Enter, fetch, instr_action};

/// A resume or destroy is followed, by a coroutine or another function, whether the coroutine makes slots anew or
/// none.
pub fn resumes_and_destroys_are_followed()
    ensures { (c : Setting) → KeepsAll c → KeepsWaking c → (s t : TheState) (r : AreBuiltOf c.b s t)
        → AreOfRuns c s t r
        → s.outcome ≡ Outcome.Running → IsFine (renewed_step c.g s).outcome → MayWake c s
        → (is_coroutine c.b s.top.func ≡ true → IsNotEntering s.top.mode → MayFollow c s)
        → (x : Intrinsic) → (x ≡ Intrinsic.CoroResume) ⊎ (x ≡ Intrinsic.CoroDestroy) → (result : Option ℕ)
        (must_tail : Bool) (ty : Option Ty) (args : List Arg)
        → fetch (function_of c.g.given s) s.top.block s.top.at
        ≡ AtInstr (Instr.Call result must_tail ty (Callee.Intrinsic x) args) → IsFollowed c.b c.g s t }
{}

/// So is a call of a ramp, where what its parameters get may be stored in their cells.
pub fn calls_of_coroutines_enter_ramps()
    ensures { (c : Setting) → KeepsAll c → KeepsWaking c → (s t : TheState) (r : AreBuiltOf c.b s t)
        → AreOfRuns c s t r
        → s.outcome ≡ Outcome.Running → IsFine (renewed_step c.g s).outcome → MayWake c s
        → (is_coroutine c.b s.top.func ≡ true → IsNotEntering s.top.mode → MayFollow c s)
        → HasStorables c (renewed_step c.g s) → (i : Instr) (func : ℕ) (args : List Value) (result : Option ℕ)
        (must_tail : Bool) → fetch (function_of c.g.given s) s.top.block s.top.at ≡ AtInstr i
        → instr_action (context_of c.g.given s) (work_of s) i ≡ Enter func args result must_tail
        → is_coroutine c.b func ≡ true → IsFollowed c.b c.g s t }
{}

/// So each step that enters a coroutine is followed.
pub fn steps_that_enter_coroutines_are_followed()
    ensures { (c : Setting) → KeepsAll c → KeepsWaking c → (s t : TheState) (r : AreBuiltOf c.b s t)
        → AreOfRuns c s t r
        → s.outcome ≡ Outcome.Running → IsFine (renewed_step c.g s).outcome → MayWake c s
        → (is_coroutine c.b s.top.func ≡ true → IsNotEntering s.top.mode → MayFollow c s)
        → HasStorables c (renewed_step c.g s) → EntersCoroutines c s t }
{}

/// So is a slot that is made anew, whether another one follows or it is the last one.
pub fn slots_are_followed_on_the_way()
    ensures { (c : Setting) → KeepsAll c → KeepsWaking c → (s t : TheState) (r : AreBuiltOf c.b s t)
        → AreOfRuns c s t r
        → s.outcome ≡ Outcome.Running → is_coroutine c.b s.top.func ≡ true → MayEnter c s t
        → (from label : ℕ) → s.top.mode ≡ Mode.Entering from label → IsFollowed c.b c.g s t }
{}

/// In each state of a run that makes slots anew, an activation that does so is on its way to a label behind a suspend.
pub fn activations_are_on_their_way()
    ensures { (c : Setting) → KeepsAll c → KeepsWaking c → (entry : ℕ) (args : List Word)
        → ((n : ℕ) → IsSound c.g.given.code (iterate (renewed_step c.g) n (first_state c.g.given.code entry args)))
        → ((n : ℕ) → IsCalledState c.g.given.code
        (iterate (renewed_step c.g) n (first_state c.g.given.code entry args)))
        → (n : ℕ) → (from label : ℕ)
        → (iterate (renewed_step c.g) n (first_state c.g.given.code entry args)).top.mode ≡ Mode.Entering from label
        → (is_coroutine c.b (iterate (renewed_step c.g) n (first_state c.g.given.code entry args)).top.func ≡ true)
        × IsOnWay c (iterate (renewed_step c.g) n (first_state c.g.given.code entry args)) label }
{}

/// In each state of the framed run, an activation that makes allocas again has the cells of those that it has made.
pub fn cells_are_there_on_the_way()
    ensures { (c : Setting) → KeepsAll c → KeepsWaking c
        → ((s : TheState) (block at : ℕ) → given_call c.b.given s (fetch (function_of c.b.given.given s) block at)
        ≡ None)
        → (entry : ℕ) (args : List Word) → ((n : ℕ) → IsFramedFit c (framed_state_at c.b.given entry args n))
        → ((n : ℕ) → IsSlottedState (framed_state_at c.b.given entry args n))
        → (n : ℕ) → HasCellsMade c.b (framed_state_at c.b.given entry args n) }
{}
