//! Steps of coroutines are followed.
//!
//! What stands at the place, and facts of runs, are premises of the laws of `pass_frames_proof`. Here they follow of
//! invariants of both runs and of rules, but for what is in `MayFollow`.

ghost use Rattle.std.specs.Prelude.{◌≡◌, ℕ, Bool, None, Option, List, Some, true};
ghost use Rattle.pass_frames_proof.specs.ir_base.declared.outcome.Outcome.{Outcome};
ghost use Rattle.pass_frames_proof.specs.ir_base.declared.name.Name.{Name};
ghost use Rattle.pass_frames_proof.specs.ir_model.Ty.{Ty, token};
ghost use Rattle.pass_frames_proof.specs.ir_model.declared.instr.Instr.{Instr};
ghost use Rattle.pass_frames_proof.specs.ir_model.declared.operand.Arg.{Arg};
ghost use Rattle.pass_frames_proof.specs.ir_model.declared.operand.Allocator.{Allocator};
ghost use Rattle.pass_frames_proof.specs.ir_model.declared.operand.Callee.{Callee};
ghost use Rattle.pass_frames_proof.specs.ir_model.declared.operand.Intrinsic.{Intrinsic};
ghost use Rattle.pass_frames_proof.specs.ir_model.declared.operand.Operand.{Operand};
ghost use Rattle.pass_frames_proof.specs.ir_parts.Contents.{result_of};
ghost use Rattle.pass_frames_proof.specs.pass_cells.Kept.{entry};
ghost use Rattle.pass_frames_meaning.specs.Coroutines.{AreCoroutinesReady, AreOthersFollowed, IsNowhere, IsUnlocatedHere, MayEnd, MayFollow, MayMark, MaySuspend};
ghost use Rattle.pass_frames_meaning.specs.Others.{EntersCoroutines};
ghost use Rattle.pass_frames_meaning.specs.Setting.{AreOfRuns, KeepsAll, Setting};
ghost use Rattle.pass_frames_proof.specs.Asking.{IsAsking};
ghost use Rattle.pass_frames_proof.specs.Copying.{IsCopying};
ghost use Rattle.pass_frames_proof.specs.Followed.{IsFollowed};
ghost use Rattle.pass_frames_proof.specs.Framings.{IsFraming};
ghost use Rattle.pass_frames_proof.specs.Led.{LeavesMemory};
ghost use Rattle.pass_frames_proof.specs.Marking.{marker};
ghost use Rattle.pass_frames_proof.specs.Places.{Framing, edged, plan};
ghost use Rattle.pass_frames_proof.specs.Related.{AreBuiltOf, is_coroutine};
ghost use Rattle.pass_frames_proof.specs.Stepping.{IsCommon, IsNotEntering};
ghost use Rattle.pass_frames_proof.specs.pass_renewed_proof.Renewed.{renewed_step};
ghost use Rattle.pass_frames_proof.specs.rule_values.Fits.{fits_kind};
ghost use Rattle.pass_frames_proof.specs.rule_values.Kinds.{value_kind};
ghost use Rattle.pass_frames_proof.specs.run_agreement.Machines.{IsFine};
ghost use Rattle.pass_frames_proof.specs.run_source.Source.{context_of};
ghost use Rattle.pass_frames_proof.specs.run_source.State.{function_of};
ghost use Rattle.pass_frames_proof.specs.run_source.declared.state.State.{State as TheState};
ghost use Rattle.pass_frames_proof.specs.run_step.Step.{AtInstr, fetch};

/// An instruction that changes no memory is followed, and a store, where no access goes by the address of a slot that
/// is used before begin. Of a getelementptr no distance is kept.
pub fn ordinary_instructions_of_coroutines_are_followed()
    ensures quiet { (c : Setting) → KeepsAll c → (s t : TheState) (r : AreBuiltOf c.b s t) → AreOfRuns c s t r
        → s.outcome ≡ Outcome.Running → IsFine (renewed_step c.g s).outcome → is_coroutine c.b s.top.func ≡ true
        → IsNotEntering s.top.mode → MayFollow c s → (i : Instr)
        → fetch (function_of c.g.given s) s.top.block s.top.at ≡ AtInstr i → IsCommon i
        → LeavesMemory (context_of c.g.given s) i → IsUnlocatedHere c s i
        → ((r : ℕ) → result_of i ≡ Some r → entry (plan (c.b.framing s.top.func)).cells r ≡ None)
        → IsFollowed c.b c.g s t }
    ensures store { (c : Setting) → KeepsAll c → (s t : TheState) (r : AreBuiltOf c.b s t) → AreOfRuns c s t r
        → s.outcome ≡ Outcome.Running → IsFine (renewed_step c.g s).outcome → is_coroutine c.b s.top.func ≡ true
        → IsNotEntering s.top.mode → MayFollow c s → (arg : Arg) (p : Operand) (align : ℕ)
        → fetch (function_of c.g.given s) s.top.block s.top.at ≡ AtInstr (Instr.Store arg p align)
        → IsUnlocatedHere c s (Instr.Store arg p align) → IsFollowed c.b c.g s t }
{}

/// So is a call of a function by its name that enters no coroutine, one of an allocator or a deallocator, and one of an
/// intrinsic that copies, asks or frees.
pub fn calls_of_coroutines_are_followed()
    ensures named { (c : Setting) → KeepsAll c → (s t : TheState) (r : AreBuiltOf c.b s t) → AreOfRuns c s t r
        → s.outcome ≡ Outcome.Running → IsFine (renewed_step c.g s).outcome → is_coroutine c.b s.top.func ≡ true
        → IsNotEntering s.top.mode → MayFollow c s → EntersCoroutines c s t → (result : Option ℕ) (must_tail : Bool)
        (ty : Option Ty) (args : List Arg) (n : Name)
        → fetch (function_of c.g.given s) s.top.block s.top.at
        ≡ AtInstr (Instr.Call result must_tail ty (Callee.Named n) args) → IsFollowed c.b c.g s t }
    ensures allocators { (c : Setting) → KeepsAll c → (s t : TheState) (r : AreBuiltOf c.b s t) → AreOfRuns c s t r
        → s.outcome ≡ Outcome.Running → IsFine (renewed_step c.g s).outcome → is_coroutine c.b s.top.func ≡ true
        → IsNotEntering s.top.mode → MayFollow c s → (result : Option ℕ) (must_tail : Bool) (ty : Option Ty)
        (args : List Arg) (a : Allocator)
        → fetch (function_of c.g.given s) s.top.block s.top.at
        ≡ AtInstr (Instr.Call result must_tail ty (Callee.Allocator a) args) → IsFollowed c.b c.g s t }
    ensures asking { (c : Setting) → KeepsAll c → (s t : TheState) (r : AreBuiltOf c.b s t) → AreOfRuns c s t r
        → s.outcome ≡ Outcome.Running → IsFine (renewed_step c.g s).outcome → is_coroutine c.b s.top.func ≡ true
        → IsNotEntering s.top.mode → MayFollow c s → (result : Option ℕ) (must_tail : Bool) (ty : Option Ty)
        (args : List Arg) (x : Intrinsic) → IsAsking x
        → fetch (function_of c.g.given s) s.top.block s.top.at
        ≡ AtInstr (Instr.Call result must_tail ty (Callee.Intrinsic x) args) → IsFollowed c.b c.g s t }
    ensures frees { (c : Setting) → KeepsAll c → (s t : TheState) (r : AreBuiltOf c.b s t) → AreOfRuns c s t r
        → s.outcome ≡ Outcome.Running → IsFine (renewed_step c.g s).outcome → is_coroutine c.b s.top.func ≡ true
        → IsNotEntering s.top.mode → MayFollow c s → (result : Option ℕ) (must_tail : Bool) (ty : Option Ty)
        (args : List Arg)
        → fetch (function_of c.g.given s) s.top.block s.top.at
        ≡ AtInstr (Instr.Call result must_tail ty (Callee.Intrinsic Intrinsic.CoroFree) args)
        → IsFollowed c.b c.g s t }
    ensures copies { (c : Setting) → KeepsAll c → (s t : TheState) (r : AreBuiltOf c.b s t) → AreOfRuns c s t r
        → s.outcome ≡ Outcome.Running → IsFine (renewed_step c.g s).outcome → is_coroutine c.b s.top.func ≡ true
        → IsNotEntering s.top.mode → MayFollow c s → (result : Option ℕ) (must_tail : Bool) (ty : Option Ty)
        (args : List Arg) (x : Intrinsic) → IsCopying x
        → fetch (function_of c.g.given s) s.top.block s.top.at
        ≡ AtInstr (Instr.Call result must_tail ty (Callee.Intrinsic x) args)
        → IsUnlocatedHere c s (Instr.Call result must_tail ty (Callee.Intrinsic x) args) → IsFollowed c.b c.g s t }
{}

/// So is coro.end, in a ramp and in an activation that was resumed.
pub fn ends_of_coroutines_are_led_back()
    ensures { (c : Setting) → KeepsAll c → (s t : TheState) (r : AreBuiltOf c.b s t) → AreOfRuns c s t r
        → s.outcome ≡ Outcome.Running → IsFine (renewed_step c.g s).outcome → is_coroutine c.b s.top.func ≡ true
        → IsNotEntering s.top.mode → MayFollow c s → MayEnd s → (result : Option ℕ) (must_tail : Bool)
        (ty : Option Ty) (args : List Arg)
        → fetch (function_of c.g.given s) s.top.block s.top.at
        ≡ AtInstr (Instr.Call result must_tail ty (Callee.Intrinsic Intrinsic.CoroEnd) args)
        → IsFollowed c.b c.g s t }
{}

/// So is a marker, by how its slot stands.
pub fn markers_of_coroutines_are_followed()
    ensures { (c : Setting) → KeepsAll c → (s t : TheState) (r : AreBuiltOf c.b s t) → AreOfRuns c s t r
        → s.outcome ≡ Outcome.Running → is_coroutine c.b s.top.func ≡ true → IsNotEntering s.top.mode
        → (starts : Bool) → MayMark c s t r starts → (result : Option ℕ) (must_tail : Bool) (ty : Option Ty)
        (args : List Arg)
        → fetch (function_of c.g.given s) s.top.block s.top.at
        ≡ AtInstr (Instr.Call result must_tail ty (Callee.Intrinsic (marker starts)) args) → IsFollowed c.b c.g s t }
{}

/// A token is kept in no cell, and lies in no frame.
pub fn tokens_have_no_place()
    ensures { (x : Framing) → IsFraming x → (v : ℕ) → fits_kind (value_kind (edged x) v) token ≡ true → IsNowhere x v }
{}

/// So a suspend is followed that takes the token of its save.
pub fn suspends_of_coroutines_are_followed()
    ensures { (c : Setting) → KeepsAll c → (s t : TheState) (r : AreBuiltOf c.b s t) → AreOfRuns c s t r
        → s.outcome ≡ Outcome.Running → is_coroutine c.b s.top.func ≡ true → IsNotEntering s.top.mode
        → (result : Option ℕ) (must_tail : Bool) (ty : Option Ty) (args : List Arg) → MaySuspend c s result args
        → fetch (function_of c.g.given s) s.top.block s.top.at
        ≡ AtInstr (Instr.Call result must_tail ty (Callee.Intrinsic Intrinsic.CoroSuspend) args)
        → IsFollowed c.b c.g s t }
{}

/// So each step of a coroutine is followed, where the other kinds are.
pub fn steps_of_coroutines_are_followed()
    ensures { (c : Setting) → KeepsAll c → (s t : TheState) (r : AreBuiltOf c.b s t) → AreOfRuns c s t r
        → s.outcome ≡ Outcome.Running → IsFine (renewed_step c.g s).outcome → is_coroutine c.b s.top.func ≡ true
        → IsNotEntering s.top.mode → MayFollow c s → EntersCoroutines c s t → AreOthersFollowed c s t
        → IsFollowed c.b c.g s t }
{}

/// So each step of any function is followed, where calls of ramps, resumes, destroys and the other kinds are.
pub fn steps_of_functions_are_followed()
    ensures { (c : Setting) → KeepsAll c → (s t : TheState) (r : AreBuiltOf c.b s t) → AreOfRuns c s t r
        → s.outcome ≡ Outcome.Running → IsFine (renewed_step c.g s).outcome → EntersCoroutines c s t
        → (is_coroutine c.b s.top.func ≡ true → AreCoroutinesReady c s t) → IsFollowed c.b c.g s t }
{}
