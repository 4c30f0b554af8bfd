//! Steps of coroutines that are kinds of their own: coro.id, begin, saves, allocas, and getelementptrs whose distance is
//! kept.

ghost use Rattle.std.specs.Prelude.{◌≡◌, ℕ, Bool, List, Option, Some, true};
ghost use Rattle.pass_frames_proof.specs.ir_base.declared.outcome.Outcome.{Outcome};
ghost use Rattle.pass_frames_proof.specs.ir_model.Ty.{Ty};
ghost use Rattle.pass_frames_proof.specs.ir_model.declared.instr.Instr.{Instr};
ghost use Rattle.pass_frames_proof.specs.ir_model.declared.operand.Arg.{Arg};
ghost use Rattle.pass_frames_proof.specs.ir_model.declared.operand.Callee.{Callee};
ghost use Rattle.pass_frames_proof.specs.ir_model.declared.operand.Intrinsic.{Intrinsic};
ghost use Rattle.pass_frames_proof.specs.ir_model.declared.operand.Operand.{Operand};
ghost use Rattle.pass_frames_proof.specs.pass_cells.Kept.{entry};
ghost use Rattle.pass_frames_meaning.specs.Coroutines.{IsOwnKind, MayFollow};
ghost use Rattle.pass_frames_meaning.specs.Kinds.{AreSlotsMade, KeepsKinds, MayBegin, MayKinds, MayMake, MaySave};
ghost use Rattle.pass_frames_meaning.specs.Setting.{AreOfRuns, KeepsAll, Setting};
ghost use Rattle.pass_frames_proof.specs.Followed.{IsFollowed};
ghost use Rattle.pass_frames_proof.specs.Places.{plan};
ghost use Rattle.pass_frames_proof.specs.Related.{AreBuiltOf, is_coroutine};
ghost use Rattle.pass_frames_proof.specs.Stepping.{IsNotEntering};
ghost use Rattle.pass_frames_proof.specs.pass_renewed_proof.Renewed.{renewed_step};
ghost use Rattle.pass_frames_proof.specs.run_agreement.Machines.{IsFine};
ghost use Rattle.pass_frames_proof.specs.run_source.State.{function_of};
ghost use Rattle.pass_frames_proof.specs.run_source.declared.state.State.{State as TheState};
ghost use Rattle.pass_frames_proof.specs.run_step.Step.{AtInstr, fetch};

/// coro.id of a coroutine is followed: the framed form names no promise, and it gives nothing in either run.
pub fn ids_of_coroutines_are_followed()
    ensures { (c : Setting) → KeepsAll c → KeepsKinds c → (s t : TheState) (r : AreBuiltOf c.b s t)
        → AreOfRuns c s t r → s.outcome ≡ Outcome.Running → is_coroutine c.b s.top.func ≡ true
        → IsNotEntering s.top.mode → (result : Option ℕ) (must_tail : Bool) (ty : Option Ty) (args : List Arg)
        → fetch (function_of c.g.given s) s.top.block s.top.at
        ≡ AtInstr (Instr.Call result must_tail ty (Callee.Intrinsic Intrinsic.CoroId) args)
        → IsFollowed c.b c.g s t }
{}

/// So is a getelementptr whose distance is kept. Its base is a local slot, which has been made, or a name whose distance is
/// kept too.
pub fn measured_addresses_of_coroutines_are_followed()
    ensures { (c : Setting) → KeepsAll c → KeepsKinds c → (s t : TheState) (r : AreBuiltOf c.b s t)
        → AreOfRuns c s t r → s.outcome ≡ Outcome.Running → IsFine (renewed_step c.g s).outcome
        → is_coroutine c.b s.top.func ≡ true → IsNotEntering s.top.mode → MayFollow c s → AreSlotsMade c s
        → (name : ℕ) (inbounds : Bool) (ty : Ty) (base : Operand) (indices : List Arg) (cell : ℕ)
        → fetch (function_of c.g.given s) s.top.block s.top.at ≡ AtInstr (Instr.Gep name inbounds ty base indices)
        → entry (plan (c.b.framing s.top.func)).cells name ≡ Some cell → IsFollowed c.b c.g s t }
{}

/// So is a save, which has its suspend. Its instance runs, and behind it no live slot lies in the field of a value that
/// crosses.
pub fn saves_of_coroutines_are_followed()
    ensures { (c : Setting) → KeepsAll c → KeepsKinds c → (s t : TheState) (r : AreBuiltOf c.b s t)
        → AreOfRuns c s t r → s.outcome ≡ Outcome.Running → IsFine (renewed_step c.g s).outcome
        → is_coroutine c.b s.top.func ≡ true → IsNotEntering s.top.mode → MayFollow c s → MaySave c s
        → (result : Option ℕ) (must_tail : Bool) (ty : Option Ty) (args : List Arg)
        → fetch (function_of c.g.given s) s.top.block s.top.at
        ≡ AtInstr (Instr.Call result must_tail ty (Callee.Intrinsic Intrinsic.CoroSave) args)
        → IsFollowed c.b c.g s t }
{}

/// So is an alloca. Its slot stands by itself, is hidden, or is in its temporary before begin, or lies in the frame.
pub fn allocas_of_coroutines_are_followed()
    ensures { (c : Setting) → KeepsAll c → KeepsKinds c → (s t : TheState) (r : AreBuiltOf c.b s t)
        → AreOfRuns c s t r → s.outcome ≡ Outcome.Running → IsFine (renewed_step c.g s).outcome
        → is_coroutine c.b s.top.func ≡ true → IsNotEntering s.top.mode → MayFollow c s
        → (name : ℕ) (ty : Ty) (align : ℕ) → MayMake c s name ty
        → fetch (function_of c.g.given s) s.top.block s.top.at ≡ AtInstr (Instr.Alloca name ty align)
        → IsFollowed c.b c.g s t }
{}

/// So is begin, also where slots are used before it, or its memory is kept in a cell.
pub fn begins_of_coroutines_are_followed()
    ensures { (c : Setting) → KeepsAll c → KeepsKinds c → (s t : TheState) (r : AreBuiltOf c.b s t)
        → AreOfRuns c s t r → s.outcome ≡ Outcome.Running → IsFine (renewed_step c.g s).outcome
        → is_coroutine c.b s.top.func ≡ true → IsNotEntering s.top.mode → MayFollow c s
        → MayBegin c s t
        → (result : Option ℕ) (must_tail : Bool) (ty : Option Ty) (args : List Arg)
        → fetch (function_of c.g.given s) s.top.block s.top.at
        ≡ AtInstr (Instr.Call result must_tail ty (Callee.Intrinsic Intrinsic.CoroBegin) args)
        → IsFollowed c.b c.g s t }
{}

/// In all, coro.id, begin and saves are followed, and allocas and getelementptrs whose distance is kept.
pub fn kinds_of_coroutines_are_followed()
    ensures intrinsics { (c : Setting) → KeepsAll c → KeepsKinds c → (s t : TheState) (r : AreBuiltOf c.b s t)
        → AreOfRuns c s t r → s.outcome ≡ Outcome.Running → IsFine (renewed_step c.g s).outcome
        → is_coroutine c.b s.top.func ≡ true → IsNotEntering s.top.mode → MayFollow c s → MayKinds c s t
        → (i : Intrinsic) → IsOwnKind i → (result : Option ℕ) (must_tail : Bool) (ty : Option Ty) (args : List Arg)
        → fetch (function_of c.g.given s) s.top.block s.top.at
        ≡ AtInstr (Instr.Call result must_tail ty (Callee.Intrinsic i) args) → IsFollowed c.b c.g s t }
    ensures allocas { (c : Setting) → KeepsAll c → KeepsKinds c → (s t : TheState) (r : AreBuiltOf c.b s t)
        → AreOfRuns c s t r → s.outcome ≡ Outcome.Running → IsFine (renewed_step c.g s).outcome
        → is_coroutine c.b s.top.func ≡ true → IsNotEntering s.top.mode → MayFollow c s → MayKinds c s t
        → (name : ℕ) (ty : Ty) (align : ℕ)
        → fetch (function_of c.g.given s) s.top.block s.top.at ≡ AtInstr (Instr.Alloca name ty align)
        → IsFollowed c.b c.g s t }
    ensures measured { (c : Setting) → KeepsAll c → KeepsKinds c → (s t : TheState) (r : AreBuiltOf c.b s t)
        → AreOfRuns c s t r → s.outcome ≡ Outcome.Running → IsFine (renewed_step c.g s).outcome
        → is_coroutine c.b s.top.func ≡ true → IsNotEntering s.top.mode → MayFollow c s → MayKinds c s t
        → (name : ℕ) (inbounds : Bool) (ty : Ty) (base : Operand) (indices : List Arg) (cell : ℕ)
        → fetch (function_of c.g.given s) s.top.block s.top.at ≡ AtInstr (Instr.Gep name inbounds ty base indices)
        → entry (plan (c.b.framing s.top.func)).cells name ≡ Some cell → IsFollowed c.b c.g s t }
{}
