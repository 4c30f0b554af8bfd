//! What the framed form of an accepted source keeps: rules, and what isn't framed.

ghost use Rattle.compiler_theorem.specs.compiler.ir_base.declared.name.Name.{Name};
ghost use Rattle.compiler_theorem.specs.compiler.ir_base.declared.ops.Pred.{Pred};
ghost use Rattle.compiler_theorem.specs.compiler.ir_model.Names.{function_at, function_named};
ghost use Rattle.compiler_theorem.specs.compiler.ir_model.Ty.{Ty};
ghost use Rattle.compiler_theorem.specs.compiler.ir_model.declared.instr.Instr.{Instr};
ghost use Rattle.compiler_theorem.specs.compiler.ir_model.declared.module.Block.{Block};
ghost use Rattle.compiler_theorem.specs.compiler.ir_model.declared.operand.Intrinsic.{Intrinsic};
ghost use Rattle.compiler_theorem.specs.compiler.ir_model.declared.operand.Operand.{Operand};
ghost use Rattle.compiler_theorem.specs.compiler.ir_paths.Windows.{is_call_of, points_where};
ghost use Rattle.compiler_theorem.specs.compiler.ir_paths.declared.point.Point.{Point};
ghost use Rattle.compiler_theorem.specs.theorem.Lowered.{HasFewBytes, IsLowered, Lowered, early};
ghost use Rattle.pass_elide_ready.specs.elide_shape.Calls.{value_at};
ghost use Rattle.pass_elide_ready.specs.elide_shape.Frames.{rets_give_frame};
ghost use Rattle.pass_elide_ready.specs.elide_shape.Frees.{is_tested_next};
ghost use Rattle.pass_elide_ready.specs.elide_shape.Guard.{is_guarded};
ghost use Rattle.pass_elide_ready.specs.elide_sites.Destroyed.{FreesWhenDestroyed};
ghost use Rattle.pass_elide_ready.specs.elide_sites.Sites.{AreSites, callee_in};
ghost use Rattle.compiler_theorem.specs.compiler.run_framed.Framed.{promise_offset};
ghost use Rattle.compiler_theorem.specs.compiler.run_source.declared.state.Instance.{Instance};
ghost use Rattle.pass_elide_ready.specs.pass_elide_proof.CallersStack.{ReturnsFrame};
ghost use Rattle.pass_elide_ready.specs.pass_elide_proof.Elision.{Elision, framed, function_in};
ghost use Rattle.pass_elide_ready.specs.pass_elide_proof.Invariant.{IsSiteOf};
ghost use Rattle.pass_elide_ready.specs.pass_elide_proof.Match.{frame_size};
ghost use Rattle.pass_elide_ready.specs.pass_elide_proof.Sound.{NestsNone};
ghost use Rattle.pass_elide_ready.specs.pass_elide_proof.Waking.{GivesNone};
ghost use Rattle.pass_elide_ready.specs.Blocks.{AskingBlocks, AsksBlocks, FreeingBlocks, FreesBlocks};
ghost use Rattle.pass_elide_ready.specs.Ruled.{IsRuled};
ghost use Rattle.std.specs.Prelude.{Some, [], false, slice_get, true, ◌∷◌, ◌<◌, ◌^◌, ◌≡◌, ℕ};

/// The framed form of an accepted source breaks no rule of sources that elision asks.
pub fn framed_forms_are_ruled()
    ensures { (l : Lowered) → IsLowered l → HasFewBytes l → IsRuled l.framed }
{}

/// Functions that are no coroutines are those of the source. Each name is that of the function at the same position.
pub fn plain_functions_stay()
    ensures same { (l : Lowered) → IsLowered l → (func : ℕ) → (function_at l.source func).coroutine ≡ false
        → function_at l.framed func ≡ function_at l.source func }
    ensures names { (l : Lowered) → IsLowered l → (n : Name)
        → function_named l.framed n ≡ function_named l.source n }
{}

/// A coroutine whose frame callers may give frees it when it is destroyed, in the framed form too: each that a site of
/// the source calls.
pub fn framed_callees_are_freed_when_destroyed()
    ensures freed { (l : Lowered) → IsLowered l → (func : ℕ) → (function_at (early l) func).coroutine ≡ true
        → FreesWhenDestroyed (function_at (early l) func) → FreesWhenDestroyed (function_at l.framed func) }
    ensures callees { (l : Lowered) → IsLowered l → (e : Elision) → e.code ≡ l.framed → AreSites l.source e.sites
        → (func callee : ℕ) (call : Point) (i : Instr) (name : ℕ) → IsSiteOf e func call i name
        → callee_in e.code (Some i) ≡ Some callee → FreesWhenDestroyed (function_in e callee) }
{}

/// Frames of an accepted source are small, and promises lie at small offsets. No frame has room for another one, so calls
/// in coroutines give none.
pub fn frames_are_small()
    ensures small { (l : Lowered) → IsLowered l → (e : Elision) → e.layouts ≡ l.layouts → (func : ℕ)
        → frame_size e func < 2 ^ 32 }
    ensures nests { (l : Lowered) → IsLowered l → (e : Elision) → e.layouts ≡ l.layouts → NestsNone (framed e) }
    ensures promises { (l : Lowered) → IsLowered l → (e : Elision) → e.layouts ≡ l.layouts → (x : Instance)
        (distance : ℕ) → promise_offset (framed e) x ≡ Some distance → distance < 2 ^ 64 }
    ensures gives { (l : Lowered) → IsLowered l → (e : Elision) → e.layouts ≡ l.layouts → (func : ℕ)
        → (function_in e func).coroutine ≡ true → GivesNone e func }
{}

/// A coroutine that returns its frame alone does so in its framed form: each ret gives begin's value.
pub fn framed_coroutines_return_their_frames()
    ensures { (l : Lowered) → IsLowered l → (func : ℕ) → (function_at (early l) func).coroutine ≡ true
        → rets_give_frame (function_at (early l) func) ≡ true → ReturnsFrame (function_at l.framed func) }
{}

/// The framed form of a guarded coroutine asks for its frame at the end of one block, by what coro.alloc gives: no cell
/// keeps that. It frees what it tested in blocks of single entries, by its own test.
pub fn framed_coroutines_ask_in_blocks()
    ensures asks { (l : Lowered) → IsLowered l → (func : ℕ) → (function_at (early l) func).coroutine ≡ true
        → is_guarded (function_at (early l) func) ≡ true → (p : Point) (v : ℕ)
        → points_where (is_call_of Intrinsic.CoroAlloc) (function_at (early l) func) ≡ p ∷ []
        → value_at (function_at (early l) func) p ≡ Some v
        → (a : AskingBlocks) × ((s : AsksBlocks (function_at l.framed func) a) × (s.on ≡ Operand.Local v)) }
    ensures frees { (l : Lowered) → IsLowered l → (func : ℕ) → (function_at (early l) func).coroutine ≡ true
        → (block from v at : ℕ) (b : Block) → slice_get (function_at (early l) func).blocks block ≡ Some b
        → is_tested_next (function_at (early l) func) from v b at ≡ true → (name : ℕ) (pred : Pred) (ty : Ty)
        (left right : Operand) → slice_get b.instrs at ≡ Some (Instr.Icmp name pred ty left right)
        → (q : FreeingBlocks) × ((s : FreesBlocks (function_at l.framed func) q) × (s.on ≡ Operand.Local name)) }
{}
