//! What the shape of a coroutine gives where it is that of its form (`IsFormed`), and each other function has none.

ghost use Rattle.pass_elide_edges.specs.Keeping.{EntersAlone, SetsKnown};
ghost use Rattle.pass_elide_kept.specs.Modules.{PassesAllocation, PassesFree};
ghost use Rattle.pass_elide_known.specs.Keeping.{KeepsAside, KeepsFreeing, KeepsTest};
ghost use Rattle.pass_elide_edges.specs.pass_elide_proof.Assembling.{WaitsBehind};
ghost use Rattle.pass_elide_edges.specs.pass_elide_proof.Calling.{StartsAlike};
ghost use Rattle.pass_elide_edges.specs.pass_elide_proof.Edges.{phis_at};
ghost use Rattle.pass_elide_edges.specs.pass_elide_proof.Elision.{Elision, function_in, no_shape};
ghost use Rattle.pass_elide_edges.specs.pass_elide_proof.Match.{frame_size};
ghost use Rattle.pass_elide_edges.specs.pass_elide_proof.Places.{instrs_of};
ghost use Rattle.pass_elide_edges.specs.pass_elide_proof.Placing.{HasShape, SetsPlain};
ghost use Rattle.pass_elide_edges.specs.pass_elide_proof.Releasing.{IsFreeing};
ghost use Rattle.pass_elide_edges.specs.pass_elide_proof.Waking.{GivesNone, WakesAlike};
ghost use Rattle.pass_elide_ready.specs.Form.{AreFormed, IsFormed};
ghost use Rattle.pass_elide_ready.specs.Ruled.{IsRuled};
ghost use Rattle.pass_elide_runs.specs.Marks.{HasPlainAllocas};
ghost use Rattle.pass_elide_edges.specs.pass_elide_proof.pass_proofs.ir_base.declared.ops.Pred.{Pred};
ghost use Rattle.pass_elide_edges.specs.pass_elide_proof.pass_proofs.ir_model.Ty.{Ty};
ghost use Rattle.pass_elide_edges.specs.pass_elide_proof.pass_proofs.ir_model.declared.instr.Instr.{Instr};
ghost use Rattle.pass_elide_edges.specs.pass_elide_proof.pass_proofs.ir_model.declared.operand.Operand.{Operand};
ghost use Rattle.pass_elide_edges.specs.pass_elide_proof.pass_proofs.ir_parts.Contents.{result_of};
ghost use Rattle.pass_elide_edges.specs.pass_elide_proof.pass_proofs.run_laws.changed.Changed.{Each};
ghost use Rattle.std.specs.Prelude.{Bool, Some, slice_get, ◌<◌, ◌^◌, ◌≡◌, ◌⊎◌, ℕ};

/// A form has the shape that tells of it, and where its runs go on or start the names of this shape are set by nothing.
pub fn forms_have_shapes()
    ensures shapes { (e : Elision) → IsRuled e.code → AreFormed e → ((func : ℕ) → frame_size e func < 2 ^ 32)
        → (func : ℕ) → (e.shape func ≡ no_shape) ⊎ HasShape e func }
    ensures wakes { (e : Elision) → IsRuled e.code → AreFormed e → (func : ℕ) → GivesNone e func
        → WakesAlike e func }
    ensures starts { (e : Elision) → IsRuled e.code → AreFormed e → (func : ℕ) → HasShape e func
        → StartsAlike e func }
{}

/// The names that a shape tells are set where it tells it, and no phi or alloca has one (N1).
pub fn forms_set_plain_names()
    ensures sets { (e : Elision) → IsRuled e.code → AreFormed e → (func block at v : ℕ) (i : Instr)
        → slice_get (instrs_of (function_in e func) block) at ≡ Some i → result_of i ≡ Some v
        → SetsPlain (function_in e func) (e.shape func) block at i v }
    ensures phis { (e : Elision) → IsRuled e.code → AreFormed e → (func block : ℕ)
        → Each (SetsKnown (function_in e func) (e.shape func)) (phis_at (function_in e func) block) }
    ensures plain { (e : Elision) → IsRuled e.code → AreFormed e → (func : ℕ) → HasPlainAllocas e func }
{}

/// Blocks of their own are entered alone, and neither those where coro.alloc is asked nor those of tests wait.
pub fn forms_enter_alone()
    ensures waits { (e : Elision) → IsRuled e.code → AreFormed e → (func : ℕ)
        → WaitsBehind (function_in e func) (e.shape func) }
    ensures enters { (e : Elision) → IsRuled e.code → AreFormed e → (func : ℕ)
        → EntersAlone (function_in e func) (e.shape func) }
    ensures allocations { (e : Elision) → IsRuled e.code → AreFormed e → (func : ℕ) (k : HasShape e func)
        → PassesAllocation e func k }
    ensures frees { (e : Elision) → IsRuled e.code → AreFormed e → (func block other : ℕ)
        → (e.shape func).frees block ≡ Some other → PassesFree e func block }
{}

/// A block that frees, a test and blocks aside are as known places ask. What coro.free gives is freed at once.
pub fn forms_free_at_once()
    ensures freeing { (e : Elision) → IsRuled e.code → AreFormed e → (func block other : ℕ)
        → (e.shape func).frees block ≡ Some other → KeepsFreeing e func block }
    ensures tests { (e : Elision) → IsRuled e.code → AreFormed e → (func block at name : ℕ) (pred : Pred) (ty : Ty)
        (a b : Operand) (is_eq : Bool)
        → slice_get (instrs_of (function_in e func) block) at ≡ Some (Instr.Icmp name pred ty a b)
        → (e.shape func).tested name ≡ Some is_eq → KeepsTest e func name pred ty a b }
    ensures asides { (e : Elision) → IsRuled e.code → AreFormed e → (func block other : ℕ)
        → (e.shape func).aside block ≡ Some other → KeepsAside e func block other }
    ensures frees { (e : Elision) → IsRuled e.code → (func : ℕ) → IsFormed e func → IsFreeing e func }
{}
