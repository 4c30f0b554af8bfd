//! What rules give of framed modules (`IsRuled`).

ghost use Rattle.pass_elide_edges.specs.States.{EntersNoStart};
ghost use Rattle.pass_elide_kept.specs.Modules.{BeginsAlone, LeadsOut};
ghost use Rattle.pass_elide_kept.specs.Runs.{EndsInBlock};
ghost use Rattle.pass_elide_known.specs.Keeping.{is_marker};
ghost use Rattle.pass_elide_edges.specs.pass_elide_proof.Callers.{GivesOnce};
ghost use Rattle.pass_elide_edges.specs.pass_elide_proof.Calling.{MarksOwn};
ghost use Rattle.pass_elide_edges.specs.pass_elide_proof.Edges.{label_from, phis_at};
ghost use Rattle.pass_elide_edges.specs.pass_elide_proof.Elision.{Elision, function_in};
ghost use Rattle.pass_elide_edges.specs.pass_elide_proof.Ordinary.{HasSteadyIndices};
ghost use Rattle.pass_elide_edges.specs.pass_elide_proof.Places.{instrs_of};
ghost use Rattle.pass_elide_edges.specs.pass_elide_proof.Placing.{IsSmallAlloca, is_own};
ghost use Rattle.pass_elide_ready.specs.Ruled.{IsRuled};
ghost use Rattle.pass_elide_runs.specs.Marks.{MarksAllocas};
ghost use Rattle.pass_elide_runs.specs.Slots.{AllocasFirst, NamesAllocas};
ghost use Rattle.pass_elide_edges.specs.pass_elide_proof.pass_proofs.edges.rules.Returns.{AreSwitched};
ghost use Rattle.pass_elide_edges.specs.pass_elide_proof.pass_proofs.ir_model.Names.{function_at, noalloc_of, position_of};
ghost use Rattle.pass_elide_edges.specs.pass_elide_proof.pass_proofs.ir_model.Ty.{Ty};
ghost use Rattle.pass_elide_edges.specs.pass_elide_proof.pass_proofs.ir_model.declared.instr.Instr.{Instr};
ghost use Rattle.pass_elide_edges.specs.pass_elide_proof.pass_proofs.ir_model.declared.instr.Phi.{Phi};
ghost use Rattle.pass_elide_edges.specs.pass_elide_proof.pass_proofs.ir_model.declared.module.Function.{Function};
ghost use Rattle.pass_elide_edges.specs.pass_elide_proof.pass_proofs.ir_model.declared.module.Module.{Module};
ghost use Rattle.pass_elide_edges.specs.pass_elide_proof.pass_proofs.ir_model.declared.operand.Arg.{Arg};
ghost use Rattle.pass_elide_edges.specs.pass_elide_proof.pass_proofs.ir_model.declared.operand.Callee.{Callee};
ghost use Rattle.pass_elide_edges.specs.pass_elide_proof.pass_proofs.ir_model.declared.operand.Intrinsic.{Intrinsic};
ghost use Rattle.pass_elide_edges.specs.pass_elide_proof.pass_proofs.ir_model.declared.operand.Operand.{Operand};
ghost use Rattle.pass_elide_edges.specs.pass_elide_proof.pass_proofs.ir_paths.Windows.{is_call_of, points_where};
ghost use Rattle.pass_elide_edges.specs.pass_elide_proof.pass_proofs.run_framed.Framed.{given_ramp};
ghost use Rattle.pass_elide_edges.specs.pass_elide_proof.pass_proofs.run_laws.changed.Changed.{Each};
ghost use Rattle.pass_elide_edges.specs.pass_elide_proof.pass_proofs.run_laws.embedded.Related.{HasBytes};
ghost use Rattle.pass_elide_edges.specs.pass_elide_proof.pass_proofs.run_step.Step.{AtInstr, incoming_from};
ghost use Rattle.run_hooks.specs.Reached.{AllHaveSwitches};
ghost use Rattle.run_slots.specs.Slots.{GivesNoFrames};
ghost use Rattle.run_types.specs.Rules.{KeepsAllTypes};
ghost use Rattle.std.specs.Prelude.{Bool, List, Option, Some, [], false, slice_get, true, ◌≡◌, ◌≢◌, ℕ};

/// No edge leads to an entry block (F1).
pub fn no_edge_leads_to_an_entry()
    ensures edges { (m : Module) → IsRuled m → EntersNoStart m }
    ensures ends { (m : Module) → IsRuled m → (func from label : ℕ) → LeadsOut (function_at m func) from label
        → position_of (function_at m func) label ≢ 0 }
{}

/// Each name is given once, and is one of its function (N1, N2). Begin's name is begin's alone, and no marker is one
/// of a name that the function doesn't have.
pub fn names_are_given_once()
    ensures once { (m : Module) → IsRuled m → (func : ℕ) → GivesOnce (function_at m func) }
    ensures begins { (m : Module) → IsRuled m → (func : ℕ) → BeginsAlone (function_at m func) }
    ensures marks { (m : Module) → IsRuled m → (func : ℕ) → MarksOwn (function_at m func) }
{}

/// Allocas stand in the entry block, nothing else gives their names, and markers stand behind them (F1, F3, N1, K13).
pub fn allocas_stand_in_entry_blocks()
    ensures first { (m : Module) → IsRuled m → (func : ℕ) → AllocasFirst (function_at m func) }
    ensures named { (m : Module) → IsRuled m → (func : ℕ) → NamesAllocas (function_at m func) }
    ensures marks { (m : Module) → IsRuled m → (func : ℕ) → MarksAllocas (function_at m func) }
    ensures unmarked { (m : Module) → IsRuled m → (func : ℕ) (i : Instr)
        → slice_get (instrs_of (function_at m func) 0) 0 ≡ Some i → is_marker i ≡ false }
{}

/// Indices into structures are literals, what is loaded or stored has bytes, allocas are small and aligned, and a
/// coroutine's own intrinsics stand in coroutines (Y1, Y4, K1).
pub fn instructions_keep_rules()
    ensures steady { (m : Module) → IsRuled m → (func block at : ℕ) (i : Instr)
        → slice_get (instrs_of (function_at m func) block) at ≡ Some i → HasSteadyIndices m i }
    ensures bytes { (m : Module) → IsRuled m → (func block at : ℕ) (i : Instr)
        → slice_get (instrs_of (function_at m func) block) at ≡ Some i → HasBytes (AtInstr i) }
    ensures allocas { (e : Elision) → IsRuled e.code → (func block at name align : ℕ) (ty : Ty)
        → slice_get (instrs_of (function_in e func) block) at ≡ Some (Instr.Alloca name ty align)
        → IsSmallAlloca e ty align }
    ensures own { (m : Module) → IsRuled m → (func block at : ℕ) (result : Option ℕ) (must_tail : Bool)
        (ty : Option Ty) (j : Intrinsic) (args : List Arg)
        → slice_get (instrs_of (function_at m func) block) at
        ≡ Some (Instr.Call result must_tail ty (Callee.Intrinsic j) args)
        → is_own j ≡ true → (function_at m func).coroutine ≡ true }
{}

/// A suspend is followed at once by its switch, and a path leads from each save to its suspend (K3, K6). No phi takes
/// anything from the block of a suspend.
pub fn suspends_are_switched()
    ensures switches { (m : Module) → IsRuled m → AllHaveSwitches m }
    ensures switched { (m : Module) → IsRuled m → (func : ℕ) → AreSwitched (function_at m func) }
    ensures phis { (m : Module) → IsRuled m → (func block at to : ℕ) (i : Instr)
        → slice_get (instrs_of (function_at m func) block) at ≡ Some i
        → is_call_of Intrinsic.CoroSuspend i ≡ true
        → Each (λ (p : Phi). (v : ℕ)
        → incoming_from p.incoming (label_from (function_at m func) block) ≡ Operand.Local v → ⊥)
        (phis_at (function_at m func) to) }
{}

/// Each coro.end stands in the end block, since a coroutine has one (K2).
pub fn ends_stand_in_end_blocks()
    ensures { (e : Elision) → IsRuled e.code → (func : ℕ) → EndsInBlock e func }
{}

/// Operands are of their types (Y1, Y2).
pub fn operands_have_their_types()
    ensures { (m : Module) → IsRuled m → KeepsAllTypes m }
{}

/// No call gives a frame, and a function that is no coroutine has no saves (K1, N2, N3). A coroutine's ramp that is
/// given its frame is found by its name.
pub fn ramps_are_found_by_their_names()
    ensures none { (m : Module) → IsRuled m → GivesNoFrames m }
    ensures plain { (m : Module) → IsRuled m → (func : ℕ) → (function_at m func).coroutine ≡ false
        → points_where (is_call_of Intrinsic.CoroSave) (function_at m func) ≡ [] }
    ensures found { (m : Module) → IsRuled m → (k : ℕ) (f : Function) → slice_get m.functions k ≡ Some f
        → f.coroutine ≡ true → given_ramp m (noalloc_of f.name) ≡ Some k }
{}
