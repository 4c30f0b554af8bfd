//! A coroutine stays as splitting asks where blocks are put on the edges that leave windows.
//!
//! Jumps alone have to lead to its phis. With these blocks it breaks no rule of functions that it broke not
//! (`exit_blocks_keep_function_rules`), and stays as splitting asks (`exits_keep_splittable`). An edge that is the
//! only one of its block leaves no window (`only_edges_leave_no_window`).

ghost use Rattle.std.specs.Prelude.{◌≡◌, ℕ, None, Some, slice_get, true};
ghost use Rattle.ir_model.specs.declared.instr.Terminator.{Terminator};
ghost use Rattle.ir_model.specs.declared.module.Block.{Block};
ghost use Rattle.ir_model.specs.declared.module.Function.{Function};
ghost use Rattle.pass_split.specs.pass_exits.Exits.{mark_of};
ghost use Rattle.pass_fetch_proof.specs.edges.rules.Phis.{ArePhisEnteredByJumps};
ghost use Rattle.pass_fetch_proof.specs.rule_laws.rules.function_rules.Kept.{KeepsFunctionRules};
ghost use Rattle.ir_model.specs.declared.module.Module.{Module};
ghost use Rattle.pass_split.specs.pass_exits.ExitBlocks.{with_exit_blocks};
ghost use Rattle.pass_fetch_proof.specs.rule_laws.rules.woven_rules.Pairs.{AreIncomingOnce};
ghost use Rattle.pass_fetch_proof.specs.rule_shape.OneOfEach.{wrong_call};
ghost use Rattle.pass_fetch_proof.specs.rule_shape.Switches.{wrong_switch};
ghost use Rattle.ir_model.specs.Calls.{first_result};
ghost use Rattle.ir_model.specs.declared.operand.Intrinsic.{Intrinsic};
ghost use Rattle.pass_fetch_proof.specs.pass_intrinsics.Shapes.{suspends_of, shape_of};
ghost use Rattle.pass_fetch_proof.specs.rule_laws.rules.replaced.Splittable.{AreBlocksBegun};
ghost use Rattle.pass_fetch_proof.specs.rule_laws.frames.replaced.Splittable.{HasOwnEdges};
ghost use Rattle.pass_fetch_proof.specs.run_laws.changed.Changed.{Each};
ghost use Rattle.pass_fetch_proof.specs.frame_layout.declared.layout.Layout.{Layout};
ghost use Rattle.pass_fetch_proof.specs.rule_laws.frames.replaced.Parted.{IsSmall};

/// An edge that is the only one of its block leaves no window: what stands behind it is in the window too, or is its suspend.
pub fn only_edges_leave_no_window()
    ensures { (f : Function) (at : ℕ) (b : Block) (label : ℕ) → slice_get f.blocks at ≡ Some b → b.term ≡ Terminator.Jump label → mark_of f at label ≡ None }
{}

/// So where phis are entered by jumps, a function with such blocks breaks none of the rules of functions that it broke not.
pub fn exit_blocks_keep_function_rules()
    ensures { (m : Module) (k : ℕ) (f : Function) → KeepsFunctionRules m k f → ArePhisEnteredByJumps f → KeepsFunctionRules m k (with_exit_blocks f) }
{}

/// The labels of each phi's operands stay different.
pub fn phis_keep_each_label_once()
    ensures { (f : Function) → AreIncomingOnce f → AreIncomingOnce (with_exit_blocks f) }
{}

/// The calls by which it is a coroutine break no rule (K2).
pub fn calls_break_no_rule_where_exits_have_blocks()
    ensures { (k : ℕ) (f : Function) → f.coroutine ≡ true → wrong_call k f ≡ None → wrong_call k (with_exit_blocks f) ≡ None }
{}

/// The switches of its suspends break no rule (K3).
pub fn switches_break_no_rule_where_exits_have_blocks()
    ensures { (k : ℕ) (f : Function) → f.coroutine ≡ true → wrong_switch k f ≡ None → wrong_switch k (with_exit_blocks f) ≡ None }
{}

/// Begin's value is the same one.
pub fn begin_stays_where_exits_have_blocks()
    ensures { (f : Function) → first_result Intrinsic.CoroBegin (with_exit_blocks f) ≡ first_result Intrinsic.CoroBegin f }
{}

/// The suspends are the same, with their tokens and labels.
pub fn suspends_stay_where_exits_have_blocks()
    ensures { (k : ℕ) (f : Function) → f.coroutine ≡ true → wrong_switch k f ≡ None → suspends_of (with_exit_blocks f) ≡ suspends_of f }
{}

/// What asks for begin stands behind it.
pub fn begin_comes_first_where_exits_have_blocks()
    ensures { (m : Module) (k : ℕ) (f : Function) (begin : ℕ) → KeepsFunctionRules m k f → ArePhisEnteredByJumps f → AreBlocksBegun f begin 0 f.blocks → AreBlocksBegun (with_exit_blocks f) begin 0 (with_exit_blocks f).blocks }
{}

/// Each suspend keeps edges of its own.
pub fn suspends_keep_their_edges()
    ensures { (m : Module) (k : ℕ) (f : Function) → KeepsFunctionRules m k f → f.coroutine ≡ true → wrong_switch k f ≡ None → Each (HasOwnEdges f) (suspends_of f)
        → Each (HasOwnEdges (with_exit_blocks f)) (suspends_of (with_exit_blocks f)) }
{}

/// The numbers of its frame fit their types as before.
pub fn numbers_stay_small_where_exits_have_blocks()
    ensures { (k : ℕ) (f : Function) (layout : Layout) → f.coroutine ≡ true → wrong_switch k f ≡ None → IsSmall (shape_of f layout) → IsSmall (shape_of (with_exit_blocks f) layout) }
{}
