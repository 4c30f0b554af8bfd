//! Lemmas on shape.

ghost use Rattle.std.specs.Prelude.{◌≡◌, ℕ, Bool, true, List, Option, None, Some};
ghost use Rattle.pass_exits_proof.specs.cells.rules.Asked.{AreCellsFor};
ghost use Rattle.pass_exits_proof.specs.cells.rules.Weaving.{cells_weaving};
ghost use Rattle.pass_exits_proof.specs.edges.rules.Phis.{ArePhisEnteredByJumps};
ghost use Rattle.pass_exits_proof.specs.rule_laws.frames.shape.Quiet.{AreReturnsQuiet};
ghost use Rattle.pass_exits_proof.specs.rule_laws.rules.function_rules.Kept.{KeepsFunctionRules};
ghost use Rattle.ir_model.specs.declared.module.Function.{Function};
ghost use Rattle.ir_model.specs.declared.module.Module.{Module};
ghost use Rattle.pass_exits_proof.specs.frame_crossing.Crossing.{AreCrossing};
ghost use Rattle.pass_exits_proof.specs.pass_cells.Cells.{with_cells};
ghost use Rattle.pass_exits_proof.specs.rule_laws.frames.woven_shape.Shaped.{IsShaped, KeepsCalls};
ghost use Rattle.pass_exits_proof.specs.addresses.rules.Addresses.{AddressesFit};
ghost use Rattle.pass_addresses.specs.Placing.{with_frame_addresses};
ghost use Rattle.pass_exits_proof.specs.rule_laws.rules.woven_rules.Pairs.{AreIncomingOnce};
ghost use Rattle.pass_exits_proof.specs.rule_laws.rules.counted.Widths.{first_other_width};
ghost use Rattle.pass_exits_proof.specs.rule_shape.OneOfEach.{wrong_call};
ghost use Rattle.pass_exits_proof.specs.rule_shape.Switches.{wrong_switch};
ghost use Rattle.pass_exits_proof.specs.frame_contents.declared.contents.Contents.{Contents};
ghost use Rattle.pass_edges.specs.EdgeBlocks.{with_edge_blocks};
ghost use Rattle.pass_exits_proof.specs.frame_classes.declared.class.SlotClass.{SlotClass};
ghost use Rattle.pass_frames.specs.Tables.{class_flags};
ghost use Rattle.pass_exits_proof.specs.frame_layout.declared.layout.Layout.{Layout};
ghost use Rattle.pass_exits_proof.specs.rule_laws.frames.shape.Passes.{IsKept};
ghost use Rattle.pass_proofs.specs.frames.shape.Passes.{PassesFit};
ghost use Rattle.ir_model.specs.Calls.{first_result};
ghost use Rattle.ir_model.specs.declared.operand.Intrinsic.{Intrinsic};
ghost use Rattle.pass_frames.specs.Framed.{celled, copied, placed};
ghost use Rattle.pass_exits_proof.specs.rule_windows.Outside.{IsFirstOutside};
ghost use Rattle.pass_exits_proof.specs.rule_windows.Windows.{IsFirstWindow};

/// Values that cross suspends are kept in cells, and that leaves the calls by which a function is a coroutine.
pub fn cells_keep_calls()
    ensures { (m : Module) (k : ℕ) (f : Function) (crossing : List (ℕ × ℕ)) (local : List Bool) (begin : ℕ) → KeepsFunctionRules m k f → AreCellsFor k f crossing local → AreCrossing f crossing → f.coroutine ≡ true → IsShaped k f begin
        → ArePhisEnteredByJumps f → AreReturnsQuiet f → KeepsCalls (cells_weaving m f crossing local) f (with_cells m f crossing local) }
{}

/// Where slots become bytes of the frame, all that splitting asks of the calls stays.
pub fn addressed_coroutines_are_shaped()
    ensures { (m : Module) (k : ℕ) (f : Function) (begin : ℕ) (offsets : List (Option ℕ)) (marked : List Bool) → KeepsFunctionRules m k f → AreIncomingOnce f → AddressesFit k f begin offsets marked → f.coroutine ≡ true → IsShaped k f begin
        → ArePhisEnteredByJumps f → IsShaped k (with_frame_addresses f begin offsets marked) begin }
{}

/// The values that cross suspends and the slots of a class are for cells there, where integer types have the widths that types are written with.
pub fn crossing_values_are_for_cells_where_edges_have_blocks()
    ensures { (m : Module) (k : ℕ) (f : Function) (c : Contents) → KeepsFunctionRules m k f → f.coroutine ≡ true → wrong_call k f ≡ None → wrong_switch k f ≡ None → AreCrossing f c.crossing → first_other_width k f ≡ None
        → AreCellsFor k (with_edge_blocks f) c.crossing (class_flags f c.classes SlotClass.Local) }
{}

/// So a coroutine with its frame built is one that breaks none of the rules of functions, and is what splitting asks.
pub fn framed_coroutines_are_kept()
    ensures { (m : Module) (k : ℕ) (l : Layout) (f : Function) (c : Contents) (before : List ℕ) (begin : ℕ) → KeepsFunctionRules m k f → f.coroutine ≡ true → wrong_call k f ≡ None → wrong_switch k f ≡ None → IsFirstOutside k f None → IsFirstWindow k f None
        → first_result Intrinsic.CoroBegin f ≡ Some begin → AreCrossing f c.crossing → PassesFit m k l f c before → IsKept m k (placed l f c (copied f c (celled m f c) before)) begin }
{}
