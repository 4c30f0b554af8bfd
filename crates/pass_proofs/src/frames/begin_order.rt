//! Slots that are copied at begin are made before it, and what lies in the frame is used behind it.
//!
//! In a coroutine that breaks no rule slots that are copied are made before begin
//! (`framed_slots_stand_before_begin`). So each pass gives what the next one asks of slots, offsets and flags.

ghost use Rattle.std.specs.Prelude.{ℕ, Bool, List, ◌≤◌, Option, length, ◌≡◌, None};
ghost use Rattle.pass_exits_proof.specs.ir_laws.facts.begin_order.Behind.{AreSizes};
ghost use Rattle.pass_proofs.specs.frames.begin_order.Behind.{before_begin, IsFrameBehind, AreBlocksBehind};
ghost use Rattle.pass_exits_proof.specs.rule_laws.frames.counted.Asked.{IsAwayFromEntry};
ghost use Rattle.pass_exits_proof.specs.copies.rules.Copies.{CopiesFit, copied_slots};
ghost use Rattle.pass_exits_proof.specs.flow_solver.Paths.{IsListed};
ghost use Rattle.pass_exits_proof.specs.rule_laws.rules.function_rules.Kept.{KeepsFunctionRules};
ghost use Rattle.pass_exits_proof.specs.pass_intrinsics.Shapes.{suspends_of};
ghost use Rattle.pass_exits_proof.specs.pass_intrinsics.declared.shape.SuspendPoint.{SuspendPoint};
ghost use Rattle.ir_model.specs.declared.module.Function.{Function};
ghost use Rattle.ir_model.specs.declared.module.Module.{Module};
ghost use Rattle.pass_frames.specs.Framed.{AreBefore, celled, begin_of, copied, offsets_of};
ghost use Rattle.pass_exits_proof.specs.addresses.rules.Addresses.{AddressesFit};
ghost use Rattle.pass_copies.specs.BeginCopies.{with_begin_copies};
ghost use Rattle.pass_exits_proof.specs.rule_laws.rules.woven_rules.Pairs.{AreIncomingOnce};
ghost use Rattle.pass_proofs.specs.frames.begin_order.Fields.{FieldsFit};
ghost use Rattle.pass_exits_proof.specs.cells.rules.Asked.{AreCellsFor};
ghost use Rattle.pass_exits_proof.specs.rule_laws.rules.replaced.Splittable.{AreBlocksBegun};
ghost use Rattle.pass_exits_proof.specs.pass_cells.Cells.{with_cells};
ghost use Rattle.pass_proofs.specs.frames.begin_order.Frames.{IsFrameable};
ghost use Rattle.pass_exits_proof.specs.frame_contents.declared.contents.Contents.{Contents};
ghost use Rattle.pass_exits_proof.specs.frame_layout.declared.layout.Layout.{Layout};
ghost use Rattle.pass_exits_proof.specs.frame_classes.declared.class.SlotClass.{SlotClass};
ghost use Rattle.pass_frames.specs.Tables.{class_flags, sizes_by_name};
ghost use Rattle.pass_exits_proof.specs.ir_laws.paths.threads.Labels.{HasNamedLabels};
ghost use Rattle.pass_exits_proof.specs.edges.paths.Phis.{AreLabelsOnce};
ghost use Rattle.pass_edges.specs.EdgeBlocks.{with_edge_blocks};
ghost use Rattle.pass_exits_proof.specs.rule_laws.rules.counted.Widths.{first_other_width};
ghost use Rattle.pass_exits_proof.specs.frame_contents.Held.{held_of};

/// Where begin stands, each path from the entry has made the slots that are used before it.
pub fn copied_slots_stand_before_begin()
    ensures { (m : Module) (k : ℕ) (f : Function) (slots : List Bool) (before : List ℕ) (sizes : List ℕ) → KeepsFunctionRules m k f → AreBefore f before → AreSizes sizes → ((s : SuspendPoint) → IsListed s (suspends_of f) → IsAwayFromEntry f s) → CopiesFit f (copied_slots f slots (before_begin f before) sizes) }
{}

/// Once accesses to slots before begin go by cells, what lies in the frame is used behind begin.
pub fn copied_frames_lie_behind_begin()
    ensures { (m : Module) (k : ℕ) (f : Function) (begin : ℕ) (slots : List Bool) (before : List ℕ) (sizes : List ℕ) (offsets : List (Option ℕ)) (marked : List Bool) → KeepsFunctionRules m k f → AreIncomingOnce f → AreBefore f before → CopiesFit f (copied_slots f slots (before_begin f before) sizes) → IsFrameBehind f begin slots offsets marked → length offsets ≤ length (with_begin_copies f slots (before_begin f before) sizes).names → AddressesFit k (with_begin_copies f slots (before_begin f before) sizes) begin offsets marked }
{}

/// Where crossing values are kept in cells, slots and fields are used behind begin.
pub fn fields_lie_behind_begin()
    ensures { (m : Module) (k : ℕ) (f : Function) (crossing : List (ℕ × ℕ)) (local : List Bool) (begin : ℕ) (slots : List Bool) (old offsets : List (Option ℕ)) (marked : List Bool) → KeepsFunctionRules m k f → AreIncomingOnce f → AreCellsFor k f crossing local → suspends_of (with_cells m f crossing local) ≡ suspends_of f → AreBlocksBegun f begin 0 f.blocks → FieldsFit f crossing old offsets marked → IsFrameBehind f begin slots old marked → IsFrameBehind (with_cells m f crossing local) begin slots offsets marked }
{}

/// In the framed form of a coroutine the slots that are used before begin are made before it.
pub fn framed_slots_stand_before_begin()
    ensures { (m : Module) (k : ℕ) (l : Layout) (f : Function) (c : Contents) (before : List ℕ) (begin names : ℕ) → IsFrameable m k l f c begin names → AreBefore (celled m f c) before → AreSizes (sizes_by_name f c.held) → CopiesFit (celled m f c) (copied_slots (celled m f c) (class_flags f c.classes SlotClass.Frame) (before_begin (celled m f c) before) (sizes_by_name f c.held)) }
{}

/// And what lies in its frame is used behind begin.
pub fn frames_lie_behind_begin()
    ensures { (m : Module) (k : ℕ) (l : Layout) (f : Function) (c : Contents) (before : List ℕ) (begin : ℕ) → IsFrameable m k l f c begin (length (copied f c (celled m f c) before).names) → AreBefore (celled m f c) before → AreSizes (sizes_by_name f c.held) → AddressesFit k (copied f c (celled m f c) before) (begin_of f) (offsets_of l f c (length (copied f c (celled m f c) before).names)) (class_flags f c.classes SlotClass.Ramp) }
{}

/// Where edges have blocks, what lies in the frame is used behind begin as it was.
pub fn edge_blocks_leave_frames_behind_begin()
    ensures { (f : Function) → HasNamedLabels f → AreLabelsOnce f → (begin : ℕ) (slots : List Bool) (offsets : List (Option ℕ)) → AreBlocksBehind f begin slots offsets → AreBlocksBehind (with_edge_blocks f) begin slots offsets }
{}

/// What a frame holds has sizes of 64 bits, where integer types have the widths that types are written with.
pub fn held_sizes_are_words()
    ensures { (m : Module) (k : ℕ) (f : Function) (c : Contents) → first_other_width k f ≡ None → c.held ≡ held_of m f c.classes c.crossing → AreSizes (sizes_by_name f c.held) }
{}
