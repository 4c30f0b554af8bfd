//! Blocks on edges: what they leave as it is of a coroutine's paths, windows and slots.
//!
//! Points, paths, windows and ramp slots stay, moved, where the edges of coroutines have blocks.

ghost use Rattle.std.specs.Prelude.{◌≡◌, ◌<◌, ℕ, length, Bool, map, IsTrue, filter, [], ◌↔◌, false, Some, slice_get, unwrap_or, List, filter_map};
ghost use Rattle.pass_edges_proof.specs.edges.paths.Spots.{moved, table_of};
ghost use Rattle.pass_edges.specs.EdgeBlocks.{with_edge_blocks, incoming_on};
ghost use Rattle.ir_model.specs.declared.module.Function.{Function};
ghost use Rattle.pass_early_proof.specs.ir_paths.Paths.{entry_point, has_point, nexts};
ghost use Rattle.pass_early_proof.specs.ir_laws.paths.threads.Labels.{HasNamedLabels};
ghost use Rattle.pass_early_proof.specs.ir_laws.paths.threads.Threads.{AreThreads, IsBetween};
ghost use Rattle.ir_model.specs.declared.instr.Instr.{Instr};
ghost use Rattle.pass_early_proof.specs.ir_paths.Windows.{points_where, windows_of, leaves};
ghost use Rattle.pass_early_proof.specs.ir_laws.facts.threads.Moved.{ArePaired};
ghost use Rattle.pass_early_proof.specs.ir_laws.paths.threads.Moved.{IsMoved, GoesTo};
ghost use Rattle.pass_early_proof.specs.ir_paths.declared.point.Point.{Point};
ghost use Rattle.pass_early_proof.specs.run_step.Step.{has_markers, incoming_from};
ghost use Rattle.pass_early_proof.specs.ir_paths.Slots.{IsBehindSuspend, promise_of, has_name};
ghost use Rattle.pass_edges_proof.specs.edges.paths.Phis.{AreLabelsOnce, ArePhisForEdges};
ghost use Rattle.pass_edges.specs.Edges.{has_phis, phi_flags, edges_at};
ghost use Rattle.ir_model.specs.declared.module.Block.{Block};
ghost use Rattle.pass_early_proof.specs.ir_paths.Facts.{facts_of};
ghost use Rattle.pass_edges_proof.specs.edges.paths.Labels.{IsAmong};
ghost use Rattle.pass_edges.specs.declared.edge.Edge.{Edge};
ghost use Rattle.ir_model.specs.declared.instr.Incoming.{Incoming};

/// A label of the function is where its block is then.
#[tactic(auto, using(crate::proofs::edges::paths::Blocks::entry_moved))]
pub fn labels_are_moved()
    ensures { (f : Function) (label : ℕ) → label < length f.names → entry_point (with_edge_blocks f) label ≡ moved f (entry_point f label) }
{}

/// A path from one point to another is a path between where they are then.
#[tactic(auto, using(crate::proofs::edges::paths::Edges::threads))]
pub fn edges_lead_over_their_blocks()
    ensures { (f : Function) → HasNamedLabels f → AreThreads f (with_edge_blocks f) (moved f) }
{}

/// The instructions that pass a test are where they were, in their order.
#[tactic(auto, using(crate::proofs::edges::paths::Points::points_moved))]
pub fn points_are_moved()
    ensures { (test : Instr → Bool) (f : Function) → points_where test (with_edge_blocks f) ≡ map (moved f) (points_where test f) }
{}

/// The windows are moved, in their order.
#[tactic(auto, using(crate::proofs::edges::paths::Windows::windows_moved))]
pub fn windows_are_moved()
    ensures { (f : Function) → HasNamedLabels f → ArePaired (IsMoved (with_edge_blocks f) (moved f)) (windows_of f) (windows_of (with_edge_blocks f)) }
{}

/// A branch leaves the windows that it left, also where it goes to an edge's block.
pub fn left_windows_are_moved()
    ensures { (f : Function) → HasNamedLabels f → (p q y : Point) → IsTrue (has_point (nexts (with_edge_blocks f) (moved f p)) y) → GoesTo (with_edge_blocks f) (moved f) q y → ArePaired (IsMoved (with_edge_blocks f) (moved f)) (filter (leaves p q) (windows_of f)) (filter (leaves (moved f p) y) (windows_of (with_edge_blocks f))) }
{}

/// The jump of an edge's block leaves no window.
pub fn edge_blocks_leave_no_window()
    ensures { (f : Function) → HasNamedLabels f → (q y : Point) → IsBetween (with_edge_blocks f) (moved f) (moved f q) y → filter (leaves y (moved f q)) (windows_of (with_edge_blocks f)) ≡ [] }
{}

/// Markers of slots stay.
#[tactic(auto, using(crate::proofs::edges::paths::Whole::markers_split))]
pub fn markers_stay()
    ensures { (f : Function) (name : ℕ) → has_markers (with_edge_blocks f) name ≡ has_markers f name }
{}

/// What stands behind a suspend does so where it is then.
#[tactic(auto, using(crate::proofs::edges::paths::Behind::behind_both))]
pub fn points_stay_behind_suspends()
    ensures { (f : Function) → HasNamedLabels f → (p : Point) → IsBehindSuspend f p ↔ IsBehindSuspend (with_edge_blocks f) (moved f p) }
{}

/// A label's block has phis exactly where the table of flags has the label.
pub fn labels_with_phis_are_flagged()
    ensures { (f : Function) → AreLabelsOnce f → HasNamedLabels f → (k : ℕ) (b : Block) → slice_get f.blocks k ≡ Some b → unwrap_or (slice_get (phi_flags f) b.label) false ≡ has_phis b.phis }
{}

/// The promise stays.
#[tactic(auto, using(crate::proofs::edges::paths::Slots::same_promise))]
pub fn promise_stays()
    ensures { (f : Function) → promise_of (with_edge_blocks f) ≡ promise_of f }
{}

/// The ramp slots stay, where the phis' operands are for edges, the first one for an edge being the same as any other.
pub fn ramp_slots_stay()
    ensures { (f : Function) → HasNamedLabels f → AreLabelsOnce f → ArePhisForEdges f → (a : ℕ) → has_name (facts_of (with_edge_blocks f)).ramp_slots a ≡ has_name (facts_of f).ramp_slots a }
{}

/// A phi takes from an edge's block what it took from the block from which the edge comes.
pub fn phis_take_the_same()
    ensures { (f : Function) (label : ℕ) → label < length f.names → (incoming : List Incoming) (e : Edge) → IsAmong (edges_at (table_of f) label) e → incoming_from (filter_map (incoming_on incoming) (edges_at (table_of f) label)) e.label ≡ incoming_from incoming e.from }
{}
