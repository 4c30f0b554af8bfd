//! Blocks on edges break none of the rules of functions, and what the passes that follow go by.
//!
//! No rule of functions is broken where their edges have blocks (`edge_blocks_keep_function_rules`). There the labels
//! of a phi's operands are all different, and jumps alone lead to blocks with phis. Each resume and destroy edge
//! leads to a block of its own. The values that cross suspends stay (`crossing_stays_where_edges_have_blocks`).

ghost use Rattle.std.specs.Prelude.{ℕ, ◌≡◌, true, None, ◌↔◌, List};
ghost use Rattle.pass_edges.specs.EdgeBlocks.{with_edge_blocks};
ghost use Rattle.pass_early_proof.specs.rule_laws.rules.function_rules.Kept.{KeepsFunctionRules, AllKeepFunctionRules};
ghost use Rattle.ir_model.specs.declared.module.Function.{Function};
ghost use Rattle.ir_model.specs.declared.module.Module.{Module};
ghost use Rattle.pass_edges_proof.specs.edges.states.MovedState.{edges_split};
ghost use Rattle.pass_early_proof.specs.rule_laws.rules.woven_rules.Pairs.{AreIncomingOnce};
ghost use Rattle.pass_edges_proof.specs.edges.rules.Phis.{ArePhisEnteredByJumps};
ghost use Rattle.pass_edges_proof.specs.edges.rules.Returns.{HaveOwnBlocks, AreSwitched};
ghost use Rattle.pass_early_proof.specs.rule_shape.Switches.{wrong_switch};
ghost use Rattle.pass_early_proof.specs.rule_laws.frames.rows.Returns.{HaveOwnReturns};
ghost use Rattle.pass_early_proof.specs.frame_crossing.Crossing.{AreCrossing};
ghost use Rattle.pass_edges_proof.specs.edges.paths.Spots.{moved};
ghost use Rattle.pass_early_proof.specs.ir_paths.declared.point.Point.{Point};
ghost use Rattle.pass_early_proof.specs.frame_classes.Alive.{MayBeAlive};

/// A function that breaks none of the rules of functions breaks none of them where its edges have blocks.
pub fn edge_blocks_keep_function_rules()
    ensures { (m : Module) (k : ℕ) (f : Function) → KeepsFunctionRules m k f → KeepsFunctionRules m k (with_edge_blocks f) }
{}

/// So does a module all of whose functions break none, where the edges of its coroutines have blocks.
pub fn modules_keep_function_rules()
    ensures { (m : Module) → AllKeepFunctionRules m → AllKeepFunctionRules (edges_split m) }
{}

/// Where edges have blocks, the labels of each phi's operands are all different.
pub fn phis_have_each_label_once()
    ensures { (m : Module) (k : ℕ) (f : Function) → KeepsFunctionRules m k f → AreIncomingOnce (with_edge_blocks f) }
{}

/// A block with phis is entered by jumps alone, so from blocks with one successor.
pub fn phis_are_entered_by_jumps()
    ensures { (m : Module) (k : ℕ) (f : Function) → KeepsFunctionRules m k f → ArePhisEnteredByJumps (with_edge_blocks f) }
{}

/// Each resume and destroy edge of a suspend leads to a block of its own, without phis, which no other edge enters.
pub fn returns_have_blocks_of_their_own()
    ensures { (m : Module) (k : ℕ) (f : Function) → KeepsFunctionRules m k f → HaveOwnBlocks (with_edge_blocks f) }
{}

/// So do those of the list of suspends by which later passes go, each to another block, where the function is a coroutine with
/// no fault of K3.
pub fn suspends_have_blocks_of_their_own()
    ensures { (m : Module) (k : ℕ) (f : Function) → KeepsFunctionRules m k f → f.coroutine ≡ true → wrong_switch k f ≡ None → HaveOwnReturns (with_edge_blocks f) }
{}

/// Each suspend of such a coroutine is still the last of its block, and behind it stands a switch on its value with exactly the
/// cases 0 and 1.
pub fn suspends_stay_switched()
    ensures { (k : ℕ) (f : Function) → f.coroutine ≡ true → wrong_switch k f ≡ None → AreSwitched (with_edge_blocks f) }
{}

/// The values that cross suspends are those that crossed them.
pub fn crossing_stays_where_edges_have_blocks()
    ensures { (m : Module) (k : ℕ) (f : Function) → KeepsFunctionRules m k f → f.coroutine ≡ true → wrong_switch k f ≡ None → (all : List (ℕ × ℕ)) → AreCrossing f all ↔ AreCrossing (with_edge_blocks f) all }
{}

/// A slot may be alive at a point exactly where it may be at the point to which that is moved.
pub fn slots_stay_alive_where_edges_have_blocks()
    ensures { (m : Module) (k : ℕ) (f : Function) → KeepsFunctionRules m k f → (slot : ℕ) (p : Point) → MayBeAlive f slot p ↔ MayBeAlive (with_edge_blocks f) slot (moved f p) }
{}
