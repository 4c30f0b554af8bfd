//! Accepted sources keep what the invariants of their runs ask.
//!
//! An accepted source is one that a text stands for and that breaks no rule. `run_hooks` and `run_types` prove their
//! invariants of modules that keep rules on places (K2, K3, K5, K6), on types (N1, Y1, Y2) and on markers (K8, K13).
//! Here these follow from the rules by which modules are refused. So the invariants hold in each state of the run of an
//! accepted source; among them is the second part of "Shared bytes": slots that live at once conflict
//! (`live_slots_of_accepted_sources_are_apart`).
#![tactic(auto)]

ghost use Rattle.std.specs.Prelude.{◌≡◌, ℕ, ℤ, List, None, false, true};
ghost use Rattle.pass_proofs.specs.frame_classes.Classes.{NeedsFrame};
ghost use Rattle.pass_proofs.specs.ir_base.declared.outcome.Word.{Word};
ghost use Rattle.pass_proofs.specs.ir_model.Names.{function_at};
ghost use Rattle.pass_proofs.specs.ir_model.declared.module.Frame.{Frame};
ghost use Rattle.pass_proofs.specs.ir_model.declared.module.Function.{Function};
ghost use Rattle.pass_proofs.specs.ir_model.declared.module.Module.{Module};
ghost use Rattle.pass_proofs.specs.ir_paths.Facts.{facts_of};
ghost use Rattle.pass_proofs.specs.pass_early.Early.{early_module};
ghost use Rattle.pass_proofs.specs.pass_edges.EdgeBlocks.{with_edge_blocks};
ghost use Rattle.pass_proofs.specs.edges.states.MovedState.{KeepsEdges, edges_split};
ghost use Rattle.pass_renewed_meaning.specs.Rules.{KeepsStepRules};
ghost use Rattle.pass_renewed_meaning.specs.pass_renewed_proof.Ledger.{AreSmallGlobals};
ghost use Rattle.pass_proofs.specs.rule_all.Refused.{IsRefused};
ghost use Rattle.pass_proofs.specs.rule_laws.rules.counted.Widths.{first_other_width};
ghost use Rattle.pass_proofs.specs.rule_laws.rules.function_rules.Kept.{AllKeepFunctionRules, KeepsFunctionRules};
ghost use Rattle.pass_proofs.specs.rule_laws.rules.path_rules.Paths.{KeepsPaths};
ghost use Rattle.pass_proofs.specs.rule_laws.rules.path_rules.Shape.{KeepsShape};
ghost use Rattle.pass_proofs.specs.rule_names.declared.stage.Stage.{Stage};
ghost use Rattle.pass_renewed_meaning.specs.run_hooks.Away.{KeepsAllPlaceRules, KeepsPlaceRules};
ghost use Rattle.pass_renewed_meaning.specs.run_hooks.Reached.{AllHaveSwitches};
ghost use Rattle.pass_renewed_meaning.specs.run_hooks.alive.Alive.{KeepsAliveRules, KeepsAllAliveRules};
ghost use Rattle.pass_renewed_meaning.specs.run_hooks.alive.Apart.{LiveAreApart};
ghost use Rattle.pass_proofs.specs.run_source.Source.{given, state_at};
ghost use Rattle.pass_renewed_meaning.specs.run_types.Rules.{KeepsAllTypes, KeepsTypes};
ghost use Rattle.pass_renewed_meaning.specs.run_types.States.{AreArguments, IsFittingState};
ghost use Rattle.pass_proofs.specs.text_grammar.Text.{StandsFor};

/// A function that breaks none of the rules of functions keeps what is asked of types, where all integers are of the
/// widths of the grammar.
pub fn functions_keep_types()
    ensures { (m : Module) (k : ℕ) (f : Function) → KeepsFunctionRules m k f → first_other_width k f ≡ None
        → KeepsTypes m f }
{}

/// A coroutine that breaks none of the rules of functions, of its shape and of paths keeps what is asked of the places
/// of saves, suspends and the end. A function that is no coroutine has none of these.
pub fn functions_keep_place_rules()
    ensures coroutine { (m : Module) (k : ℕ) (f : Function) → f.coroutine ≡ true → KeepsFunctionRules m k f
        → KeepsShape k f → KeepsPaths k f → KeepsPlaceRules m f }
    ensures plain { (m : Module) (k : ℕ) (f : Function) → KeepsFunctionRules m k f → f.coroutine ≡ false
        → KeepsPlaceRules m f }
{}

/// So do both of what is asked of allocas and lifetime markers.
pub fn functions_keep_alive_rules()
    ensures coroutine { (m : Module) (k : ℕ) (f : Function) → KeepsFunctionRules m k f → f.coroutine ≡ true
        → KeepsShape k f → KeepsPaths k f → KeepsAliveRules f (facts_of f).ramp_slots }
    ensures plain { (m : Module) (k : ℕ) (f : Function) → KeepsFunctionRules m k f → f.coroutine ≡ false
        → KeepsAliveRules f (facts_of f).ramp_slots }
{}

/// The functions of an accepted source break none of the rules of functions.
pub fn accepted_sources_keep_function_rules()
    ensures { (text : List ℕ) (m : Module) → StandsFor text m → IsRefused Stage.Source m None
        → AllKeepFunctionRules m }
{}

/// An accepted source keeps all that the invariants of its runs ask of it.
pub fn accepted_sources_keep_rules_of_runs()
    ensures switches { (text : List ℕ) (m : Module) → StandsFor text m → IsRefused Stage.Source m None
        → AllHaveSwitches m }
    ensures places { (text : List ℕ) (m : Module) → StandsFor text m → IsRefused Stage.Source m None
        → (sizes : List Frame) (answers : List ℤ) → KeepsAllPlaceRules (given m sizes answers) }
    ensures types { (text : List ℕ) (m : Module) → StandsFor text m → IsRefused Stage.Source m None
        → KeepsAllTypes m }
    ensures alive { (text : List ℕ) (m : Module) → StandsFor text m → IsRefused Stage.Source m None
        → (sizes : List Frame) (answers : List ℤ) → KeepsAllAliveRules (given m sizes answers) }
{}

/// Behind the first pass, with blocks on edges, it keeps them too.
pub fn accepted_edges_keep_rules_of_runs()
    ensures switches { (text : List ℕ) (m : Module) → StandsFor text m → IsRefused Stage.Source m None
        → AllHaveSwitches (edges_split (early_module m)) }
    ensures places { (text : List ℕ) (m : Module) → StandsFor text m → IsRefused Stage.Source m None
        → (sizes : List Frame) (answers : List ℤ)
        → KeepsAllPlaceRules (given (edges_split (early_module m)) sizes answers) }
    ensures types { (text : List ℕ) (m : Module) → StandsFor text m → IsRefused Stage.Source m None
        → KeepsAllTypes (edges_split (early_module m)) }
    ensures alive { (text : List ℕ) (m : Module) → StandsFor text m → IsRefused Stage.Source m None
        → (sizes : List Frame) (answers : List ℤ)
        → KeepsAllAliveRules (given (edges_split (early_module m)) sizes answers) }
    ensures steps { (text : List ℕ) (m : Module) → StandsFor text m → IsRefused Stage.Source m None → (func : ℕ)
        → KeepsStepRules (edges_split (early_module m)) (function_at (edges_split (early_module m)) func) }
    ensures globals { (text : List ℕ) (m : Module) → StandsFor text m → IsRefused Stage.Source m None
        → AreSmallGlobals (edges_split (early_module m)) }
{}

/// Where edges of a coroutine have blocks no further slot needs the frame.
pub fn frames_stay_where_edges_have_blocks()
    ensures { (f : Function) → KeepsEdges f → (slot : ℕ) → NeedsFrame (with_edge_blocks f) slot → NeedsFrame f slot }
{}

/// In each state of a run of an accepted source two slots of one instance that live at once conflict. So do a live slot
/// and a value that crosses the suspend where the instance is Suspended.
pub fn live_slots_of_accepted_sources_are_apart()
    ensures { (text : List ℕ) (m : Module) → StandsFor text m → IsRefused Stage.Source m None
        → (sizes : List Frame) (entry : ℕ) (args : List Word) (answers : List ℤ) (n : ℕ)
        → LiveAreApart m (state_at (given m sizes answers) entry args n) }
{}

/// In each state of its run each value fits the type of its name.
pub fn values_of_accepted_sources_fit()
    ensures { (text : List ℕ) (m : Module) → StandsFor text m → IsRefused Stage.Source m None
        → (sizes : List Frame) (entry : ℕ) (args : List Word) (answers : List ℤ) (n : ℕ)
        → AreArguments m entry args → IsFittingState m (state_at (given m sizes answers) entry args n) }
{}
