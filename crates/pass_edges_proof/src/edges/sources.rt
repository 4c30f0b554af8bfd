//! That blocks on the edges of coroutines keep the meaning of what the first pass makes of a source that breaks
//! no rule.
//!
//! A text has to stand for the source. Each run of it agrees within 4 with the run of what the first pass and the
//! blocks on edges make of it (`accepted_edges_keep_meaning`).

ghost use Rattle.std.specs.Prelude.{◌≡◌, ℕ, true, [], None, Some, slice_get, List, ℤ};
ghost use Rattle.pass_early_proof.specs.rule_shape.Switches.{wrong_switch};
ghost use Rattle.pass_early_proof.specs.ir_laws.paths.threads.Labels.{HasNamedLabels};
ghost use Rattle.pass_early_proof.specs.rule_phis.Edges.{first_wrong_edge};
ghost use Rattle.pass_edges_proof.specs.edges.states.MovedState.{KeepsEdges, AreEdgesKept, edges_split};
ghost use Rattle.pass_early_proof.specs.ir_parts.Locals.{locals_of};
ghost use Rattle.ir_model.specs.declared.module.Function.{Function};
ghost use Rattle.pass_early_proof.specs.rule_names.Definitions.{first_twice};
ghost use Rattle.pass_early_proof.specs.rule_laws.rules.local_rules.Local.{BreaksNoLocalRule};
ghost use Rattle.pass_early_proof.specs.rule_laws.rules.path_rules.Shape.{KeepsShape};
ghost use Rattle.pass_early_proof.specs.rule_laws.rules.source_rules.Named.{AreTabled};
ghost use Rattle.ir_model.specs.declared.module.Module.{Module};
ghost use Rattle.pass_early.specs.Early.{early_module};
ghost use Rattle.pass_early_proof.specs.rule_all.Refused.{IsRefused};
ghost use Rattle.pass_early_proof.specs.text_grammar.Text.{StandsFor};
ghost use Rattle.pass_early_proof.specs.rule_names.declared.stage.Stage.{Stage};
ghost use Rattle.pass_early_proof.specs.ir_laws.facts.sound_states.Named.{AreLocalsNamed};
ghost use Rattle.pass_early_proof.specs.run_agreement.Agreements.{AgreesWithin};
ghost use Rattle.pass_early_proof.specs.ir_base.declared.outcome.Word.{Word};
ghost use Rattle.pass_early_proof.specs.run_source.Source.{SourceAt};
ghost use Rattle.ir_model.specs.declared.module.Frame.{Frame};
ghost use Rattle.pass_early_proof.specs.run_agreement.Costs.{AgreesBy};
ghost use Rattle.pass_early_proof.specs.early.early_states.Beside.{source_machine};
ghost use Rattle.pass_edges_proof.specs.edges.simulation.Beside.{IsEarlySplitOf, IsNearlyEarlySplitOf};

/// A coroutine whose labels are positions of its table of names, and which has no fault of N1 among its locals, of F1 and of
/// K3, keeps what blocks on edges ask of it.
pub fn rules_keep_edges()
    ensures { (func : ℕ) (f : Function) → f.coroutine ≡ true → HasNamedLabels f → first_twice [] (locals_of func f) ≡ None → first_wrong_edge func f ≡ None → wrong_switch func f ≡ None → KeepsEdges f }
{}

/// So do the coroutines of a module that breaks none of the rules that speak of no paths, N1 and N2 among them, nor those on
/// edges and on the calls of coroutines, F1 and K3 among them, where what coroutines define are positions of their tables of
/// names.
pub fn rules_keep_edges_of_modules()
    ensures { (m : Module) → AreTabled m → BreaksNoLocalRule m → ((k : ℕ) (f : Function) → slice_get m.functions k ≡ Some f → KeepsShape k f) → AreEdgesKept m }
{}

/// So do the coroutines that the first pass makes of a source that a text stands for and that breaks no rule.
pub fn accepted_edges_are_kept()
    ensures { (text : List ℕ) (m : Module) → StandsFor text m → IsRefused Stage.Source m None → AreEdgesKept (early_module m) }
{}

/// The locals that the functions of such a source define after the first pass are positions of their tables of names.
pub fn first_pass_names_what_it_defines()
    ensures { (text : List ℕ) (m : Module) → StandsFor text m → IsRefused Stage.Source m None → AreLocalsNamed (early_module m) }
{}

/// Each run of such a source agrees within 4 with the run of what the first pass makes of it where coroutines' edges have
/// blocks.
pub fn accepted_edges_keep_meaning()
    ensures { (text : List ℕ) (m : Module) → StandsFor text m → IsRefused Stage.Source m None → (sizes : List Frame) (entry : ℕ) (args : List Word) (answers : List ℤ) → AgreesWithin 4 (SourceAt m sizes entry args answers) (SourceAt (edges_split (early_module m)) sizes entry args answers) }
{}

/// Its states stand beside those of such a run, where one step of the source pays for four.
pub fn accepted_edges_keep_states()
    ensures { (text : List ℕ) (m : Module) → StandsFor text m → IsRefused Stage.Source m None
        → (sizes : List Frame) (entry : ℕ) (args : List Word) (answers : List ℤ)
        → AgreesBy (IsEarlySplitOf m) (IsNearlyEarlySplitOf m sizes entry args answers)
        (source_machine m sizes entry args answers) (λ s. 4)
        (source_machine (edges_split (early_module m)) sizes entry args answers) (λ t. 1) }
{}
