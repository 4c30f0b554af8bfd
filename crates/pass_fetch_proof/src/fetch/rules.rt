//! A function whose operands are fetched anew breaks no rule, where the function breaks none and the fetches fit.
//!
//! That goes by what the pass asks of its tables (`fetched_functions_keep_rules`).

ghost use Rattle.std.specs.Prelude.{ℕ, List, Option};
ghost use Rattle.pass_fetch_proof.specs.fetch.rules.Fetches.{FetchesFit, fetch_weaving};
ghost use Rattle.pass_edges_proof.specs.rule_laws.rules.function_rules.Kept.{KeepsFunctionRules};
ghost use Rattle.ir_model.specs.declared.module.Function.{Function};
ghost use Rattle.ir_model.specs.declared.module.Module.{Module};
ghost use Rattle.pass_edges_proof.specs.pass_fetch.Blocks.{with_fetches};
ghost use Rattle.pass_edges_proof.specs.pass_fetch.declared.fetch.Fetch.{Fetch};
ghost use Rattle.pass_edges_proof.specs.rule_laws.rules.woven_rules.Blocks.{IsWoven};
ghost use Rattle.pass_edges_proof.specs.rule_laws.rules.woven_rules.Pairs.{AreIncomingOnce};

/// The fetches are instructions that are woven in.
pub fn fetches_are_woven_in()
    ensures { (m : Module) (k : ℕ) (f : Function) (t : List (Option Fetch)) (word : List ℕ) → KeepsFunctionRules m k f → FetchesFit k f t → IsWoven (fetch_weaving f t word) m f (with_fetches f t word) }
{}

/// So the function breaks none of the rules of functions, where its phis name each label once.
pub fn fetched_functions_keep_rules()
    ensures { (m : Module) (k : ℕ) (f : Function) (t : List (Option Fetch)) (word : List ℕ) → KeepsFunctionRules m k f → AreIncomingOnce f → FetchesFit k f t → KeepsFunctionRules m k (with_fetches f t word) }
{}
