//! A function that copies slots at begin breaks no rule, where the function breaks none and begin stands behind
//! the slots.
//!
//! That goes by what the pass asks of its tables (`copied_functions_keep_rules`).

ghost use Rattle.std.specs.Prelude.{ℕ, Bool, List};
ghost use Rattle.pass_copies.specs.BeginCopies.{with_begin_copies};
ghost use Rattle.pass_fetch_proof.specs.copies.rules.Copies.{CopiesFit, copied_slots, copy_weaving};
ghost use Rattle.pass_edges_proof.specs.rule_laws.rules.function_rules.Kept.{KeepsFunctionRules};
ghost use Rattle.ir_model.specs.declared.module.Function.{Function};
ghost use Rattle.ir_model.specs.declared.module.Module.{Module};
ghost use Rattle.pass_edges_proof.specs.rule_laws.rules.woven_rules.Blocks.{IsWoven};
ghost use Rattle.pass_edges_proof.specs.rule_laws.rules.woven_rules.Pairs.{AreIncomingOnce};

/// The temporaries, their cells, the copies and the fetches are instructions that are woven in.
pub fn copies_are_woven_in()
    ensures { (m : Module) (k : ℕ) (f : Function) (slots before : List Bool) (sizes : List ℕ) → KeepsFunctionRules m k f → CopiesFit f (copied_slots f slots before sizes) → IsWoven (copy_weaving f before (copied_slots f slots before sizes)) m f (with_begin_copies f slots before sizes) }
{}

/// So the function breaks none of the rules of functions, where its phis name each label once.
pub fn copied_functions_keep_rules()
    ensures { (m : Module) (k : ℕ) (f : Function) (slots before : List Bool) (sizes : List ℕ) → KeepsFunctionRules m k f → AreIncomingOnce f → CopiesFit f (copied_slots f slots before sizes) → KeepsFunctionRules m k (with_begin_copies f slots before sizes) }
{}
