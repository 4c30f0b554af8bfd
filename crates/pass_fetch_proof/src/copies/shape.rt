//! Lemmas on shape.

ghost use Rattle.std.specs.Prelude.{◌≡◌, ℕ, Bool, true, List};
ghost use Rattle.pass_fetch_proof.specs.copies.rules.Copies.{copied_slots, copy_weaving};
ghost use Rattle.pass_copies.specs.BeginCopies.{with_begin_copies};
ghost use Rattle.pass_edges_proof.specs.rule_laws.frames.shape.Quiet.{AreReturnsQuiet};
ghost use Rattle.pass_edges_proof.specs.rule_laws.rules.function_rules.Kept.{KeepsFunctionRules};
ghost use Rattle.ir_model.specs.declared.module.Function.{Function};
ghost use Rattle.ir_model.specs.declared.module.Module.{Module};
ghost use Rattle.pass_edges_proof.specs.rule_laws.frames.woven_shape.Shaped.{IsShaped, KeepsCalls};

/// So do the copies at begin.
pub fn copies_keep_calls()
    ensures { (m : Module) (k : ℕ) (f : Function) (slots before : List Bool) (sizes : List ℕ) (begin : ℕ) → KeepsFunctionRules m k f → f.coroutine ≡ true → IsShaped k f begin
        → AreReturnsQuiet f → KeepsCalls (copy_weaving f before (copied_slots f slots before sizes)) f (with_begin_copies f slots before sizes) }
{}
