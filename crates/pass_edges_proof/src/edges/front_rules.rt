//! What splitting asks of a coroutine, with the allocas of its entry block in front.

ghost use Rattle.std.specs.Prelude.{ℕ, ◌≡◌, None, true};
ghost use Rattle.pass_early_proof.specs.pass_front.Front.{with_front_allocas};
ghost use Rattle.ir_model.specs.declared.module.Function.{Function};
ghost use Rattle.ir_model.specs.declared.module.Module.{Module};
ghost use Rattle.pass_early_proof.specs.rule_laws.frames.shape.Passes.{IsKept};
ghost use Rattle.pass_early_proof.specs.rule_shape.Switches.{wrong_switch};
ghost use Rattle.pass_early_proof.specs.rule_phis.Edges.{first_wrong_edge};
ghost use Rattle.pass_early_proof.specs.rule_laws.frames.crossing.Crossed.{IsNothingNeeded};
ghost use Rattle.pass_early_proof.specs.rule_laws.frames.needed.Crossed.{AreFramesUnneeded};
ghost use Rattle.pass_edges_proof.specs.edges.rules.Phis.{ArePhisEnteredByJumps};

/// A coroutine stays what splitting asks: its rules, the labels of its phis, and its calls.
pub fn coroutines_with_front_allocas_are_kept()
    ensures { (m : Module) (k : ℕ) (f : Function) (begin : ℕ) → IsKept m k f begin → IsKept m k (with_front_allocas f) begin }
{}

/// Since no edge leads to the entry, nothing more is needed behind suspends.
pub fn nothing_more_is_needed_behind_front_allocas()
    ensures { (k : ℕ) (f : Function) → first_wrong_edge k f ≡ None → f.coroutine ≡ true → wrong_switch k f ≡ None → IsNothingNeeded f → IsNothingNeeded (with_front_allocas f) }
{}

/// Since no edge leads to the entry, no value of `coro.frame` is needed behind suspends.
pub fn no_frame_is_needed_behind_front_allocas()
    ensures { (k : ℕ) (f : Function) → first_wrong_edge k f ≡ None → f.coroutine ≡ true → wrong_switch k f ≡ None → AreFramesUnneeded f → AreFramesUnneeded (with_front_allocas f) }
{}

/// Phis are entered by jumps as before.
pub fn phis_stay_entered_by_jumps_behind_front_allocas()
    ensures { (f : Function) → ArePhisEnteredByJumps f → ArePhisEnteredByJumps (with_front_allocas f) }
{}
