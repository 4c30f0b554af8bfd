//! A value of a pointer's type is a pointer or poison, in each state of a run by hooks.

ghost use Rattle.std.specs.Prelude.{◌≡◌, ℕ, true, List, ◌∷◌, Option};
ghost use Rattle.pass_frames_proof.specs.ir_base.declared.outcome.Word.{Word};
ghost use Rattle.pass_frames_proof.specs.ir_model.declared.instr.Terminator.{Terminator};
ghost use Rattle.pass_frames_proof.specs.ir_model.declared.operand.Arg.{Arg};
ghost use Rattle.pass_frames_meaning.specs.Coroutines.{HasStorables};
ghost use Rattle.pass_frames_meaning.specs.Pointers.{HasNoPointers, IsPointingState, KeepsPointing};
ghost use Rattle.pass_frames_meaning.specs.Setting.{KeepsAll, Setting};
ghost use Rattle.pass_frames_proof.specs.Related.{is_coroutine};
ghost use Rattle.pass_frames_proof.specs.Returning.{FitsResult, given_value};
ghost use Rattle.pass_frames_proof.specs.pass_renewed_proof.Renewed.{RenewedGiven, renewed_step};
ghost use Rattle.pass_renewed_meaning.specs.run_hooks.Hooks.{Hooks, step_of};
ghost use Rattle.pass_renewed_meaning.specs.run_hooks.Meanings.{renewed_hooks};
ghost use Rattle.pass_renewed_meaning.specs.run_hooks.Reached.{AllHaveSwitches, IsReachedState};
ghost use Rattle.pass_frames_proof.specs.run_source.Source.{first_state};
ghost use Rattle.pass_frames_proof.specs.run_source.State.{function_of};
ghost use Rattle.pass_frames_proof.specs.run_source.declared.state.Activation.{Activation};
ghost use Rattle.pass_frames_proof.specs.run_source.declared.state.State.{State as TheState};
ghost use Rattle.pass_frames_proof.specs.run_step.Runs.{iterate};
ghost use Rattle.pass_frames_proof.specs.run_step.Step.{AtTerm, fetch};
ghost use Rattle.pass_renewed_meaning.specs.run_types.Rules.{KeepsAllTypes};
ghost use Rattle.pass_renewed_meaning.specs.run_types.States.{IsFittingState};

/// Each step keeps it. So it is in each state of a run that makes slots anew, where no parameter of the entry is a
/// pointer.
pub fn values_of_pointers_are_addresses()
    ensures step { (h : Hooks) → KeepsAllTypes h.given.code → KeepsPointing h → (s : TheState)
        → IsReachedState h.given s → IsPointingState h.given.code s → IsPointingState h.given.code (step_of h s) }
    ensures hooks { (g : RenewedGiven) → KeepsAllTypes g.given.code → KeepsPointing (renewed_hooks g) }
    ensures renewed { (g : RenewedGiven) (entry : ℕ) (args : List Word) (n : ℕ) → AllHaveSwitches g.given.code
        → KeepsAllTypes g.given.code → HasNoPointers g.given.code entry
        → IsPointingState g.given.code (iterate (renewed_step g) n (first_state g.given.code entry args)) }
{}

/// So what is kept of such a state is what is loaded again once it is stored.
pub fn kept_names_are_storable()
    ensures kept { (c : Setting) → KeepsAll c → (s : TheState) → IsFittingState c.g.given.code s
        → IsPointingState c.g.given.code s → HasStorables c s }
    ensures given { (c : Setting) → KeepsAll c → (s : TheState) → IsFittingState c.g.given.code s
        → IsPointingState c.g.given.code s → (a : Activation) (more : List Activation) (arg : Option Arg)
        → s.below ≡ a ∷ more → fetch (function_of c.g.given s) s.top.block s.top.at ≡ AtTerm (Terminator.Ret arg)
        → is_coroutine c.b a.func ≡ true
        → FitsResult (c.b.framing a.func) s.top.result (given_value c.g.given.code s.top.values arg) }
{}
