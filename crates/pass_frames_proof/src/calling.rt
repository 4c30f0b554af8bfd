//! Calls of functions, from state to state: operands are fetched in front, and then both runs enter the same function.

ghost use Rattle.std.specs.Prelude.{◌≡◌, ℕ, Bool, List, Option, false};
ghost use Rattle.pass_frames_steps.specs.ir_model.declared.instr.Instr.{Instr};
ghost use Rattle.pass_frames_steps.specs.Calling.{HasBlocks, IsAtCall, IsAtPlainCall};
ghost use Rattle.pass_frames_steps.specs.Followed.{IsFollowed};
ghost use Rattle.pass_frames_steps.specs.Related.{AreBuiltOf, Building, is_coroutine};
ghost use Rattle.pass_frames_steps.specs.Stepping.{AreGiven};
ghost use Rattle.pass_frames_steps.specs.pass_renewed_proof.Renewed.{RenewedGiven};
ghost use Rattle.pass_frames_steps.specs.run_memory.declared.pointer.Value.{Value};
ghost use Rattle.pass_frames_steps.specs.run_source.declared.state.State.{State};

/// A call of a function that is no coroutine is followed, by its name or through a pointer: from a coroutine, and from
/// a function that is none. The activation below then stands right behind its call.
pub fn calls_of_functions_are_followed()
    ensures coroutines { (b : Building) (g : RenewedGiven) → AreGiven b g → (s t : State) → AreBuiltOf b s t → (i : Instr)
        (func : ℕ) (args : List Value) (result : Option ℕ) (must_tail : Bool)
        → IsAtCall b g s i func args result must_tail → is_coroutine b func ≡ false → HasBlocks t → IsFollowed b g s t }
    ensures others { (b : Building) (g : RenewedGiven) → AreGiven b g → (s t : State) → AreBuiltOf b s t → (i : Instr)
        (func : ℕ) (args : List Value) (result : Option ℕ) (must_tail : Bool)
        → IsAtPlainCall b g s i func args result must_tail → is_coroutine b func ≡ false → HasBlocks t
        → IsFollowed b g s t }
{}
