//! Sizes, and answers of coro.alloc.

ghost use Rattle.elide_shape.specs.Calls.{deals};
ghost use Rattle.elide_shape.specs.declared.calls.Dealing.{Dealing};
ghost use Rattle.pass_elide_proof.specs.Elision.{Elision, framed, function_in};
ghost use Rattle.pass_elide_proof.specs.Match.{frame_size};
ghost use Rattle.pass_elide_proof.specs.Places.{instrs_of};
ghost use Rattle.pass_elide_proof.specs.PlacingStates.{BeginsInCoroutines};
ghost use Rattle.pass_elide_runs.specs.Names.{AsksAlloc, AsksSize, IsGivenBy};
ghost use Rattle.pass_elide_proof.specs.pass_proofs.ir_base.declared.outcome.Word.{Word};
ghost use Rattle.pass_elide_proof.specs.pass_proofs.ir_model.Names.{function_at};
ghost use Rattle.pass_elide_proof.specs.pass_proofs.ir_model.Ty.{Ty};
ghost use Rattle.pass_elide_proof.specs.pass_proofs.ir_model.declared.instr.Instr.{Instr};
ghost use Rattle.pass_elide_proof.specs.pass_proofs.ir_model.declared.operand.Allocator.{Allocator};
ghost use Rattle.pass_elide_proof.specs.pass_proofs.ir_model.declared.operand.Arg.{Arg};
ghost use Rattle.pass_elide_proof.specs.pass_proofs.ir_model.declared.operand.Callee.{Callee};
ghost use Rattle.pass_elide_proof.specs.pass_proofs.run_agreement.Machines.{IsFine};
ghost use Rattle.pass_elide_proof.specs.pass_proofs.run_framed.Framed.{FramedGiven, allocates, framed_state_at};
ghost use Rattle.pass_elide_proof.specs.pass_proofs.run_memory.declared.pointer.Value.{Value};
ghost use Rattle.pass_elide_proof.specs.pass_proofs.run_step.Values.{arg_values, nth, truth_value, value_in};
ghost use Rattle.run_hooks.specs.Reached.{AllHaveSwitches};
ghost use Rattle.run_slots.specs.Slots.{GivesNoFrames};
ghost use Rattle.run_types.specs.Rules.{KeepsAllTypes};
ghost use Rattle.run_types.specs.States.{AreArguments};
ghost use Rattle.std.specs.Prelude.{Bool, List, Option, Some, slice_get, true, ◌<◌, ◌^◌, ◌≡◌, ◌⊎◌, ℕ};

/// A word that an allocator takes is below 2^64, by the types of values.
pub fn words_of_allocators_are_small()
    ensures { (g : FramedGiven) (entry : ℕ) (args : List Word) (n : ℕ) → AllHaveSwitches g.given.code
        → KeepsAllTypes g.given.code → GivesNoFrames g.given.code → AreArguments g.given.code entry args
        → (a : Allocator) (result : Option ℕ) (must_tail : Bool) (ty : Option Ty) (operands : List Arg) (word : Word)
        → deals Dealing.Allocates a ≡ true
        → slice_get (instrs_of (function_at g.given.code (framed_state_at g entry args n).top.func)
        (framed_state_at g entry args n).top.block) (framed_state_at g entry args n).top.at
        ≡ Some (Instr.Call result must_tail ty (Callee.Allocator a) operands)
        → nth (arg_values g.given.code (framed_state_at g entry args n).top.values operands) 0 ≡ Value.Int word
        → word.bits < 2 ^ 64 }
{}

/// A name that coro.size alone gives has the frame's size, where it has a word.
pub fn names_of_sizes_have_sizes()
    ensures { (e : Elision) (entry : ℕ) (args : List Word) (n : ℕ) → BeginsInCoroutines e.code
        → ((func : ℕ) → frame_size e func < 2 ^ 32) → IsFine (framed_state_at (framed e) entry args n).outcome
        → (v : ℕ) → IsGivenBy AsksSize (function_in e (framed_state_at (framed e) entry args n).top.func) v
        → (word : Word) → value_in (framed_state_at (framed e) entry args n).top.values v ≡ Value.Int word
        → word.bits ≡ frame_size e (framed_state_at (framed e) entry args n).top.func }
{}

/// A name that coro.alloc alone gives tells whether the activation was given no frame, where it has a word.
pub fn names_of_answers_tell_modes()
    ensures { (g : FramedGiven) (entry : ℕ) (args : List Word) (n : ℕ) → BeginsInCoroutines g.given.code
        → IsFine (framed_state_at g entry args n).outcome → (v : ℕ)
        → IsGivenBy AsksAlloc (function_at g.given.code (framed_state_at g entry args n).top.func) v
        → (value_in (framed_state_at g entry args n).top.values v ≡ Value.Poison)
        ⊎ (value_in (framed_state_at g entry args n).top.values v
        ≡ truth_value (allocates (framed_state_at g entry args n).top.mode)) }
{}
