//! Instances begin in blocks of exactly the printed size of their frame, where begin takes what an allocator gave that
//! was called with a size of `coro.size`.
//!
//! A begin needs a block that is large enough. Here it is told by names that it isn't larger, as callees that may be
//! elided allocate. It holds in each state of a run in which a resume hands on some values.
#![tactic(auto)]

ghost use Rattle.std.specs.Prelude.{ℕ, List, Some, slice_get, ◌≡◌};
ghost use Rattle.pass_frames_meaning.specs.pass_frames_proof.ir_base.declared.outcome.Word.{Word};
ghost use Rattle.pass_frames_meaning.specs.pass_frames_proof.pass_kept_proof.Kept.{Keep, continue_keeping};
ghost use Rattle.pass_frames_meaning.specs.pass_frames_proof.run_source.Source.{first_state, step_by};
ghost use Rattle.pass_frames_meaning.specs.pass_frames_proof.run_source.declared.state.Instance.{Instance};
ghost use Rattle.pass_frames_meaning.specs.pass_frames_proof.run_source.declared.state.State.{State};
ghost use Rattle.pass_frames_meaning.specs.pass_frames_proof.run_source_tables.Given.{Given};
ghost use Rattle.pass_frames_meaning.specs.pass_frames_proof.run_step.Runs.{iterate};
ghost use Rattle.pass_frames_meaning.specs.run_hooks.Reached.{AllHaveSwitches, IsReachedState};
ghost use Rattle.pass_frames_meaning.specs.Sized.{sizes_of};
ghost use Rattle.run_exact.specs.Names.{BeginsInSizedBlocks};
ghost use Rattle.run_exact.specs.States.{AreSmall, IsSized, IsSizedState, function_in, size_in};

/// A step keeps it that names of `coro.size` have the size, and names of allocators that take these have blocks of that
/// size. So have the names that begin takes. So it is with what suspended instances keep.
pub fn sized_states_stay()
    ensures { (g : Given) (keep : Keep) → AllHaveSwitches g.code → AreSmall g → (s : State) → IsReachedState g s
        → IsSizedState g s → IsSizedState g (step_by g (continue_keeping g keep) s) }
{}

/// So in each state of a run an instance has begun in a block of exactly the size of its frame, if each begin of its
/// coroutine takes such a name.
pub fn instances_begin_in_blocks_of_their_size()
    ensures states { (g : Given) (keep : Keep) (entry : ℕ) (args : List Word) (n : ℕ) → AllHaveSwitches g.code
        → AreSmall g → IsSizedState g
        (iterate (step_by g (continue_keeping g keep)) n (first_state g.code entry args)) }
    ensures blocks { (g : Given) (keep : Keep) (entry : ℕ) (args : List Word) (n : ℕ) → AllHaveSwitches g.code
        → AreSmall g → (i : ℕ) (x : Instance)
        → slice_get (iterate (step_by g (continue_keeping g keep)) n (first_state g.code entry args)).instances i
        ≡ Some x → BeginsInSizedBlocks (function_in g x.coroutine)
        → IsSized (sizes_of (iterate (step_by g (continue_keeping g keep)) n
        (first_state g.code entry args)).world.memory) (size_in g x.coroutine) x.block }
{}
