//! The passes of an accepted source as calls: what frames keep of it, and what is split keeps of its framed form.

ghost use Rattle.std.specs.Prelude.{◌≡◌, ℕ, IfOk, true};
ghost use Rattle.compiler.specs.Lowering.{lowered_module};
ghost use Rattle.compiler.specs.pass_cleanup.Free.{calls_id_alone};
ghost use Rattle.compiler.specs.pass_early.Early.{early_module};
ghost use Rattle.compiler.specs.pass_frames.Framed.{IsFramedForm};
ghost use Rattle.compiler.specs.pass_split.Parts.{split_module};
ghost use Rattle.compiler_theorem.specs.Calls.{IsBuiltOf, KeepsFrames, KeepsParts, KeepsSignatures, MayBeBuilt};
ghost use Rattle.compiler_theorem.specs.theorem.Entries.{IsEntry, IsEntryCall, Run};
ghost use Rattle.compiler_theorem.specs.theorem.Lowered.{Lowered as TheLowered};

use compiler::framed_module;
use frame_layout::Layouts;
use ir_model::Module;
use pass_split::split;
use std::alloc::{AllocError, Global};

/// Builds the frames of a source ("Coroutines in LLVM", "Coroutine Transformation"). Of an accepted source, with the layouts
/// of its frames, each run agrees with that of the framed form. It takes at most 16 steps for each name of the function that
/// has most, for each operand, and 16. Slots and values stand in frames where they lie by the layouts. What lives or is kept
/// at once conflicts.
///
/// The clause `form` says which module is given. The clause `meaning` follows from it, by the laws on framed forms.
pub fn build_frames(alloc: Global, source: &Module, layouts: &Layouts) -> Result<Module, AllocError>
    ensures form { IfOk result (λ framed. IsFramedForm layouts.now (early_module source.now) framed) }
    ensures meaning { IfOk result (λ framed. (l : TheLowered) → MayBeBuilt l → l.source ≡ source.now
        → l.layouts ≡ layouts.now → l.framed ≡ framed → (r : Run) → IsEntryCall l.source r → KeepsFrames l r) }
{
    framed_module(alloc, source, layouts)
}

/// Splits the coroutines of a framed form ("Coroutines in LLVM", the pass CoroSplit). Of the framed form of an accepted source
/// each run agrees within 4 with that of the parts. Functions that are no coroutines keep their names and types. Of the coro
/// intrinsics the result calls none but `coro.id`.
///
/// The clause `parts` says which module is given. The other clauses follow from it, by the laws on parts.
pub fn split_functions(
    alloc: Global,
    framed: &Module,
    layouts: &Layouts,
) -> Result<Module, AllocError>
    ensures parts { IfOk result (λ m. m ≡ split_module layouts.now framed.now) }
    ensures free { IfOk result (λ m. calls_id_alone m ≡ true) }
    ensures signatures { IfOk result (λ m. KeepsSignatures framed.now m) }
    ensures meaning { IfOk result (λ m. (l : TheLowered) → IsBuiltOf l → l.layouts ≡ layouts.now
        → l.framed ≡ framed.now → (r : Run) (other : ℕ) → IsEntryCall l.source r
        → IsEntry l.source m r.entry other → KeepsParts l r m other) }
{
    split(alloc, framed, layouts)
}
