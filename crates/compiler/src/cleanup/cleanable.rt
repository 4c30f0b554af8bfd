//! What splitting gives of a source that breaks no rule is what the last pass asks for.
//!
//! That is `IsCleanable` (`split_modules_are_cleanable`). An operand that names anything outside its function names a
//! global or a defined function. Nothing that is called by its name is a coro intrinsic. So it is of each source that
//! a text stands for and that breaks no rule (`accepted_sources_are_cleanable`).

ghost use Rattle.pass_cleanup.specs.Cleanable.{IsCleanable};
ghost use Rattle.pass_split.specs.Parts.{split_module};
ghost use Rattle.frame_layout.specs.declared.layout.Layouts.{Layouts};
ghost use Rattle.ir_model.specs.declared.module.Module.{Module};
ghost use Rattle.compiler.specs.cleanup.accepted.Ramps.{with_given_ramps};
ghost use Rattle.compiler.specs.cleanup.accepted.Ready.{IsReady, IsReadyIn};
ghost use Rattle.pass_proofs.specs.rule_names.declared.stage.Stage.{Stage};

/// In a module that is ready, once its coroutines are split, an operand that names anything outside its function names a global or a
/// defined function, and nothing that is called by its name is a coro intrinsic: of functions, the parts alone have their addresses used.
pub fn split_modules_are_cleanable()
    ensures { (ls : Layouts) (m : Module) → IsReady ls m → IsCleanable (split_module ls m) }
{}

/// So it is of a module whose calls give frames, where the rules of functions hold in it with the ramps that are given them.
pub fn split_modules_with_given_frames_are_cleanable()
    ensures { (stage : Stage) (ls : Layouts) (m : Module)
        → IsReadyIn stage (with_given_ramps m) ls m → IsCleanable (split_module ls m) }
{}
