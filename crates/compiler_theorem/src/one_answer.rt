//! A source has one answer: one list of layouts, one acceptance or refusal, one framed form, and one lowering.
//!
//! The rules on paths aren't computed by their definitions, so all these are relations. Each law says that its relation
//! lets at most one answer through.

ghost use Rattle.std.specs.Prelude.{◌≡◌, ◌≢◌, ℕ, Bool, Err, List, Option, Result};
ghost use Rattle.compiler.specs.Lowering.{IsLowering};
ghost use Rattle.compiler.specs.declared.lowered.Lowering.{Lowering};
ghost use Rattle.compiler.specs.frame_acceptance.Acceptance.{IsAcceptance, IsRefusedFor};
ghost use Rattle.compiler.specs.frame_acceptance.declared.accepting.Acceptance.{Acceptance};
ghost use Rattle.compiler.specs.frame_contents.Frames.{AreLayouts};
ghost use Rattle.compiler.specs.frame_contents.declared.module_frames.LayoutsError.{LayoutsError};
ghost use Rattle.compiler.specs.frame_layout.declared.layout.Layouts.{Layouts};
ghost use Rattle.compiler.specs.ir_base.declared.status.Options.{Options};
ghost use Rattle.compiler.specs.ir_model.declared.module.Module.{Module};
ghost use Rattle.compiler.specs.pass_frames.Framed.{IsFramedForm};
ghost use Rattle.compiler.specs.rule_laws.rule_modules.declared.order.Refusal.{Refusal};

/// The layouts of a module's frames are one list, or the same coroutine is the first whose frame is too large. Want of
/// memory may be told of any module.
pub fn layouts_are_one()
    ensures { (m : Module) (share : Bool) (r s : Result Layouts LayoutsError) → r ≢ Err LayoutsError.OutOfMemory
        → s ≢ Err LayoutsError.OutOfMemory → AreLayouts m share r → AreLayouts m share s → r ≡ s }
{}

/// A source is accepted with one list of layouts, or refused for one rule at one place, K12 among the rules.
pub fn acceptances_are_one()
    ensures { (m : Module) (share : Bool) (a b : Acceptance) → IsAcceptance m share a → IsAcceptance m share b → a ≡ b }
{}

/// What is told of a source without its layouts is one: the rule and place for which it is refused, or that it isn't.
pub fn refusals_are_one()
    ensures { (m : Module) (r s : Option Refusal) → IsRefusedFor m r → IsRefusedFor m s → r ≡ s }
{}

/// By its layouts a module has one framed form.
pub fn framed_forms_are_one()
    ensures { (layouts : Layouts) (m n o : Module) → IsFramedForm layouts m n → IsFramedForm layouts m o → n ≡ o }
{}

/// A text is lowered to one thing: to one module and text, to one refusal, or to one count of items that were read.
pub fn lowerings_are_one()
    ensures { (options : Options) (text : List ℕ) (l k : Lowering) → IsLowering options text l
        → IsLowering options text k → l ≡ k }
{}
