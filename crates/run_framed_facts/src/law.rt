//! A machine of a framed module that was given the facts that are found shows what the module means.

ghost use Rattle.std.specs.Prelude.{◌≡◌, ℕ, ℤ, List};
ghost use Rattle.ir_base.specs.declared.outcome.Word.{Word};
ghost use Rattle.frame_layout.specs.declared.layout.Layouts.{Layouts};
ghost use Rattle.run_framed_facts.specs.FramedFacts.{HaveFramedFacts, given_with};
ghost use Rattle.run_framed.specs.Framed.{FramedAt};
ghost use Rattle.run_framed.specs.Machines.{FramedSeenOf};
ghost use Rattle.ir_model.specs.declared.module.Module.{Module};
ghost use Rattle.ir_paths.specs.declared.point.Facts.{Facts};

/// Of the facts of paths a framed run shows no more than which points a window has.
pub fn framed_facts_suffice()
    ensures { (m : Module) (layouts : Layouts) (answers : List ℤ) (facts : List Facts) (entry : ℕ) (args : List Word) (n : ℕ) → HaveFramedFacts m.functions facts → FramedSeenOf (given_with m layouts.coroutines answers facts) entry args n ≡ FramedAt m layouts entry args answers n }
{}
