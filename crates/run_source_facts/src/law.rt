//! A source machine that was given the facts that are found shows what the source means.

ghost use Rattle.std.specs.Prelude.{◌≡◌, ℕ, ℤ, List};
ghost use Rattle.ir_base.specs.declared.outcome.Word.{Word};
ghost use Rattle.ir_model.specs.declared.module.Frame.{Frame};
ghost use Rattle.ir_model.specs.declared.module.Module.{Module};
ghost use Rattle.ir_paths.specs.declared.point.Facts.{Facts};
ghost use Rattle.run_source.specs.Source.{SeenOf, SourceAt};
ghost use Rattle.flow_facts.specs.HaveFacts.{HaveFacts};

/// Of the facts of paths a run shows no more than which points a window has and which slots are ramp slots.
pub fn facts_suffice()
    ensures { (m : Module) (sizes : List Frame) (answers : List ℤ) (facts : List Facts) (entry : ℕ) (args : List Word) (n : ℕ) → HaveFacts m.functions facts → SeenOf (record { code = m; sizes = sizes; answers = answers; facts = facts }) entry args n ≡ SourceAt m sizes entry args answers n }
{}
