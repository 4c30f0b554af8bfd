//! A resume needs no more than the values that cross its suspend: the first step on the way from the meaning of sources to that of framed modules.
//!
//! A resume may hand on just the values that cross its suspend and the addresses that are made anew: the two runs
//! agree within 1 (`crossing_values_are_enough`). It may hand on any values, if those that the analysis finds to
//! cross are among them, and all that isn't a value that may cross (`values_that_cross_are_enough`). Saves, suspends,
//! windows and names have to be as the rules ask, in paths. No use may be reached without its definition. What is
//! asked holds of accepted sources (`pass_proofs`).
#![tactic(auto)]

ghost use Rattle.std.specs.Prelude.{ℕ, ℤ, List};
ghost use Rattle.run_agreement.specs.Agreements.{AgreesWithin};
ghost use Rattle.run_agreement.specs.Costs.{AgreesBy};
ghost use Rattle.ir_base.specs.declared.outcome.Word.{Word};
ghost use Rattle.run_source.specs.Source.{SourceAt, given};
ghost use Rattle.ir_model.specs.declared.module.Frame.{Frame};
ghost use Rattle.ir_model.specs.declared.module.Module.{Module};
ghost use Rattle.pass_kept_proof.specs.SuspendRules.{AllKeepSuspendRules, KeepsNeeded};
ghost use Rattle.pass_kept_proof.specs.Crossing.{AreDefinite, KeepsCrossing};
ghost use Rattle.pass_kept_proof.specs.Handed.{HandsOn, HavePlainNames};
ghost use Rattle.pass_kept_proof.specs.Kept.{Keep, KeptAt};
ghost use Rattle.pass_kept_proof.specs.Machines.{kept_machine, source_machine};
ghost use Rattle.pass_kept_proof.specs.Related.{HandsOver};

/// The meaning in which a resume hands on only what crosses its suspend, and the addresses that are made anew, agrees with the source meaning, step by step.
pub fn crossing_values_are_enough()
    ensures { (m : Module) (keep : Keep) (sizes : List Frame) (entry : ℕ) (args : List Word) (answers : List ℤ) → AllKeepSuspendRules m → AreDefinite m → KeepsCrossing m keep → AgreesWithin 1 (SourceAt m sizes entry args answers) (KeptAt m keep sizes entry args answers) }
{}

/// So it does where a resume hands on the values that cross its suspend by the sentences of the analysis, and all that isn't a value that may cross.
pub fn values_that_cross_are_enough()
    ensures { (m : Module) (keep : Keep) (sizes : List Frame) (entry : ℕ) (args : List Word) (answers : List ℤ) → AllKeepSuspendRules m → AreDefinite m → HavePlainNames m → HandsOn m keep → AgreesWithin 1 (SourceAt m sizes entry args answers) (KeptAt m keep sizes entry args answers) }
{}

/// At each step both have the same state but for values that are not needed; the instances are suspended at reached
/// suspends.
pub fn needed_values_are_kept()
    ensures { (m : Module) (keep : Keep) (sizes : List Frame) (entry : ℕ) (args : List Word) (answers : List ℤ)
        → AllKeepSuspendRules m → KeepsNeeded m keep
        → AgreesBy (HandsOver (given m sizes answers)) (HandsOver (given m sizes answers))
        (source_machine m sizes entry args answers) (λ s. 1) (kept_machine m keep sizes entry args answers) (λ t. 1) }
{}

/// What crosses its suspend by the sentences of the analysis, and all that isn't a value that may cross, is all that
/// is needed.
pub fn values_that_cross_are_needed()
    ensures { (m : Module) (keep : Keep) → AllKeepSuspendRules m → AreDefinite m → HavePlainNames m → HandsOn m keep
        → KeepsNeeded m keep }
{}
