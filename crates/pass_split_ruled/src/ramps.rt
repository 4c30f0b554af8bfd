//! The module with the ramps to which calls give frames judges the functions that call them.

ghost use Rattle.compiler.specs.cleanup.accepted.Ramps.{with_given_ramps};
ghost use Rattle.pass_split_given.specs.Premises.{ReleasesWhenDestroyed};
ghost use Rattle.pass_split_given.specs.Whole.{PartsKeepGivenCalls};
ghost use Rattle.pass_split_proof.specs.given_begins.Runs.{NestsNoFrames};
ghost use Rattle.pass_split_proof.specs.given_calls.Ramps.{HasCalledRamps};
ghost use Rattle.pass_split_proof.specs.pass_proofs.frame_layout.declared.layout.Layouts.{Layouts};
ghost use Rattle.pass_split_proof.specs.pass_proofs.ir_laws.facts.same_names.Short.{HaveShortNames};
ghost use Rattle.pass_split_proof.specs.pass_proofs.ir_model.declared.module.Module.{Module};
ghost use Rattle.pass_split_proof.specs.pass_proofs.rule_laws.rules.plain_rules.Items.{KeepsItemRules};
ghost use Rattle.pass_split_proof.specs.pass_proofs.rule_names.declared.stage.Stage.{Stage};
ghost use Rattle.pass_split_proof.specs.pass_proofs.run_framed.Framed.{framed_given};
ghost use Rattle.pass_split_proof.specs.ready.Module.{IsFollowableIn};
ghost use Rattle.pass_split_proof.specs.simulation.Statement.{IsRulerOf, parts_given};
ghost use Rattle.std.specs.Prelude.{ℤ, List};

/// What it knows besides are ramps to which calls give frames.
pub fn given_ramps_rule()
    ensures { (m : Module) → IsRulerOf (with_given_ramps m) m }
{}

/// It has each ramp that is called, with a parameter more than its coroutine.
pub fn called_ramps_stand()
    ensures { (m : Module) → KeepsItemRules Stage.Source m → HaveShortNames m
        → HasCalledRamps (with_given_ramps m) m }
{}

/// So parts keep calls that give frames, where a module's runs may be followed by its rules. No layout has a field for
/// another frame, and a part that a resume calls comes to no release, where calls give frames.
pub fn ramps_keep_given_calls()
    ensures { (stage : Stage) (ls : Layouts) (m : Module) → KeepsItemRules Stage.Source m → HaveShortNames m
        → IsFollowableIn stage (with_given_ramps m) ls m
        → ((answers : List ℤ) → NestsNoFrames (framed_given m ls.coroutines answers))
        → ((answers : List ℤ) → ReleasesWhenDestroyed (framed_given m ls.coroutines answers)
        (parts_given ls m answers)) → PartsKeepGivenCalls ls m }
{}
