//! A module whose coroutines may be split is accepted by the rules of modules without coroutines, once it is lowered.
//!
//! That coroutines may be split is `IsReady`. Lowered is the module once it is split and what is left of the coro
//! intrinsics is removed (`split_modules_are_accepted`). Where calls give frames, the rules of functions are judged in the
//! module with the ramps that are given them (`with_given_ramps`).

ghost use Rattle.std.specs.Prelude.{◌≡◌, None, not, true};
ghost use Rattle.std.specs.List.{list_all};
ghost use Rattle.pass_cleanup.specs.Cleanup.{clean_module};
ghost use Rattle.pass_cleanup.specs.Free.{calls_id_alone};
ghost use Rattle.pass_split.specs.Parts.{split_module};
ghost use Rattle.frame_layout.specs.declared.layout.Layouts.{Layouts};
ghost use Rattle.pass_proofs.specs.rule_all.Refused.{IsRefused};
ghost use Rattle.ir_model.specs.declared.module.Module.{Module};
ghost use Rattle.compiler.specs.cleanup.accepted.Ramps.{with_given_ramps};
ghost use Rattle.compiler.specs.cleanup.accepted.Ready.{IsReady, IsReadyIn};
ghost use Rattle.pass_proofs.specs.ir_laws.facts.same_names.Short.{HaveShortNames};
ghost use Rattle.pass_proofs.specs.rule_laws.frames.same_names.Parts.{HasFunctionsOf, HasPartsOf};
ghost use Rattle.pass_proofs.specs.rule_laws.rules.plain_rules.Items.{KeepsItemRules};
ghost use Rattle.pass_proofs.specs.rule_names.declared.stage.Stage.{Stage};

/// A module that is ready is refused for nothing as a plain one, once its coroutines are split and what is left of the coro
/// intrinsics is removed, where no function is a coroutine then and `coro.id` alone of the coro intrinsics is called.
pub fn split_modules_are_accepted()
    ensures { (ls : Layouts) (m : Module) → IsReady ls m → list_all (λ f. not f.coroutine) (split_module ls m).functions ≡ true → calls_id_alone (split_module ls m) ≡ true → IsRefused Stage.Plain (clean_module (split_module ls m)) None }
{}

/// A split module has the functions of the module, and the ramps to which its calls give frames, by their names and types.
pub fn split_modules_have_the_given_ramps()
    ensures { (ls : Layouts) (m : Module) → KeepsItemRules Stage.Source m → HaveShortNames m
        → HasPartsOf (with_given_ramps m) (split_module ls m) }
{}

/// Those ramps are further functions: none is declared in the module, or a global of it.
pub fn given_ramps_are_further_functions()
    ensures { (ls : Layouts) (m : Module) → KeepsItemRules Stage.Source m → HaveShortNames m
        → HasFunctionsOf m (with_given_ramps m) }
{}

/// A module whose calls give frames is accepted so too, where the rules of functions hold in it with those ramps.
pub fn split_modules_with_given_frames_are_accepted()
    ensures { (stage : Stage) (ls : Layouts) (m : Module)
        → IsReadyIn stage (with_given_ramps m) ls m
        → list_all (λ f. not f.coroutine) (split_module ls m).functions ≡ true
        → calls_id_alone (split_module ls m) ≡ true
        → IsRefused Stage.Plain (clean_module (split_module ls m)) None }
{}
