//! What giving callees their frames leaves of the rules.

ghost use Rattle.std.specs.Prelude.{◌≡◌, ℕ, List, Some, false, slice_get, true};
ghost use Rattle.compiler.specs.cleanup.accepted.Ramps.{with_given_ramps};
ghost use Rattle.compiler.specs.cleanup.accepted.Ready.{IsReady, IsReadyIn};
ghost use Rattle.compiler.specs.whole.elided_forms.Sites.{MayBeGiven};
ghost use Rattle.frame_layout.specs.declared.layout.Layouts.{Layouts};
ghost use Rattle.ir_base.specs.declared.outcome.Place.{Place};
ghost use Rattle.ir_model.specs.declared.module.Function.{Function};
ghost use Rattle.ir_model.specs.declared.module.Module.{Module};
ghost use Rattle.pass_elide.specs.Elided.{elided_function, elided_module, frame_in};
ghost use Rattle.pass_elide.specs.Frames.{site_frame};
ghost use Rattle.pass_proofs.specs.ir_laws.facts.function_rules.Signatures.{HaveSameSignatures};
ghost use Rattle.pass_proofs.specs.ir_laws.facts.same_names.Same.{HaveSameNames};
ghost use Rattle.pass_proofs.specs.ir_laws.facts.same_names.Short.{HaveShortNames};
ghost use Rattle.pass_proofs.specs.rule_laws.rules.function_rules.Kept.{KeepsFunctionRules, KeepsFunctionRulesAt};
ghost use Rattle.pass_proofs.specs.rule_laws.rules.plain_rules.Items.{KeepsItemRules};
ghost use Rattle.pass_proofs.specs.rule_names.declared.stage.Stage.{Stage};

/// The functions have the names, results and parameters that they had, and are coroutines where they were.
pub fn elided_modules_have_the_same_signatures()
    ensures signatures { (layouts : Layouts) (sites : List Place) (m : Module)
        → HaveSameSignatures m (elided_module layouts sites m) }
    ensures names { (layouts : Layouts) (sites : List Place) (m : Module)
        → HaveSameNames m (elided_module layouts sites m) }
{}

/// A function that is no coroutine breaks no rule when its calls at sites give their callees frames, in the module with
/// the ramps that are given them. Each frame is an alloca of at most 2^24 bytes.
pub fn functions_that_give_frames_keep_rules()
    ensures { (layouts : Layouts) (sites : List Place) (m : Module) → KeepsItemRules Stage.Source m → HaveShortNames m
        → MayBeGiven layouts m → (k : ℕ) (f : Function) → slice_get m.functions k ≡ Some f → f.coroutine ≡ false
        → KeepsFunctionRules m k f
        → KeepsFunctionRulesAt Stage.Plain (with_given_ramps (elided_module layouts sites m)) k
        (elided_function (site_frame m layouts.coroutines sites k) f) }
{}

/// If a module is ready for splitting, so is what elision makes of it, by the rules of the module with the ramps that are
/// given frames. Coroutines stay as they are.
pub fn elided_modules_are_ready()
    ensures { (layouts : Layouts) (sites : List Place) (m : Module) → IsReady layouts m → MayBeGiven layouts m
        → ((k : ℕ) (f : Function) → f.coroutine ≡ true
        → elided_function (frame_in m layouts.coroutines sites k f) f ≡ f)
        → IsReadyIn Stage.Plain (with_given_ramps (elided_module layouts sites m)) layouts
        (elided_module layouts sites m) }
{}
