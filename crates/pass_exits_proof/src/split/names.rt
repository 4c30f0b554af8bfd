//! Lemmas on names.

ghost use Rattle.std.specs.Prelude.{ℕ, Some, slice_get, ◌≡◌};
ghost use Rattle.pass_split.specs.Parts.{split_module};
ghost use Rattle.pass_fetch_proof.specs.frame_layout.declared.layout.Layouts.{Layouts};
ghost use Rattle.ir_model.specs.declared.module.Function.{Function};
ghost use Rattle.ir_model.specs.declared.module.Module.{Module};
ghost use Rattle.pass_exits_proof.specs.split.names.Sources.{ComesFrom, HasGivenParts};
ghost use Rattle.pass_fetch_proof.specs.rule_names.declared.stage.Stage.{Stage};
ghost use Rattle.pass_fetch_proof.specs.rule_laws.rules.plain_rules.Items.{KeepsItemRules};
ghost use Rattle.pass_fetch_proof.specs.rule_laws.frames.same_names.Parts.{HasPartsOf};
ghost use Rattle.pass_fetch_proof.specs.ir_laws.facts.same_names.Short.{HaveShortNames};

/// Each function of a split module is one of those that a function of the module becomes.
pub fn split_functions_come_from_functions()
    ensures { (ls : Layouts) (m : Module) (k : ℕ) (g : Function) → slice_get (split_module ls m).functions k ≡ Some g → ComesFrom m g }
{}

/// A split module has the functions of the module by their names and types, and the parts of each coroutine, where the names of the module are those of a source that breaks no rule.
pub fn split_modules_have_the_parts()
    ensures { (ls : Layouts) (m : Module) → KeepsItemRules Stage.Source m → HaveShortNames m → HasPartsOf m (split_module ls m) }
{}

/// It has `f.cleanup` and `f.noalloc` too of each coroutine that some call gives its frame.
pub fn split_modules_have_given_parts()
    ensures { (ls : Layouts) (m : Module) → KeepsItemRules Stage.Source m → HaveShortNames m → HasGivenParts m (split_module ls m) }
{}

/// Its items break no rule of plain modules, where those of the module break none of sources.
pub fn split_modules_keep_item_rules()
    ensures { (ls : Layouts) (m : Module) → KeepsItemRules Stage.Source m → HaveShortNames m → KeepsItemRules Stage.Plain (split_module ls m) }
{}
