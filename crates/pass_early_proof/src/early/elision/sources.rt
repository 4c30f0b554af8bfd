//! Lemmas on sources.

ghost use Rattle.std.specs.Prelude.{◌≡◌, ◌↔◌, ℕ, ℤ, Bool, IfOk, List, None, Result};
ghost use Rattle.rule_laws.specs.run_agreement.Agreements.{AgreesWithin};
ghost use Rattle.rule_laws.specs.ir_base.declared.outcome.Word.{Word};
ghost use Rattle.rule_laws.specs.run_source.Source.{SourceAt};
ghost use Rattle.rule_laws.specs.frame_contents.Frames.{AreLayouts};
ghost use Rattle.rule_laws.specs.frame_contents.declared.module_frames.LayoutsError.{LayoutsError};
ghost use Rattle.pass_early.specs.Early.{early_module};
ghost use Rattle.rule_laws.specs.frame_layout.declared.layout.Layouts.{Layouts};
ghost use Rattle.rule_laws.specs.rules.sources.Rules.{BreaksNoOtherRule};
ghost use Rattle.pass_early_proof.specs.early.elision.sources.Same.{HaveSameClasses, HaveSameCrossing, HaveSameElision};
ghost use Rattle.rule_laws.specs.rule_all.Refused.{IsRefused};
ghost use Rattle.rule_laws.specs.text_grammar.Text.{StandsFor};
ghost use Rattle.ir_model.specs.declared.module.Frame.{Frame};
ghost use Rattle.rule_laws.specs.rule_names.declared.stage.Stage.{Stage};
ghost use Rattle.ir_model.specs.declared.module.Module.{Module as TheModule};

use ir_model::Module;
use pass_early::early;
use std::alloc::{AllocError, Global};

/// What the first pass makes of a module ("Coroutines in LLVM", the pass CoroEarly): the saves of its suspends written out, the
/// uses of `coro.frame` turned into uses of begin's value, and a name for that. Each run of a source that a text stands for and
/// that breaks no rule agrees within 2 with the run of the result, for all sizes of frames. The layouts of its frames, the values
/// that cross suspends, the classes of slots, the elidable callees and their sites are those of the result, which breaks no rule
/// but perhaps L1 and N3.
///
/// Fails only for want of memory.
pub fn early_kept(alloc: Global, source: &Module) -> Result<Module, AllocError>
    ensures made { IfOk result (λ x. x ≡ early_module source.now) }
    ensures agrees { IfOk result (λ x. (text : List ℕ) → StandsFor text source.now → IsRefused Stage.Source source.now None → (sizes : List Frame) (entry : ℕ) (args : List Word) (answers : List ℤ) → AgreesWithin 2 (SourceAt source.now sizes entry args answers) (SourceAt x sizes entry args answers)) }
    ensures layouts { IfOk result (λ x. (text : List ℕ) → StandsFor text source.now → IsRefused Stage.Source source.now None → (share : Bool) (laid : Result Layouts LayoutsError) → AreLayouts source.now share laid ↔ AreLayouts x share laid) }
    ensures rules { IfOk result (λ x. (text : List ℕ) → StandsFor text source.now → IsRefused Stage.Source source.now None → BreaksNoOtherRule x) }
    ensures crossing { IfOk result (λ x. (text : List ℕ) → StandsFor text source.now → IsRefused Stage.Source source.now None → HaveSameCrossing source.now x) }
    ensures classes { IfOk result (λ x. (text : List ℕ) → StandsFor text source.now → IsRefused Stage.Source source.now None → HaveSameClasses source.now x) }
    ensures elidable { IfOk result (λ x. (text : List ℕ) → StandsFor text source.now → IsRefused Stage.Source source.now None → HaveSameElision source.now x) }
{
    early(alloc, source)
}

/// What the first pass makes of such a source breaks no rule but perhaps L1 and N3.
pub fn accepted_sources_break_no_other_rule()
    ensures { (text : List ℕ) (m : TheModule) → StandsFor text m → IsRefused Stage.Source m None → BreaksNoOtherRule (early_module m) }
{}
