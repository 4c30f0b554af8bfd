//! The fields of the frames of accepted sources are fit, so the layouts of these frames are good.

ghost use Rattle.std.specs.Prelude.{◌≡◌, ℕ, Bool, List, [], None, Ok, Some, slice_get};
ghost use Rattle.pass_proofs.specs.frame_contents.Frames.{AreLayouts};
ghost use Rattle.frame_good.specs.Frames.{AreGood, HasFitFields};
ghost use Rattle.frame_layout.specs.declared.layout.Layouts.{Layouts};
ghost use Rattle.pass_proofs.specs.rule_laws.rules.counted.Widths.{first_other_width};
ghost use Rattle.ir_model.specs.declared.module.Function.{Function};
ghost use Rattle.ir_model.specs.declared.module.Module.{Module};
ghost use Rattle.pass_proofs.specs.ir_parts.Locals.{locals_of};
ghost use Rattle.pass_proofs.specs.rule_all.Refused.{IsRefused};
ghost use Rattle.pass_proofs.specs.rule_locals.Extents.{first_past_extent};
ghost use Rattle.pass_proofs.specs.rule_names.Definitions.{first_twice};
ghost use Rattle.pass_proofs.specs.rule_names.declared.stage.Stage.{Stage};
ghost use Rattle.pass_proofs.specs.text_grammar.Text.{StandsFor};

/// The frame's fields are fit where integers have widths of types, and Y4 and N1 of locals aren't broken.
pub fn functions_have_fit_fields()
    ensures { (m : Module) (k : ℕ) (f : Function) → first_other_width k f ≡ None
        → first_past_extent Stage.Source m k f ≡ None → first_twice [] (locals_of k f) ≡ None → HasFitFields m f }
{}

/// So it is in a source that breaks no rule.
pub fn accepted_sources_have_fit_fields()
    ensures { (text : List ℕ) (m : Module) → StandsFor text m → IsRefused Stage.Source m None → (k : ℕ) (f : Function)
        → slice_get m.functions k ≡ Some f → HasFitFields m f }
{}

/// So the layouts of its coroutines are good, those in which bytes are shared and the plain ones.
pub fn layouts_of_accepted_sources_are_good()
    ensures { (text : List ℕ) (m : Module) (share : Bool) (layouts : Layouts) → StandsFor text m
        → IsRefused Stage.Source m None → AreLayouts m share (Ok layouts)
        → AreGood m 0 m.functions layouts.coroutines }
{}
