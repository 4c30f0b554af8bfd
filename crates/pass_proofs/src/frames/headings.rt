//! Lemmas on headings.

ghost use Rattle.pass_exits_proof.specs.frame_layout.declared.layout.Layouts.{Layouts};
ghost use Rattle.ir_model.specs.declared.module.Module.{Module};
ghost use Rattle.pass_frames.specs.Framed.{IsFramedForm};
ghost use Rattle.pass_exits_proof.specs.ir_laws.facts.same_names.Same.{HaveSameNames};
ghost use Rattle.pass_exits_proof.specs.ir_laws.facts.function_rules.Signatures.{HaveSameSignatures};

/// So does the framed form of a module leave these names.
pub fn framed_forms_have_the_same_names()
    ensures { (layouts : Layouts) (m n : Module) → IsFramedForm layouts m n → HaveSameNames m n }
{}

/// And it leaves these types.
pub fn framed_forms_have_the_same_signatures()
    ensures { (layouts : Layouts) (m n : Module) → IsFramedForm layouts m n → HaveSameSignatures m n }
{}
