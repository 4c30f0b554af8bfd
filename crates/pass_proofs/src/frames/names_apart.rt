//! Lemmas on names apart.

ghost use Rattle.pass_exits_proof.specs.frame_layout.declared.layout.Layout.{Layout};
ghost use Rattle.ir_model.specs.declared.module.Function.{Function};
ghost use Rattle.ir_model.specs.declared.module.Module.{Module};
ghost use Rattle.pass_exits_proof.specs.rule_laws.rules.names_apart.Words.{AreFew, IsTableOf, early_words, framed_words};
ghost use Rattle.pass_frames.specs.Framed.{IsFramedCoroutine};

/// So do the passes that build its frame.
pub fn framed_names_are_apart()
    ensures { (m : Module) (l : Layout) (f g : Function) → IsFramedCoroutine m l f g → IsTableOf early_words f.names → AreFew g.names → IsTableOf framed_words g.names }
{}
