//! Frame lines before the text of a module.

ghost use Rattle.std.specs.Prelude.{ℕ, List, ◌++◌};
ghost use Rattle.text_frame_lines.specs.Frames.{AreFrames, frames_text};
ghost use Rattle.text_frame_lines.specs.declared.frames.FrameLine.{FrameLine};
ghost use Rattle.text_grammar.specs.Text.{StandsFor};
ghost use Rattle.ir_model.specs.declared.module.Module.{Module};

/// A text that stands for a module stands for it behind frame lines too.
#[tactic(auto, using(crate::proofs::Behind::stands_behind))]
pub fn frames_before_a_module()
    ensures { (frames : List FrameLine) (text : List ℕ) (m : Module) → AreFrames frames → StandsFor text m → StandsFor (frames_text frames ++ text) m }
{}
