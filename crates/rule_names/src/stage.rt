//! For which rules a module is looked at.

ghost use Rattle.std.specs.Prelude.{◌≡◌};
ghost use Rattle.rule_names.specs.Stage.{is_source as is_source_of};

/// For which rules a module is looked at: those of a source with coroutines, or those of a plain module.
#[derive(Clone, Copy, Debug, PartialEq, Eq, Drop)]
pub enum Stage {
    Source,
    Plain,
}

/// Whether the rules are those of a source.
pub fn is_source(stage: Stage) -> bool
    ensures { result ≡ is_source_of stage }
{
    match stage {
        Stage::Source => true,
        Stage::Plain => false,
    }
}
