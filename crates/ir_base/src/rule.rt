//! The rules that a module may break.

ghost use Rattle.std.specs.Prelude.{◌≡◌};
ghost use Rattle.ir_base.specs.Words.{rule_word};

/// A rule of the one order of refusals.
#[derive(Clone, Copy, Debug, PartialEq, Eq, Drop)]
pub enum Rule {
    L1,
    N1,
    N2,
    N3,
    Y1,
    Y2,
    Y3,
    Y4,
    Y5,
    F1,
    F2,
    F3,
    P1,
    K1,
    K2,
    K3,
    K4,
    K5,
    K6,
    K7,
    K8,
    K9,
    K10,
    K11,
    K12,
    K13,
}

impl Rule {
    /// The word that the program prints.
    pub fn word(self) -> &'static str
        ensures { result.now ≡ rule_word self }
    {
        match self {
            Rule::L1 => "L1",
            Rule::N1 => "N1",
            Rule::N2 => "N2",
            Rule::N3 => "N3",
            Rule::Y1 => "Y1",
            Rule::Y2 => "Y2",
            Rule::Y3 => "Y3",
            Rule::Y4 => "Y4",
            Rule::Y5 => "Y5",
            Rule::F1 => "F1",
            Rule::F2 => "F2",
            Rule::F3 => "F3",
            Rule::P1 => "P1",
            Rule::K1 => "K1",
            Rule::K2 => "K2",
            Rule::K3 => "K3",
            Rule::K4 => "K4",
            Rule::K5 => "K5",
            Rule::K6 => "K6",
            Rule::K7 => "K7",
            Rule::K8 => "K8",
            Rule::K9 => "K9",
            Rule::K10 => "K10",
            Rule::K11 => "K11",
            Rule::K12 => "K12",
            Rule::K13 => "K13",
        }
    }
}
