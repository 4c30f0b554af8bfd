//! Lemmas on numbers.

ghost use Rattle.std.specs.Prelude.{List};
ghost use Rattle.pass_proofs.specs.pass_split.Parts.{first_layout};
ghost use Rattle.pass_proofs.specs.frame_layout.declared.layout.Layout.{Layout};
ghost use Rattle.pass_proofs.specs.rule_laws.frames.suspend_counts.Given.{IsGiven};

/// So is the one that it is split by.
pub fn first_layouts_are_given()
    ensures { (layouts : List Layout) → IsGiven layouts (first_layout layouts) }
{}
