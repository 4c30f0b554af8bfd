//! The worked module.

ghost use Rattle.pass_elide_kept.specs.Modules.{KeepsHandlesAndEnds};
ghost use Rattle.pass_elide_proof.specs.Worked.{the_elision};

/// The worked module keeps what is asked beside its places. It frees without a test, so no block is passed by there.
#[tactic(none)]
pub fn the_worked_module_keeps_ends()
    ensures { KeepsHandlesAndEnds the_elision }
{}
