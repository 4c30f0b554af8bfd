//! Worked modules.

ghost use Rattle.pass_elide_meaning.specs.pass_elide_edges.pass_elide_proof.Worked.{the_elision};
ghost use Rattle.pass_elide_lacks.specs.Ends.{KeepsEndings};
ghost use Rattle.pass_elide_lacks.specs.Keeps.{KeepsAsked};
ghost use Rattle.pass_elide_lacks.specs.Wide.{AllWordsKeepStates, the_wide_elision};
ghost use Rattle.std.specs.Prelude.{ℕ};

/// The worked module keeps what is asked of blocks of their own.
#[tactic(none)]
pub fn the_worked_module_keeps_what_is_asked()
    ensures { KeepsAsked the_elision }
{}

/// The worked module keeps what is asked of its ends.
#[tactic(none)]
pub fn the_worked_module_keeps_endings()
    ensures { KeepsEndings the_elision }
{}

/// Of all words of an entry the statement is false: behind an allocation of 2^64 bytes no states are related. Words of
/// the machines have 64 bits, so none is that large.
#[tactic(none)]
pub fn wide_words_have_no_related_states()
    ensures { (most : ℕ) → AllWordsKeepStates the_wide_elision most → ⊥ }
{}
