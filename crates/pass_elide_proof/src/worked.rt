//! A worked run with a call elided, beside the one in which the callee allocates its frame.

ghost use Rattle.std.specs.Prelude.{◌≡◌};
ghost use Rattle.pass_elide_proof.specs.Compared.{CompareOtherwise};
ghost use Rattle.pass_elide_proof.specs.Elision.{elided_code};
ghost use Rattle.pass_elide_proof.specs.Worked.{HaveEnded, an_elided_caller, after, before, module_of, the_elision};

/// The pass gives the caller an alloca and the callee its address. Both runs return 0 behind the same calls. The
/// second makes one allocator call less.
#[tactic(none)]
pub fn a_worked_call_is_elided()
    ensures pass { elided_code the_elision ≡ module_of an_elided_caller }
    ensures runs { HaveEnded (before 51) (after 49) }
{}

/// Where frames lie in fields of their callers' frames, the runs don't agree on all framed modules. A framed run may
/// compare an address in such a field with the address of the callee's frame, which a source never does.
#[tactic(none)]
pub fn comparisons_with_fields_differ()
    ensures { CompareOtherwise }
{}
