//! What stands in functions whose calls give their callees frames.

ghost use Rattle.pass_elide.specs.Elided.{elided_function};
ghost use Rattle.pass_elide_proof.specs.Elision.{Elision, FindsAlike};
ghost use Rattle.pass_elide_proof.specs.Places.{HasCode, Rooms};
ghost use Rattle.pass_proofs.specs.ir_model.declared.module.Function.{Function};

/// Each instruction stands where as many more do in front of it as calls with fields up to it, and in the entry block
/// as allocas. Calls with rooms are calls of ramps that are given frames. Labels lead to the same blocks, and phis stay.
pub fn elided_functions_have_code()
    ensures { (room : Rooms) (f : Function) → HasCode room f (elided_function room f) }
{}

/// Functions of the elided module are those of the framed form with their calls elided. They are found by the same
/// names, and so are the ramps that are given their frames. Globals hold the same.
pub fn elided_modules_find_alike()
    ensures { (e : Elision) → FindsAlike e }
{}
