//! The suspends of a function with the allocas of its entry block in front.

ghost use Rattle.std.specs.Prelude.{◌≡◌};
ghost use Rattle.ir_laws.specs.pass_front.Front.{with_front_allocas};
ghost use Rattle.pass_intrinsics.specs.Shapes.{suspends_of};
ghost use Rattle.ir_laws.specs.ir_model.declared.module.Function.{Function};

/// The suspends are the same, with the saves that they take and the labels to which they lead.
pub fn suspends_stay_behind_front_allocas()
    ensures { (f : Function) → suspends_of (with_front_allocas f) ≡ suspends_of f }
{}
