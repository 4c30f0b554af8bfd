//! The end of a coroutine, with the allocas of its entry block in front.

ghost use Rattle.pass_fetch_proof.specs.pass_front.Front.{with_front_allocas};
ghost use Rattle.ir_model.specs.declared.module.Function.{Function};
ghost use Rattle.pass_exits_proof.specs.split.crossing.Ended.{AreEndedFirst};

/// Behind a suspend the end comes before a return, as before.
pub fn ends_come_before_returns_behind_front_allocas()
    ensures { (f : Function) → AreEndedFirst f → AreEndedFirst (with_front_allocas f) }
{}
