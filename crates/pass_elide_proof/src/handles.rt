//! Where an activation may be while an instance lies in an alloca of it.

ghost use Rattle.std.specs.Prelude.{List, IsFalse, IsTrue, [], ◌∷◌};
ghost use Rattle.elide_shape.specs.Calls.{value_at};
ghost use Rattle.elide_sites.specs.Sites.{IsDestroyed, destroys_of, ends_use};
ghost use Rattle.pass_proofs.specs.flow_points.Reached.{IsReached};
ghost use Rattle.pass_proofs.specs.ir_model.declared.module.Function.{Function};
ghost use Rattle.pass_proofs.specs.ir_paths.Paths.{has_point, nexts};
ghost use Rattle.pass_proofs.specs.ir_paths.declared.point.Point.{Point};

/// Behind a call nothing has been destroyed, and each step that destroys nothing leaves it so. Where the call's handle
/// is destroyed on each path, such a place is no return and not the call again.
pub fn held_places_go_on()
    ensures called { (f : Function) (avoided : List Point) (call q : Point) → IsTrue (has_point (nexts f call) q)
        → IsReached f (call ∷ []) avoided q }
    ensures next { (f : Function) (starts avoided : List Point) (p q : Point) → IsReached f starts avoided p
        → IsFalse (has_point avoided p) → IsTrue (has_point (nexts f p) q) → IsReached f starts avoided q }
    ensures ends { (f : Function) (call p : Point) → IsDestroyed f call
        → IsReached f (call ∷ []) (destroys_of f (value_at f call)) p → IsTrue (ends_use f call p) → ⊥ }
{}
