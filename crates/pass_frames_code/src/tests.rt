//! The calls of coro intrinsics stand in the framed form where the coroutine has them, each at its own place.

ghost use Rattle.std.specs.Prelude.{◌≡◌, map, true};
ghost use Rattle.pass_proofs.specs.ir_model.declared.operand.Intrinsic.{Intrinsic};
ghost use Rattle.pass_proofs.specs.ir_paths.Windows.{is_call_of, points_where};
ghost use Rattle.pass_frames_code.specs.Places.{Framing, edged, framed, own_place};
ghost use Rattle.pass_frames_code.specs.Tests.{is_steady};

/// The framed form has the calls of a coro intrinsic where the coroutine with blocks on edges has them, in their
/// order.
pub fn calls_stand_at_their_places()
    ensures { (x : Framing) (intrinsic : Intrinsic) → is_steady intrinsic ≡ true
        → points_where (is_call_of intrinsic) (framed x)
        ≡ map (own_place x) (points_where (is_call_of intrinsic) (edged x)) }
{}
