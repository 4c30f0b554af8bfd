//! Coro intrinsics that give a value: sizes, the frame, whether it is done, and the promise.

ghost use Rattle.std.specs.Prelude.{◌≡◌, ℕ, Bool, List, Ok, Option, Some};
ghost use Rattle.pass_frames_code.specs.ir_model.Ty.{Ty};
ghost use Rattle.pass_frames_code.specs.ir_model.declared.operand.Arg.{Arg};
ghost use Rattle.pass_frames_code.specs.ir_model.declared.operand.Intrinsic.{Intrinsic};
ghost use Rattle.pass_frames_code.specs.ir_paths.Windows.{operand_at};
ghost use Rattle.pass_frames_code.specs.ir_paths.declared.point.Point.{Point};
ghost use Rattle.pass_frames_code.specs.Asking.{AreFound, AreInstancesPlaced, GivesAlike, IsAsking, IsAtAsking, IsAtFreeing, IsAtId, IsAtOtherAsking, IsSleeperBeside, MayAsk, on_line};
ghost use Rattle.pass_frames_code.specs.Followed.{IsFollowed};
ghost use Rattle.pass_frames_code.specs.Places.{Framing, edged, framed, own_place};
ghost use Rattle.pass_frames_code.specs.Related.{AreBuiltOf, Building, IsSuspendNumber};
ghost use Rattle.pass_frames_code.specs.Stepping.{AreGiven};
ghost use Rattle.pass_frames_code.specs.pass_renewed_proof.Renewed.{RenewedGiven};
ghost use Rattle.pass_frames_code.specs.run_framed.Framed.{framed_coro};
ghost use Rattle.pass_frames_code.specs.run_laws.memory.Pointers.{IsValue};
ghost use Rattle.pass_frames_code.specs.run_memory.declared.pointer.Value.{Value};
ghost use Rattle.pass_frames_code.specs.run_source.Source.{Continues, Sleeper, coro, frame_address, sleeper_at};
ghost use Rattle.pass_frames_code.specs.run_source.State.{instance_at, own_instance};
ghost use Rattle.pass_frames_code.specs.run_source.declared.state.Instance.{Instance};
ghost use Rattle.pass_frames_code.specs.run_source.declared.state.State.{State};
ghost use Rattle.pass_frames_code.specs.run_source_tables.Given.{has_final, is_final, is_true};
ghost use Rattle.pass_frames_code.specs.run_step.Values.{Env, nth};
ghost use Rattle.pass_frames_code.specs.run_step.declared.world.World.{World};

/// The instance of the topmost activation is found in both runs, and its frame address stands for the first run's. So
/// are the instance of a frame address, and one that is suspended.
pub fn instances_are_found()
    ensures own { (b : Building) (s t : State) (r : AreBuiltOf b s t)
        → AreFound b r.homes s t (own_instance s) (own_instance t) }
    ensures address { (b : Building) (s t : State) (r : AreBuiltOf b s t) → AreInstancesPlaced s
        → (o q : Option (ℕ × Instance)) → AreFound b r.homes s t o q
        → IsValue r.homes (frame_address o) (frame_address q) }
    ensures there { (b : Building) (s t : State) (r : AreBuiltOf b s t) → AreInstancesPlaced s → (p q : Value)
        → IsValue r.homes p q → (f : ℕ × Instance) → instance_at s.instances p ≡ Some f
        → AreFound b r.homes s t (Some f) (instance_at t.instances q) }
    ensures asleep { (b : Building) (s t : State) (r : AreBuiltOf b s t) → AreInstancesPlaced s → (p q : Value)
        → IsValue r.homes p q → (y : Sleeper) → sleeper_at s p ≡ Ok y
        → IsSleeperBeside b r.homes s t y (sleeper_at t q) }
{}

/// A suspend is final in the framed form where it is in the coroutine, and the framed form has a final one where the
/// coroutine has.
pub fn suspends_stay_final()
    ensures one { (x : Framing) (n : ℕ) (p : Point) → IsSuspendNumber x n p
        → is_final (framed x) (own_place x p) ≡ is_final (edged x) p }
    ensures any { (x : Framing) → has_final (framed x) ≡ has_final (edged x) }
{}

/// What the framed run gives stands for what the first run gives, wherever it is on a line.
pub fn asked_values_are_given()
    ensures { (b : Building) (g : RenewedGiven) → AreGiven b g → (s t : State) (r : AreBuiltOf b s t) → MayAsk b g s
        → (w : World) (block at : ℕ) (env : Env) (i : Intrinsic) → IsAsking i → (go : Continues) (args now : List Arg)
        (vs us : List Value) (result : Option ℕ) → IsValue r.homes (nth vs 0) (nth us 0)
        → is_true (operand_at now 2) ≡ is_true (operand_at args 2) → (after : State)
        → coro g.given go s i args vs result ≡ Ok after
        → GivesAlike r.homes s (on_line t w block at env) result after
        (framed_coro b.given (on_line t w block at env) i now us result) }
{}

/// So such an intrinsic is followed: in a function that is no coroutine, and in a coroutine, where its operands are
/// fetched and its result is stored.
pub fn asking_is_followed()
    ensures coroutine { (b : Building) (g : RenewedGiven) → AreGiven b g → (s t : State) → AreBuiltOf b s t
        → (i : Intrinsic) (result : Option ℕ) (must_tail : Bool) (ty : Option Ty) (args : List Arg) (after : State)
        → IsAtAsking b g s i result must_tail ty args after → IsFollowed b g s t }
    ensures other { (b : Building) (g : RenewedGiven) → AreGiven b g → (s t : State) → AreBuiltOf b s t
        → (i : Intrinsic) (result : Option ℕ) (must_tail : Bool) (ty : Option Ty) (args : List Arg) (after : State)
        → IsAtOtherAsking b g s i result must_tail ty args after → IsFollowed b g s t }
{}

/// So is coro.free in a coroutine: the instance is released in both runs, and its address is given.
pub fn frees_are_followed()
    ensures { (b : Building) (g : RenewedGiven) → AreGiven b g → (s t : State) → AreBuiltOf b s t
        → (result : Option ℕ) (must_tail : Bool) (ty : Option Ty) (args : List Arg)
        → IsAtFreeing b g s result must_tail ty args → IsFollowed b g s t }
{}

/// So is coro.id in a coroutine: it names no promise in the framed form, and gives nothing.
pub fn ids_are_followed()
    ensures { (b : Building) (g : RenewedGiven) → AreGiven b g → (s t : State) → AreBuiltOf b s t
        → (result : Option ℕ) (must_tail : Bool) (ty : Option Ty) (args : List Arg)
        → IsAtId b s result must_tail ty args → IsFollowed b g s t }
{}
