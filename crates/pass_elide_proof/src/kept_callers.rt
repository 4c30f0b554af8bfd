//! Callers of instances whose frames lie in their allocas, by the kinds of steps of the run that gives frames.

ghost use Rattle.std.specs.Prelude.{Bool, List, None, Option, Some, [], false, length, slice_get, true, ◌+◌, ◌<◌, ◌∷◌, ◌≡◌, ◌⊎◌, ℕ};
ghost use Rattle.pass_elide_proof.specs.Beginning.{IsKnownTo};
ghost use Rattle.pass_elide_proof.specs.Callers.{GoesOnward, HaveBlocks, IsNotEntering, MarksNoFrame, MaySaveAt, MovesOn, StandsAtDone, StandsAtEnd, StandsAtInstr, WakesByEdge, WasBefore, gives_only, saves_by};
ghost use Rattle.pass_elide_proof.specs.CallersStack.{AreCalled, HasBegunIn, IsCalledBy, KeepAllHandles, ReturnsApart, ReturnsFrame, StandsAtRet};
ghost use Rattle.pass_elide_proof.specs.CallersWorked.{summed, the_sum};
ghost use Rattle.pass_elide_proof.specs.Calling.{AreReady, IsAtCall, IsAtSite};
ghost use Rattle.pass_elide_proof.specs.Edges.{phis_at};
ghost use Rattle.pass_elide_proof.specs.Elision.{Elision, elided, elided_code, function_in, rooms};
ghost use Rattle.pass_elide_proof.specs.Invariant.{HaveCallers};
ghost use Rattle.pass_elide_proof.specs.Match.{AreElided};
ghost use Rattle.pass_elide_proof.specs.OwnSlots.{HaveNoSlots};
ghost use Rattle.pass_elide_proof.specs.Places.{instrs_of, room_at};
ghost use Rattle.pass_elide_proof.specs.Returning.{HaveOwnSlots, IsAtReturn};
ghost use Rattle.pass_elide_proof.specs.Waking.{GivesNone};
ghost use Rattle.pass_elide_proof.specs.Worked.{a_coroutine, after, the_elision};
ghost use Rattle.pass_proofs.specs.ir_base.declared.outcome.Outcome.{Outcome};
ghost use Rattle.pass_proofs.specs.ir_base.declared.outcome.Word.{Word};
ghost use Rattle.pass_proofs.specs.ir_model.Ty.{Ty, ptr};
ghost use Rattle.pass_proofs.specs.ir_model.declared.instr.Instr.{Instr as TheInstr};
ghost use Rattle.pass_proofs.specs.ir_model.declared.instr.Phi.{Phi as ThePhi};
ghost use Rattle.pass_proofs.specs.ir_model.declared.module.Block.{Block as TheBlock};
ghost use Rattle.pass_proofs.specs.ir_model.declared.module.Module.{Module as TheModule};
ghost use Rattle.pass_proofs.specs.ir_model.declared.operand.Allocator.{Allocator as TheAllocator};
ghost use Rattle.pass_proofs.specs.ir_model.declared.operand.Arg.{Arg as TheArg};
ghost use Rattle.pass_proofs.specs.ir_model.declared.operand.Callee.{Callee as TheCallee};
ghost use Rattle.pass_proofs.specs.ir_model.declared.operand.Intrinsic.{Intrinsic as TheIntrinsic};
ghost use Rattle.pass_proofs.specs.ir_model.declared.operand.Operand.{Operand};
ghost use Rattle.pass_proofs.specs.ir_parts.Contents.{result_of};
ghost use Rattle.pass_proofs.specs.run_framed.Framed.{begin_name, framed_context, framed_step};
ghost use Rattle.pass_proofs.specs.run_laws.changed.Changed.{Each};
ghost use Rattle.pass_proofs.specs.run_memory.declared.pointer.Value.{Value};
ghost use Rattle.pass_proofs.specs.run_source.Source.{first_state, given_back, returned};
ghost use Rattle.pass_proofs.specs.run_source.State.{settled, work_of};
ghost use Rattle.pass_proofs.specs.run_source.declared.state.Activation.{Activation};
ghost use Rattle.pass_proofs.specs.run_source.declared.state.Instance.{Instance};
ghost use Rattle.pass_proofs.specs.run_source.declared.state.Mode.{Mode as TheMode};
ghost use Rattle.pass_proofs.specs.run_source.declared.state.State.{State};
ghost use Rattle.pass_proofs.specs.run_step.Step.{GoTo, Work, term_action};
ghost use Rattle.pass_proofs.specs.run_step.Values.{arg_values, nth, pointer_to, value_in};
ghost use Rattle.pass_proofs.specs.run_step.declared.world.World.{World};

/// Callers of instances stay on the stack where the topmost activation goes on in its function. Their handles stay
/// held, and so do their frames, whatever else the step changes.
pub fn onward_steps_keep_callers()
    ensures { (e : Elision) (t u : State) → GoesOnward e t u → HaveCallers e t → HaveCallers e u }
{}

/// So they do behind an instruction that is no call of a function or of an intrinsic on coroutines. A marker ends no
/// block in which a frame lies.
pub fn instructions_keep_callers()
    ensures done { (e : Elision) (t : State) (at : ℕ) (i : TheInstr) (w : Work) → StandsAtDone e t at i w
        → HaveCallers e t → HaveCallers e (framed_step (elided e) t) }
    ensures allocators { (e : Elision) (t : State) (at : ℕ) (a : TheAllocator) (result : Option ℕ) (must_tail : Bool)
        (ty : Option Ty) (args : List TheArg)
        → StandsAtInstr e t at (TheInstr.Call result must_tail ty (TheCallee.Allocator a) args) → HaveNoSlots t
        → HaveCallers e t → HaveCallers e (framed_step (elided e) t) }
    ensures starts { (e : Elision) (t : State) (at : ℕ) (result : Option ℕ) (must_tail : Bool) (ty : Option Ty)
        (args : List TheArg)
        → StandsAtInstr e t at (TheInstr.Call result must_tail ty (TheCallee.Intrinsic TheIntrinsic.LifetimeStart)
        args)
        → HaveCallers e t → HaveCallers e (framed_step (elided e) t) }
    ensures ends { (e : Elision) (t : State) (at : ℕ) (result : Option ℕ) (must_tail : Bool) (ty : Option Ty)
        (args : List TheArg)
        → StandsAtInstr e t at (TheInstr.Call result must_tail ty (TheCallee.Intrinsic TheIntrinsic.LifetimeEnd) args)
        → MarksNoFrame t (nth (arg_values (elided_code e) t.top.values args) 1) → HaveCallers e t
        → HaveCallers e (framed_step (elided e) t) }
    ensures allocas { (e : Elision) (t : State) (at name : ℕ) (ty : Ty) (align : ℕ)
        → StandsAtInstr e t at (TheInstr.Alloca name ty align) → IsNotEntering t.top → HaveBlocks t → HaveCallers e t
        → HaveCallers e (framed_step (elided e) t) }
    ensures again { (e : Elision) (t : State) (at name : ℕ) (ty : Ty) (align from label : ℕ)
        → StandsAtInstr e t at (TheInstr.Alloca name ty align) → (function_in e t.top.func).coroutine ≡ true
        → t.top.mode ≡ TheMode.Entering from label → HaveBlocks t → HaveCallers e t
        → HaveCallers e (framed_step (elided e) t) }
{}

/// So they do over an edge. It may leave a window, whose instance runs again then.
pub fn edges_keep_callers()
    ensures { (e : Elision) (t : State) (label : ℕ) → StandsAtEnd e t label → HaveCallers e t
        → HaveCallers e (framed_step (elided e) t) }
{}

/// A coroutine's own calls keep callers too. Where a ramp begins in the frame that it was given, its caller is that of
/// the new instance, and waits for the ramp.
pub fn own_calls_keep_callers()
    ensures given { (e : Elision) (t : State) (at : ℕ) (result : Option ℕ) (must_tail : Bool) (ty : Option Ty)
        (args : List TheArg) (j : TheIntrinsic) → gives_only j ≡ true
        → StandsAtInstr e t at (TheInstr.Call result must_tail ty (TheCallee.Intrinsic j) args) → HaveCallers e t
        → HaveCallers e (framed_step (elided e) t) }
    ensures saves { (e : Elision) (t : State) (at : ℕ) (result : Option ℕ) (must_tail : Bool) (ty : Option Ty)
        (args : List TheArg) (j : TheIntrinsic) → saves_by j ≡ true
        → StandsAtInstr e t at (TheInstr.Call result must_tail ty (TheCallee.Intrinsic j) args) → MaySaveAt e t
        → HaveCallers e t → HaveCallers e (framed_step (elided e) t) }
    ensures begins { (e : Elision) (t : State) (at : ℕ) (result : Option ℕ) (must_tail : Bool) (ty : Option Ty)
        (args : List TheArg)
        → StandsAtInstr e t at (TheInstr.Call result must_tail ty (TheCallee.Intrinsic TheIntrinsic.CoroBegin) args)
        → (function_in e t.top.func).coroutine ≡ true → HaveOwnSlots t → HaveCallers e t
        → HaveCallers e (framed_step (elided e) t) }
    ensures ends { (e : Elision) (t : State) (at : ℕ) (result : Option ℕ) (must_tail : Bool) (ty : Option Ty)
        (args : List TheArg)
        → StandsAtInstr e t at (TheInstr.Call result must_tail ty (TheCallee.Intrinsic TheIntrinsic.CoroEnd) args)
        → (t.top.mode ≡ TheMode.Resumed → ⊥) → HaveNoSlots t → HaveCallers e t
        → HaveCallers e (framed_step (elided e) t) }
{}

/// Behind a ramp's return its caller has the handle, which is the frame's address. Other callers have theirs still. No
/// frame of an instance that isn't Finished lies in a slot of what returns.
pub fn returns_keep_callers()
    ensures { (e : Elision) (t : State) → StandsAtRet e t → KeepAllHandles e → HaveOwnSlots t → AreCalled e t
        → HaveCallers e t → HaveCallers e (framed_step (elided e) t) }
{}

/// A resume leaves handles held. A destroy of a held handle finds the instance that began there. Its caller waits for
/// the activation that destroys it.
pub fn wakings_keep_callers()
    ensures resumes { (e : Elision) (t : State) (at : ℕ) (result : Option ℕ) (must_tail : Bool) (ty : Option Ty)
        (args : List TheArg)
        → StandsAtInstr e t at (TheInstr.Call result must_tail ty (TheCallee.Intrinsic TheIntrinsic.CoroResume) args)
        → HaveCallers e t → HaveCallers e (framed_step (elided e) t) }
    ensures destroys { (e : Elision) (t : State) (at : ℕ) (result : Option ℕ) (must_tail : Bool) (ty : Option Ty)
        (args : List TheArg)
        → StandsAtInstr e t at (TheInstr.Call result must_tail ty (TheCallee.Intrinsic TheIntrinsic.CoroDestroy) args)
        → ((number : ℕ) (x : Instance) → slice_get t.instances number ≡ Some x → GivesNone e x.coroutine)
        → WakesByEdge e t → HaveCallers e t → HaveCallers e (framed_step (elided e) t) }
{}

/// At coro.end of a resumed activation callers stay. An instance that it destroyed is Finished, so nothing is asked of
/// it any more.
pub fn resumed_ends_keep_callers()
    ensures { (e : Elision) (t : State) (at : ℕ) (result : Option ℕ) (must_tail : Bool) (ty : Option Ty)
        (args : List TheArg)
        → StandsAtInstr e t at (TheInstr.Call result must_tail ty (TheCallee.Intrinsic TheIntrinsic.CoroEnd) args)
        → t.top.mode ≡ TheMode.Resumed → (function_in e t.top.func).coroutine ≡ true → HaveNoSlots t
        → KeepAllHandles e → HaveOwnSlots t → AreCalled e t → HaveCallers e t
        → HaveCallers e (framed_step (elided e) t) }
{}

/// What activations have by their calls stays: at the start, where the topmost goes on in its function, where another
/// one comes on top of it, and behind returns.
pub fn calls_stay_known()
    ensures start { (e : Elision) (m : TheModule) (entry : ℕ) (args : List Word)
        → AreCalled e (first_state m entry args) }
    ensures onward { (e : Elision) (t u : State) → GoesOnward e t u → u.top.instance ≡ t.top.instance
        → ((v : ℕ) → begin_name (function_in e t.top.func) ≡ Some v
        → value_in u.top.values v ≡ value_in t.top.values v) → AreCalled e t → AreCalled e u }
    ensures pushed { (e : Elision) (t : State) (new : Activation) (xs : List Instance)
        → ((number : ℕ) (y : Instance) → slice_get xs number ≡ Some y → WasBefore t.instances number y)
        → (new.result ≡ None) ⊎ IsCalledBy e new (record t.top { at = t.top.at + 1 }) → HasBegunIn e xs new
        → AreCalled e t
        → AreCalled e (record t { top = new; below = record t.top { at = t.top.at + 1 } ∷ t.below; instances = xs }) }
    ensures back { (e : Elision) (t : State) (world : World) (ys : List Instance)
        → ((number : ℕ) (y : Instance) → slice_get ys number ≡ Some y → WasBefore t.instances number y)
        → (v : Option Value) (b : Activation) (rest : List Activation) → t.below ≡ b ∷ rest
        → ((w : ℕ) → begin_name (function_in e b.func) ≡ Some w → t.top.result ≡ Some w → ⊥) → AreCalled e t
        → AreCalled e (record (returned (record t { world = world; instances = ys })) {
          top = given_back b t.top.result v;
          below = rest;
        }) }
{}

/// Calls, resumes, destroys and begins leave it known. A ramp that a site calls was given the alloca's address, and
/// begins there. Begin's name is that of the one begin of the coroutine.
pub fn steps_keep_calls_known()
    ensures calls { (e : Elision) (s t : State) (r : AreReady e s t) (k : IsAtCall e s t)
        → ((v : ℕ) → k.result ≡ Some v → v < length t.top.values) → AreCalled e t
        → AreCalled e (framed_step (elided e) t) }
    ensures sites { (e : Elision) (s t : State) (r : AreReady e s t) (k : IsAtSite e s t)
        → ((v : ℕ) → k.result ≡ Some v → v < length t.top.values) → AreCalled e t
        → AreCalled e (framed_step (elided e) t) }
    ensures resumes { (e : Elision) (t : State) (at : ℕ) (result : Option ℕ) (must_tail : Bool) (ty : Option Ty)
        (args : List TheArg)
        → StandsAtInstr e t at (TheInstr.Call result must_tail ty (TheCallee.Intrinsic TheIntrinsic.CoroResume) args)
        → AreCalled e t → AreCalled e (framed_step (elided e) t) }
    ensures destroys { (e : Elision) (t : State) (at : ℕ) (result : Option ℕ) (must_tail : Bool) (ty : Option Ty)
        (args : List TheArg)
        → StandsAtInstr e t at (TheInstr.Call result must_tail ty (TheCallee.Intrinsic TheIntrinsic.CoroDestroy) args)
        → AreCalled e t → AreCalled e (framed_step (elided e) t) }
    ensures begins { (e : Elision) (t : State) (at : ℕ) (result : Option ℕ) (must_tail : Bool) (ty : Option Ty)
        (args : List TheArg)
        → StandsAtInstr e t at (TheInstr.Call result must_tail ty (TheCallee.Intrinsic TheIntrinsic.CoroBegin) args)
        → Each (IsKnownTo t.instances) t.below
        → ((v : ℕ) → begin_name (function_in e t.top.func) ≡ Some v → result ≡ Some v)
        → ((v : ℕ) → result ≡ Some v → v < length t.top.values) → AreCalled e t
        → AreCalled e (framed_step (elided e) t) }
{}

/// It stays known behind each instruction, edge and own call by which the topmost activation goes on. What is set
/// there isn't begin's value.
pub fn onward_steps_keep_calls_known()
    ensures done { (e : Elision) (t : State) → AreCalled e t → (at : ℕ) (i : TheInstr)
        → ((v : ℕ) → begin_name (function_in e t.top.func) ≡ Some v → result_of i ≡ Some v → ⊥) → (w : Work)
        → StandsAtDone e t at i w → AreCalled e (framed_step (elided e) t) }
    ensures allocators { (e : Elision) (t : State) → AreCalled e t → (at : ℕ) (result : Option ℕ) (must_tail : Bool)
        (ty : Option Ty) (args : List TheArg)
        → ((v : ℕ) → begin_name (function_in e t.top.func) ≡ Some v → result ≡ Some v → ⊥) → (a : TheAllocator)
        → StandsAtInstr e t at (TheInstr.Call result must_tail ty (TheCallee.Allocator a) args)
        → AreCalled e (framed_step (elided e) t) }
    ensures markers { (e : Elision) (t : State) → AreCalled e t → (at : ℕ) (result : Option ℕ) (must_tail : Bool)
        (ty : Option Ty) (args : List TheArg)
        → ((v : ℕ) → begin_name (function_in e t.top.func) ≡ Some v → result ≡ Some v → ⊥) → (j : TheIntrinsic)
        → (j ≡ TheIntrinsic.LifetimeStart) ⊎ (j ≡ TheIntrinsic.LifetimeEnd)
        → StandsAtInstr e t at (TheInstr.Call result must_tail ty (TheCallee.Intrinsic j) args)
        → AreCalled e (framed_step (elided e) t) }
    ensures allocas { (e : Elision) (t : State) (at name : ℕ) (ty : Ty) (align : ℕ)
        → StandsAtInstr e t at (TheInstr.Alloca name ty align) → AreCalled e t
        → (begin_name (function_in e t.top.func) ≡ Some name → ⊥) → AreCalled e (framed_step (elided e) t) }
    ensures edges { (e : Elision) (t : State) (label : ℕ) → StandsAtEnd e t label → AreCalled e t
        → ((v : ℕ) → begin_name (function_in e t.top.func) ≡ Some v → (block : ℕ)
        → Each (λ (x : ThePhi). x.result ≡ v → ⊥) (phis_at (function_in e t.top.func) block))
        → AreCalled e (framed_step (elided e) t) }
    ensures given { (e : Elision) (t : State) → AreCalled e t → (at : ℕ) (result : Option ℕ) (must_tail : Bool)
        (ty : Option Ty) (args : List TheArg)
        → ((v : ℕ) → begin_name (function_in e t.top.func) ≡ Some v → result ≡ Some v → ⊥) → (j : TheIntrinsic)
        → gives_only j ≡ true
        → StandsAtInstr e t at (TheInstr.Call result must_tail ty (TheCallee.Intrinsic j) args)
        → AreCalled e (framed_step (elided e) t) }
    ensures saves { (e : Elision) (t : State) → AreCalled e t → (at : ℕ) (result : Option ℕ) (must_tail : Bool)
        (ty : Option Ty) (args : List TheArg)
        → ((v : ℕ) → begin_name (function_in e t.top.func) ≡ Some v → result ≡ Some v → ⊥) → MaySaveAt e t
        → (j : TheIntrinsic) → saves_by j ≡ true
        → StandsAtInstr e t at (TheInstr.Call result must_tail ty (TheCallee.Intrinsic j) args)
        → AreCalled e (framed_step (elided e) t) }
    ensures ends { (e : Elision) (t : State) → AreCalled e t → (at : ℕ) (result : Option ℕ) (must_tail : Bool)
        (ty : Option Ty) (args : List TheArg)
        → ((v : ℕ) → begin_name (function_in e t.top.func) ≡ Some v → result ≡ Some v → ⊥)
        → (t.top.mode ≡ TheMode.Resumed → ⊥)
        → StandsAtInstr e t at (TheInstr.Call result must_tail ty (TheCallee.Intrinsic TheIntrinsic.CoroEnd) args)
        → AreCalled e (framed_step (elided e) t) }
{}

/// It stays known behind rets and at coro.end of resumed activations, where no result is begin's value.
pub fn returns_keep_calls_known()
    ensures rets { (e : Elision) (t : State) → AreCalled e t → ReturnsApart e t → StandsAtRet e t
        → AreCalled e (framed_step (elided e) t) }
    ensures ends { (e : Elision) (t : State) → AreCalled e t → ReturnsApart e t → (at : ℕ) (result : Option ℕ)
        (must_tail : Bool) (ty : Option Ty) (args : List TheArg)
        → StandsAtInstr e t at (TheInstr.Call result must_tail ty (TheCallee.Intrinsic TheIntrinsic.CoroEnd) args)
        → t.top.mode ≡ TheMode.Resumed → AreCalled e (framed_step (elided e) t) }
{}

/// Where both runs stand beside each other at an instruction, at the end of a block or at a return, the one that gives
/// frames stands at its own place.
pub fn ready_runs_stand_at_places()
    ensures instr { (e : Elision) (s t : State) → AreReady e s t → s.outcome ≡ Outcome.Running → KeepAllHandles e
        → (i : TheInstr) → slice_get (instrs_of (function_in e s.top.func) s.top.block) s.top.at ≡ Some i
        → room_at (rooms e s.top.func) (function_in e s.top.func) s.top.block s.top.at i ≡ None
        → StandsAtInstr e t s.top.at i }
    ensures end { (e : Elision) (s t : State) → AreReady e s t → s.outcome ≡ Outcome.Running → KeepAllHandles e
        → (b : TheBlock) → slice_get (function_in e s.top.func).blocks s.top.block ≡ Some b
        → s.top.at ≡ length b.instrs → (label : ℕ)
        → term_action (framed_context (elided e) t) (work_of t) b.term ≡ GoTo label → StandsAtEnd e t label }
    ensures ret { (e : Elision) (s t : State) → AreReady e s t → IsAtReturn e s t → KeepAllHandles e
        → (t.top.mode ≡ TheMode.Resumed → ⊥) → IsNotEntering t.top
        → ((frame : Value) → t.top.mode ≡ TheMode.GivenRamp frame → ReturnsFrame (function_in e t.top.func))
        → StandsAtRet e t }
{}

/// At the start of a run there is no instance, so none lacks its caller.
pub fn runs_start_with_callers()
    ensures { (e : Elision) (m : TheModule) (entry : ℕ) (args : List Word) → HaveCallers e (first_state m entry args) }
{}

/// In the run that gives frames, frames lie in blocks and instances have no slots. It stands beside the other one.
pub fn states_beside_have_blocks()
    ensures blocks { (e : Elision) (s t : State) → AreElided e s t → HaveBlocks t }
    ensures slots { (e : Elision) (s t : State) → AreElided e s t → HaveNoSlots t }
{}

/// The worked caller destroys its handle, and the worked coroutine returns its frame. The worked run comes to a ret of
/// a ramp that was given its frame, to a resume, and to a destroy.
#[tactic(none)]
pub fn worked_places_keep_callers()
    ensures handles { KeepAllHandles the_elision }
    ensures frame { ReturnsFrame a_coroutine }
    ensures ret { StandsAtRet the_elision (after 20) }
    ensures called { AreCalled the_elision (after 20) }
    ensures resume { StandsAtInstr the_elision (after 21) 1 (TheInstr.Call None false None
        (TheCallee.Intrinsic TheIntrinsic.CoroResume) (record { ty = ptr; value = Operand.Local 1 } ∷ [])) }
    ensures destroy { StandsAtInstr the_elision (after 38) 2 (TheInstr.Call None false None
        (TheCallee.Intrinsic TheIntrinsic.CoroDestroy) (record { ty = ptr; value = Operand.Local 1 } ∷ [])) }
    ensures edges { WakesByEdge the_elision (after 38) }
    ensures apart { ReturnsApart the_elision (after 20) }
{}

/// It also comes to a save, to an end of a block and to a sum, by which it goes onward. Frames lie in blocks there. A
/// marker of another block ends none of them.
#[tactic(none)]
pub fn worked_steps_keep_callers()
    ensures save { MaySaveAt the_elision (after 16) }
    ensures end { StandsAtEnd the_elision (after 6) 5 }
    ensures sum { StandsAtDone the_elision (after 10) 0 the_sum summed }
    ensures onward { GoesOnward the_elision (after 10) (settled (after 10) summed) }
    ensures moves { MovesOn the_elision (after 21).top (record (after 21).top { at = (after 21).top.at + 1 })
        (record { block = 0; at = 1 }) (record { block = 0; at = 2 }) }
    ensures blocks { HaveBlocks (after 22) }
    ensures unmarked { MarksNoFrame (after 22) (pointer_to 1) }
{}
