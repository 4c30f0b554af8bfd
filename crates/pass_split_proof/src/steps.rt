//! Steps of a framed run, and those of its parts.

ghost use Rattle.std.specs.Prelude.{ℕ, ℤ, Bool, true, ◌<◌, ◌^◌, ◌∷◌, List, None, Option, Ok, Some, false, ◌+◌, ◌≡◌, ◌≤◌, length, slice_get, slice_set, unwrap_or};
ghost use Rattle.pass_proofs.specs.ir_model.declared.module.Function.{Function};
ghost use Rattle.pass_proofs.specs.ir_model.declared.module.Module.{Module};
ghost use Rattle.pass_proofs.specs.ir_base.declared.outcome.Outcome.{Outcome};
ghost use Rattle.pass_proofs.specs.ir_model.Names.{function_at, position_of};
ghost use Rattle.pass_split_proof.specs.places.Places.{AreNew, Enters, IsPlace, JumpsOn, StartsWithEnd};
ghost use Rattle.pass_split_proof.specs.states.Activations.{AreAllWaiting, IsBehind, IsPlaced, IsWaiting, is_entering};
ghost use Rattle.pass_split_proof.specs.states.Going.{goes_to, moved_to, placed_at, plain_returned_to, returned_to, stands_at};
ghost use Rattle.pass_split_proof.specs.states.Related.{AreRelated, fetched_at, weight};
ghost use Rattle.pass_split_proof.specs.steps.Branches.{AreReadablePhis, Entered};
ghost use Rattle.pass_proofs.specs.run_laws.transfer.Transfer.{given_at};
ghost use Rattle.run_access_worked.specs.run_plain.Plain.{PlainGiven, counted, plain_call, plain_context, plain_function, plain_go_to, plain_settled, plain_slot, plain_step, plain_work};
ghost use Rattle.run_access_worked.specs.run_plain.declared.state.PlainState.{PlainState as ThePlainState};
ghost use Rattle.pass_proofs.specs.run_source.Source.{enter, go_to, is_among};
ghost use Rattle.pass_proofs.specs.run_source.State.{frame_address_of, function_of, gives, settled, with_slots, work_of};
ghost use Rattle.pass_proofs.specs.run_memory.declared.pointer.Value.{Value as TheValue};
ghost use Rattle.run_access_worked.specs.run_plain.declared.state.PlainActivation.{PlainActivation as ThePlainActivation};
ghost use Rattle.pass_proofs.specs.run_source.declared.state.Activation.{Activation as TheActivation};
ghost use Rattle.pass_proofs.specs.run_source.declared.state.State.{State as TheState};
ghost use Rattle.pass_proofs.specs.run_source_tables.Given.{Given as TheGiven};
ghost use Rattle.pass_proofs.specs.pass_intrinsics.declared.shape.Part.{Part};
ghost use Rattle.pass_split_proof.specs.states.Instances.{IsLaidOut, destroyer_of, in_state, is_given_in, is_held, part_position, resumer_of, shape_at};
ghost use Rattle.pass_split_proof.specs.code.Positions.{is_given};
ghost use Rattle.pass_split_proof.specs.steps.Calls.{IsCallee};
ghost use Rattle.pass_proofs.specs.run_laws.embedded.Related.{AreValues};
ghost use Rattle.pass_proofs.specs.ir_paths.Slots.{allocas_of};
ghost use Rattle.pass_split_proof.specs.states.Memories.{AreWorldsBeside, homes_of, plain_kind};
ghost use Rattle.pass_split_proof.specs.steps.Slots.{with_made};
ghost use Rattle.pass_proofs.specs.run_memory.declared.block.Kind.{Kind};
ghost use Rattle.pass_proofs.specs.run_step.declared.world.Slot.{Slot as TheSlot};
ghost use Rattle.pass_proofs.specs.ir_model.Ty.{ptr};
ghost use Rattle.pass_proofs.specs.ir_paths.declared.point.Point.{Point as ThePoint};
ghost use Rattle.pass_split_proof.specs.code.Numbers.{IsNumbered};
ghost use Rattle.pass_proofs.specs.split.rules.Reached.{IsLedTo};
ghost use Rattle.pass_split_proof.specs.states.Begun.{IsFreshBlock, IsNewInstance};
ghost use Rattle.pass_split_proof.specs.steps.Begins.{HasBeginCode, begun_to, begun_work};
ghost use Rattle.pass_split_proof.specs.steps.Saves.{HasSaveCode, saved_work};
ghost use Rattle.pass_proofs.specs.frame_layout.declared.layout.Layout.{Layout};
ghost use Rattle.pass_proofs.specs.pass_intrinsics.Shapes.{back_label, shape_of};
ghost use Rattle.pass_proofs.specs.pass_intrinsics.declared.shape.SuspendPoint.{SuspendPoint};
ghost use Rattle.pass_proofs.specs.ir_paths.Windows.{destroy_label, resume_label};
ghost use Rattle.pass_split_proof.specs.steps.Dispatch.{IsAtIndex, indexed_work};
ghost use Rattle.pass_proofs.specs.pass_intrinsics.Lowered.{destroy_call, resume_call};
ghost use Rattle.pass_split_proof.specs.steps.Calling.{IsCallable, calling};
ghost use Rattle.pass_proofs.specs.run_laws.access.Lines.{Holds, StandAt, pointer_at};
ghost use Rattle.pass_proofs.specs.run_memory.declared.pointer.Pointer.{Pointer};
ghost use Rattle.pass_split_proof.specs.simulation.Followed.{IsFollowed};
ghost use Rattle.pass_split_proof.specs.simulation.Knowing.{is_for_some};
ghost use Rattle.pass_proofs.specs.ir_model.declared.instr.Terminator.{Terminator};
ghost use Rattle.pass_proofs.specs.ir_model.declared.operand.Intrinsic.{Intrinsic};
ghost use Rattle.pass_proofs.specs.pass_intrinsics.Cuts.{goes_on};
ghost use Rattle.pass_split_proof.specs.steps.Called.{HasCalled};
ghost use Rattle.pass_proofs.specs.run_agreement.Machines.{IsFine};
ghost use Rattle.pass_split_proof.specs.steps.Resuming.{CanWake, IsAtWaking};
ghost use Rattle.pass_proofs.specs.run_step.Values.{arg_value};
ghost use Rattle.pass_split_proof.specs.steps.Woken.{IsWaking, IsWoken};
ghost use Rattle.pass_proofs.specs.run_source.Source.{destroy, resume};
ghost use Rattle.pass_proofs.specs.run_source_tables.Given.{is_final};
ghost use Rattle.pass_proofs.specs.pass_split.Parts.{or_zero};
ghost use Rattle.pass_proofs.specs.pass_split.Pieces.{going_on, redirected};
ghost use Rattle.pass_proofs.specs.run_memory.Memory.{encode, owned_to, owner_rights, with_block};
ghost use Rattle.pass_proofs.specs.run_memory.declared.block.MemoryBlock.{MemoryBlock};
ghost use Rattle.pass_proofs.specs.run_source.declared.state.Saved.{Saved as TheSaved};
ghost use Rattle.pass_proofs.specs.run_source.declared.state.Status.{Status as TheStatus};
ghost use Rattle.pass_proofs.specs.run_step.Runs.{iterate};
ghost use Rattle.pass_split_proof.specs.steps.Done.{IsDoneToo, ours, part_maps, theirs};
ghost use Rattle.pass_proofs.specs.run_framed.Framed.{FramedGiven, continue_framed, framed_context, framed_step, given_call, layout_of};
ghost use Rattle.pass_proofs.specs.run_laws.access.Touched.{AreTouches, touch_of};
ghost use Rattle.pass_proofs.specs.run_laws.embedded.Related.{HasNoSlot};
ghost use Rattle.pass_proofs.specs.run_laws.memory.Pointers.{IsValue};
ghost use Rattle.pass_proofs.specs.run_laws.transfer.Transfer.{IsTransferred};
ghost use Rattle.pass_proofs.specs.run_source.declared.state.Instance.{Instance};
ghost use Rattle.pass_proofs.specs.ir_model.Ty.{Ty as TheType};
ghost use Rattle.pass_proofs.specs.ir_model.declared.instr.Phi.{Phi as ThePhi};
ghost use Rattle.pass_proofs.specs.ir_model.declared.operand.Operand.{Operand as TheOperand};
ghost use Rattle.pass_split_proof.specs.states.Values.{AreValuesOf};
ghost use Rattle.pass_split_proof.specs.steps.Operands.{IsReadable};
ghost use Rattle.pass_proofs.specs.run_laws.changed.Changed.{Each};
ghost use Rattle.pass_proofs.specs.run_laws.memory.Standing.{own_homes};
ghost use Rattle.pass_proofs.specs.ir_model.declared.instr.Instr.{Instr as TheInstr};
ghost use Rattle.pass_split_proof.specs.steps.Given.{IsAtFrame};
ghost use Rattle.pass_split_proof.specs.steps.Ordinary.{IsAtOrdinary, StepsBeside};
ghost use Rattle.pass_split_proof.specs.steps.Ready.{IsReadyInPart};
ghost use Rattle.pass_proofs.specs.run_step.Step.{AtInstr, Done, Fetched, Work, action_of, fetch, incoming_from, label_of, phi_values, phis_of, set_value, value_at, with_all, AtTerm, GoTo};
ghost use Rattle.pass_proofs.specs.run_step.Values.{Env, operand_value, value_in, with_value};

/// A step that is done in the framed run and makes, marks and allocates no block is done in the part. The memories stand
/// beside each other still, the name that is set has what stands for its value, and closed bytes stay.
pub fn steps_are_done_in_parts()
    ensures { (g : FramedGiven) (instances : List Instance) (m n : Module) (answers : List ℤ) (f q : Function)
        (functions labels : ℕ → ℕ) (w x : Work) (here there : Fetched) (v : Work)
        → AreWorldsBeside g instances w.world x.world → length w.values ≤ length x.values
        → IsTransferred (IsValue (homes_of w.world.memory)) (part_maps functions labels) (ours g instances m answers f)
        (theirs n answers q) w.values x.values here there
        → AreTouches (homes_of w.world.memory) (touch_of (ours g instances m answers f) w here)
        (touch_of (theirs n answers q) x there)
        → HasNoSlot there → action_of (ours g instances m answers f) w here ≡ Done v
        → IsDoneToo g instances (theirs n answers q) w x here there v }
{}

/// An operand that a step may read has in the part what stands for its value, and so have the phis of a block that both
/// enter from a label.
pub fn operands_stand_in_parts()
    ensures operands { (m n : Module) (f : Function) (k : ℕ) (env other : Env) → length m.globals ≤ k
        → AreValuesOf f (own_homes 0 k) env other → (x : TheOperand) → IsReadable m n f x → (ty : TheType)
        → IsValue (own_homes 0 k) (operand_value m env ty x) (operand_value n other ty x) }
    ensures phis { (m n : Module) (f : Function) (k label : ℕ) → length m.globals ≤ k → (env other : Env)
        (phis : List ThePhi) → AreValuesOf f (own_homes 0 k) env other
        → Each (λ (p : ThePhi). IsReadable m n f (incoming_from p.incoming label)) phis
        → AreValuesOf f (own_homes 0 k) (with_all env (phi_values m env label phis))
        (with_all other (phi_values n other label phis)) }
{}

/// An instruction that stands in a part too, and whose operands may be read there, is done in it where it is done in the
/// framed run.
pub fn readable_instructions_are_done_in_parts()
    ensures { (g : FramedGiven) (instances : List Instance) (m n : Module) (answers : List ℤ) (f q : Function)
        (functions : ℕ → ℕ) (w x : Work) (i : TheInstr) (v : Work) → length m.globals ≤ length w.world.memory
        → AreValuesOf f (homes_of w.world.memory) w.values x.values
        → IsReadyInPart functions f (ours g instances m answers f) (theirs n answers q) w.values x.values i
        → AreWorldsBeside g instances w.world x.world
        → action_of (ours g instances m answers f) w (AtInstr i) ≡ Done v
        → IsDoneToo g instances (theirs n answers q) w x (AtInstr i) (AtInstr i) v }
{}

/// Where an instruction is done in both runs the states are related behind it, and the parts' run takes a step.
pub fn instructions_leave_states_related()
    ensures related { (g : FramedGiven) (h : PlainGiven) (s : TheState) (t : ThePlainState) (r : AreRelated g h s t)
        (here there : Fetched) (v : Work)
        (d : IsDoneToo g s.instances (plain_context h t) (work_of s) (plain_work t) here there v)
        → (given_at here ≡ Some r.top.shape.begin → ⊥) → is_entering s.top.mode ≡ false
        → IsPlaced r.top.shape r.top.part (function_at g.given.code s.top.func) (function_at h.code t.top.func)
        (moved_to s.top s.top.block (s.top.at + 1) v.values s.top.has_left)
        (placed_at t.top t.top.block (t.top.at + 1) d.work.values) s.top.mode
        → AreRelated g h (settled s v) (plain_settled t d.work) }
    ensures step { (g : FramedGiven) (h : PlainGiven) (s : TheState) (t : ThePlainState) (r : AreRelated g h s t)
        (here there : Fetched) (v : Work)
        (d : IsDoneToo g s.instances (plain_context h t) (work_of s) (plain_work t) here there v)
        → (given_at here ≡ Some r.top.shape.begin → ⊥) → is_entering s.top.mode ≡ false
        → t.outcome ≡ Outcome.Running → fetch (plain_function h t) t.top.block t.top.at ≡ there
        → plain_step h t ≡ plain_settled t d.work }
{}

/// Where a part has an ordinary instruction of the framed function, both runs do it in a step. The states are related
/// behind it.
pub fn ordinary_steps_leave_states_related()
    ensures { (functions : ℕ → ℕ) (g : FramedGiven) (h : PlainGiven) (s : TheState) (t : ThePlainState)
        (r : AreRelated g h s t) (i : TheInstr) → IsAtOrdinary functions g h s t r i → (v : Work)
        → action_of (framed_context g s) (work_of s) (AtInstr i) ≡ Done v → StepsBeside g h s t v }
{}

/// Where a coro intrinsic gives values that stand for each other the states are related behind it. So they are behind a
/// coro.frame, for which the part has one instruction.
pub fn given_values_leave_states_related()
    ensures values { (g : FramedGiven) (h : PlainGiven) (s : TheState) (t : ThePlainState) (r : AreRelated g h s t)
        (name : ℕ) (v u : TheValue) → IsValue (homes_of s.world.memory) v u → (name ≡ r.top.shape.begin → ⊥)
        → is_entering s.top.mode ≡ false
        → IsPlaced r.top.shape r.top.part (function_at g.given.code s.top.func) (function_at h.code t.top.func)
        (moved_to s.top s.top.block (s.top.at + 1) (with_value s.top.values name v) s.top.has_left)
        (placed_at t.top t.top.block (t.top.at + 1) (with_value t.top.values name u)) s.top.mode
        → AreRelated g h (gives s (Some name) v) (plain_settled t (set_value (plain_work t) name u)) }
    ensures frame { (g : FramedGiven) (h : PlainGiven) (s : TheState) (t : ThePlainState) (r : AreRelated g h s t)
        (name : ℕ) (k : IsAtFrame g h s t r name)
        → AreRelated g h (gives s (Some name) (frame_address_of k.instance)) (plain_step h t) }
{}

/// Behind an edge that both runs take the states are related, whatever windows it leaves. The framed run has done nothing
/// but what leaving them is.
pub fn edges_leave_states_related()
    ensures related { (g : FramedGiven) (h : PlainGiven) (s : TheState) (t : ThePlainState) (r : AreRelated g h s t)
        (label : ℕ) → Enters r.top.shape r.top.part (function_at g.given.code s.top.func)
        (function_at h.code t.top.func) s.top.block t.top.block label
        → AreReadablePhis g.given.code h.code (function_at g.given.code s.top.func)
        (label_of (slice_get (function_at g.given.code s.top.func).blocks s.top.block)) r.top.shape.begin
        (phis_of (slice_get (function_at g.given.code s.top.func).blocks
        (position_of (function_at g.given.code s.top.func) label)))
        → is_entering s.top.mode ≡ false → (u : TheState) → Entered g.given s label u
        → AreRelated g h u (plain_go_to h t label) }
    ensures entered { (g : TheGiven) (s u : TheState) (label : ℕ) → go_to g s label ≡ Ok u → Entered g s label u }
{}

/// Where both runs return from their topmost activations, their slots die and the states are related in the activations
/// below, which waited.
pub fn returns_leave_states_related()
    ensures { (g : FramedGiven) (h : PlainGiven) (s : TheState) (t : ThePlainState) → AreRelated g h s t
        → (v u : Option TheValue) (a : TheActivation) (b : ThePlainActivation)
        → IsWaiting g h.code s.instances (homes_of s.world.memory) s.top.result a b
        → IsValue (homes_of s.world.memory) (unwrap_or v TheValue.Poison) (unwrap_or u TheValue.Poison)
        → (below : List TheActivation) (others : List ThePlainActivation)
        → AreAllWaiting g h.code s.instances (homes_of s.world.memory) a.result below others
        → AreRelated g h (returned_to s a v below) (plain_returned_to t b u others) }
{}

/// Where both runs call a function, or the ramp of a coroutine, the states are related at its entry, and the callers wait.
pub fn calls_leave_states_related()
    ensures { (g : FramedGiven) (h : PlainGiven) (s : TheState) (t : ThePlainState) (r : AreRelated g h s t) (func : ℕ)
        (args others : List TheValue) (result : Option ℕ) → IsCallee g h.code func
        → AreValues (homes_of s.world.memory) args others → is_entering s.top.mode ≡ false
        → IsPlaced r.top.shape r.top.part (function_at g.given.code s.top.func) (function_at h.code t.top.func)
        (record s.top { at = s.top.at + 1 }) (placed_at t.top t.top.block (t.top.at + 1) t.top.values) s.top.mode
        → IsBehind (function_at g.given.code s.top.func) false (record s.top { at = s.top.at + 1 })
        → (result ≡ Some r.top.shape.begin → ⊥)
        → AreRelated g h (enter g.given s func args result)
        (plain_call h t (part_position g func Part.Ramp) others result false) }
{}

/// Where both runs make a block, of an alloca or of an allocator, the states are related behind it. An alloca's slot is
/// then one of both topmost activations. Where it has markers in the framed run alone, it lives in the part.
pub fn blocks_leave_states_related()
    ensures block { (g : FramedGiven) (h : PlainGiven) (s : TheState) (t : ThePlainState) (r : AreRelated g h s t)
        (result : Option ℕ) (size align : ℕ) (kind : Kind) (marked too : Bool) (count : ℕ)
        → (too ≡ true → marked ≡ true) → size < 2 ^ 64 → (kind ≡ Kind.Allocator → align ≡ 16) → is_entering s.top.mode ≡ false
        → (result ≡ Some r.top.shape.begin → ⊥)
        → IsPlaced r.top.shape r.top.part (function_at g.given.code s.top.func) (function_at h.code t.top.func)
        (moved_to s.top s.top.block (s.top.at + 1) (with_made (work_of s) result size align kind marked count).values
        s.top.has_left)
        (placed_at t.top t.top.block (t.top.at + 1)
        (with_made (plain_work t) result size align (plain_kind kind) too count).values) s.top.mode
        → AreRelated g h (settled s (with_made (work_of s) result size align kind marked count))
        (plain_settled t (with_made (plain_work t) result size align (plain_kind kind) too count)) }
    ensures slot { (g : FramedGiven) (h : PlainGiven) (s : TheState) (t : ThePlainState) → AreRelated g h s t
        → (slot : TheSlot)
        → ((function_at g.given.code s.top.func).coroutine ≡ true
        → is_among (allocas_of (function_at g.given.code s.top.func)) slot ≡ true)
        → is_entering s.top.mode ≡ false → AreRelated g h (with_slots s (slot ∷ s.top.slots)) (plain_slot t slot) }
{}

/// A save takes four steps of the part, and the states are related behind it.
pub fn saves_leave_states_related()
    ensures related { (g : FramedGiven) (h : PlainGiven) (s : TheState) (t : ThePlainState) (r : AreRelated g h s t)
        (i : ℕ) (x : Instance) (number : ℕ) (code : HasSaveCode g h s t r number)
        → slice_get s.instances i ≡ Some x → x.coroutine ≡ s.top.func
        → value_in t.top.values (shape_at g s.top.func).begin ≡ pointer_at x.block x.start
        → is_held s.world.memory x ≡ true → IsLaidOut g x.coroutine
        → x.start + (layout_of g.layouts x.coroutine).index < 2 ^ 64 → (suspend : ThePoint)
        (numbered : IsNumbered (function_at g.given.code x.coroutine) suspend number)
        → IsLedTo (function_at g.given.code x.coroutine) numbered.suspend.block → (saved : Option TheSaved)
        → is_entering s.top.mode ≡ false
        → AreRelated g h (goes_to s s.world
        (slice_set s.instances i (in_state x (TheStatus.Suspended suspend s.top.values) saved x.released)) s.top.block
        (s.top.at + 1) s.top.values true)
        (stands_at t (position_of (plain_function h t) code.mark) 0
        (saved_work g (plain_work t) code.name x number (resumer_of g x.coroutine numbered.suspend))) }
    ensures steps { (g : FramedGiven) (h : PlainGiven) (s : TheState) (t : ThePlainState) (r : AreRelated g h s t)
        (i : ℕ) (x : Instance) (number : ℕ) (code : HasSaveCode g h s t r number)
        → slice_get s.instances i ≡ Some x → x.coroutine ≡ s.top.func
        → value_in t.top.values (shape_at g s.top.func).begin ≡ pointer_at x.block x.start
        → is_held s.world.memory x ≡ true → IsLaidOut g x.coroutine
        → x.start + (layout_of g.layouts x.coroutine).index < 2 ^ 64 → (suspend : ThePoint)
        (numbered : IsNumbered (function_at g.given.code x.coroutine) suspend number)
        → IsLedTo (function_at g.given.code x.coroutine) numbered.suspend.block → (saved : Option TheSaved)
        → t.outcome ≡ Outcome.Running
        → iterate (plain_step h) 4 t ≡ stands_at t (position_of (plain_function h t) code.mark) 0
        (saved_work g (plain_work t) code.name x number (resumer_of g x.coroutine numbered.suspend)) }
{}

/// A begin in a block of an allocator takes five steps of the part, and the states are related behind it.
pub fn begins_leave_states_related()
    ensures related { (g : FramedGiven) (h : PlainGiven) (s : TheState) (t : ThePlainState) (r : AreRelated g h s t)
        (p : TheOperand) (code : HasBeginCode g h s t r p) (x : Instance) (u : MemoryBlock) (size : ℕ)
        → x.coroutine ≡ s.top.func → slice_get s.world.memory x.block ≡ Some u → IsFreshBlock size u
        → IsLaidOut g x.coroutine → (layout_of g.layouts x.coroutine).size ≡ size → IsNewInstance x → 16 ≤ u.size
        → value_at (plain_context h t) (plain_work t) ptr p ≡ pointer_at x.block 0
        → is_given (destroyer_of r.top.part) ≡ false → is_entering s.top.mode ≡ false
        → AreRelated g h (begun_to s x (with_block s.world.memory x.block (owned_to size))
        (with_value s.top.values (shape_at g s.top.func).begin (pointer_at x.block 0)))
        (stands_at t (position_of (plain_function h t) code.mark) 0 (begun_work g r.top.part (plain_work t) code.name x
        s.top.func)) }
    ensures steps { (g : FramedGiven) (h : PlainGiven) (s : TheState) (t : ThePlainState) (r : AreRelated g h s t)
        (p : TheOperand) (code : HasBeginCode g h s t r p) (x : Instance) (u : MemoryBlock) (size : ℕ)
        → x.coroutine ≡ s.top.func → slice_get s.world.memory x.block ≡ Some u → IsFreshBlock size u
        → IsLaidOut g x.coroutine → (layout_of g.layouts x.coroutine).size ≡ size → IsNewInstance x → 16 ≤ u.size
        → value_at (plain_context h t) (plain_work t) ptr p ≡ pointer_at x.block 0
        → is_given (destroyer_of r.top.part) ≡ false → t.outcome ≡ Outcome.Running
        → iterate (plain_step h) 5 t ≡ stands_at t (position_of (plain_function h t) code.mark) 0
        (begun_work g r.top.part (plain_work t) code.name x s.top.func) }
{}

/// A part whose allocas are made goes on in four steps where its index leads: behind the suspend of that number. On the
/// way nothing is another but its names.
pub fn indices_lead_parts_on()
    ensures leads { (h : PlainGiven) (t : ThePlainState) (f : Function) (layout : Layout) (part : Part)
        (number : ℕ) (point : SuspendPoint) (block start : ℕ)
        → IsAtIndex h t f layout part number point block start
        → iterate (plain_step h) 4 t ≡ plain_go_to h (stands_at t (position_of (plain_function h t)
        (back_label (shape_of f layout) number)) 0 (indexed_work (shape_of f layout) (plain_work t) block start number))
        (redirected (shape_of f layout) (or_zero (going_on part (Some point)))) }
    ensures quiet { (h : PlainGiven) (t : ThePlainState) (f : Function) (layout : Layout) (part : Part)
        (number : ℕ) (point : SuspendPoint) (block start : ℕ)
        → IsAtIndex h t f layout part number point block start → (i : ℕ) → i < 4
        → ((iterate (plain_step h) i t).outcome ≡ Outcome.Running)
        × ((iterate (plain_step h) i t).world ≡ t.world) }
{}

/// A resume of the framed run that isn't undefined goes on with a Suspended instance, whose frame's address it takes. Its
/// suspend isn't final. So does a destroy, at any suspend.
pub fn resumes_wake_suspended_instances()
    ensures resume { (g : FramedGiven) (s u : TheState) (p : TheValue)
        → resume g.given (continue_framed g) s p ≡ Ok u → (w : IsWoken s p)
        × ((is_final (function_at g.given.code w.instance.coroutine) w.suspend ≡ false)
        × (u ≡ continue_framed g s w.number w.instance w.suspend w.values
        (resume_label (function_at g.given.code w.instance.coroutine) w.suspend))) }
    ensures destroy { (g : FramedGiven) (s u : TheState) (p : TheValue)
        → destroy g.given (continue_framed g) s p ≡ Ok u → (w : IsWoken s p)
        × (u ≡ continue_framed g s w.number w.instance w.suspend w.values
        (destroy_label (function_at g.given.code w.instance.coroutine) w.suspend)) }
{}

/// What stands in a part for a resume calls the function that a frame's header names, with the frame's address. It takes
/// two steps, and what stands for a destroy three. On the way nothing is another but names of the part's own.
pub fn parts_call_what_headers_name()
    ensures resume { (h : PlainGiven) (t : ThePlainState) (x : TheOperand) (n block start func : ℕ)
        → IsCallable h t x n 1 block start 0 func
        → StandAt (plain_function h t) t.top.block t.top.at (resume_call n x)
        → iterate (plain_step h) 2 t ≡ counted h func (calling h t func block start (t.top.at + 1 + 1)
        (with_value t.top.values n (TheValue.Ptr (Pointer.Func func)))) }
    ensures destroy { (h : PlainGiven) (t : ThePlainState) (x : TheOperand) (n block start func : ℕ)
        → IsCallable h t x n 2 block start 8 func → start + 8 < 2 ^ 64
        → StandAt (plain_function h t) t.top.block t.top.at (destroy_call n x)
        → iterate (plain_step h) 3 t ≡ counted h func (calling h t func block start (t.top.at + 1 + 1 + 1)
        (with_value (with_value t.top.values n (pointer_at block (start + 8))) (n + 1)
        (TheValue.Ptr (Pointer.Func func)))) }
{}

/// Where a part has called the one that goes on with an instance, the step of the framed run is followed. The callee
/// makes its allocas again, or comes to the block behind the suspend in four steps more.
pub fn called_parts_follow()
    ensures { (g : FramedGiven) (h : PlainGiven) (s : TheState) (t : ThePlainState) (r : AreRelated g h s t)
        → s.outcome ≡ Outcome.Running → is_entering s.top.mode ≡ false → (p : TheValue) (w : IsWoken s p) (part : Part)
        (label : ℕ) → IsWaking g h.code s t.world.memory p w part label
        → framed_step g s ≡ continue_framed g s w.number w.instance w.suspend w.values label
        → weight (fetched_at g s) ≡ 4
        → StartsWithEnd (function_at g.given.code w.instance.coroutine) (shape_at g w.instance.coroutine).end
        → HasCalled g h s t r w.instance part
        → (is_for_some part ≡ true
        → is_given part ≡ is_given_in (slice_get s.world.memory w.instance.block) w.instance) → IsFollowed g h s t }
{}

/// A resume that stays in its part has called the part that goes on, in two steps.
pub fn resumes_call_in_two_steps()
    ensures { (g : FramedGiven) (h : PlainGiven) (s : TheState) (t : ThePlainState) (r : AreRelated g h s t)
        (k : IsAtWaking g h s t r Intrinsic.CoroResume) (w : IsWoken s (arg_value g.given.code s.top.values k.arg))
        → CanWake g h s t (arg_value g.given.code s.top.values k.arg) w Part.Resume
        (resume_label (function_at g.given.code w.instance.coroutine) w.suspend)
        → Holds owner_rights t.world.memory w.instance.block (w.instance.start + 0) 8
        (encode 8 (TheValue.Ptr (Pointer.Func (part_position g w.instance.coroutine Part.Resume))))
        → w.instance.block < length s.world.memory → w.instance.start < 2 ^ 64 → (n : ℕ)
        → AreNew (function_of g.given s) (plain_function h t) n 1
        → StandAt (plain_function h t) t.top.block t.top.at (resume_call n k.arg.value)
        → IsPlace r.top.shape r.top.part (function_of g.given s) (plain_function h t) s.top.block (s.top.at + 1)
        t.top.block (t.top.at + 2) → HasCalled g h s t r w.instance Part.Resume }
{}

/// A resume in a ramp, or in a function that is no coroutine, is followed in the part. So is one of a part that goes on,
/// where it transfers nowhere: what is asked is the same, with the code that stands there.
pub fn resumes_of_ramps_are_followed()
    ensures ramp { (g : FramedGiven) (h : PlainGiven) (s : TheState) (t : ThePlainState) (r : AreRelated g h s t)
        (k : IsAtWaking g h s t r Intrinsic.CoroResume) → IsFine (framed_step g s).outcome
        → ((w : IsWoken s (arg_value g.given.code s.top.values k.arg))
        → is_final (function_at g.given.code w.instance.coroutine) w.suspend ≡ false
        → CanWake g h s t (arg_value g.given.code s.top.values k.arg) w Part.Resume
        (resume_label (function_at g.given.code w.instance.coroutine) w.suspend))
        → goes_on r.top.part ≡ false → IsFollowed g h s t }
    ensures stays { (g : FramedGiven) (h : PlainGiven) (s : TheState) (t : ThePlainState) (r : AreRelated g h s t)
        (k : IsAtWaking g h s t r Intrinsic.CoroResume) → IsFine (framed_step g s).outcome
        → ((w : IsWoken s (arg_value g.given.code s.top.values k.arg))
        → is_final (function_at g.given.code w.instance.coroutine) w.suspend ≡ false
        → CanWake g h s t (arg_value g.given.code s.top.values k.arg) w Part.Resume
        (resume_label (function_at g.given.code w.instance.coroutine) w.suspend)) → (n : ℕ)
        → AreNew (function_of g.given s) (plain_function h t) n 1
        → StandAt (plain_function h t) t.top.block t.top.at (resume_call n k.arg.value)
        → IsPlace r.top.shape r.top.part (function_of g.given s) (plain_function h t) s.top.block (s.top.at + 1)
        t.top.block (t.top.at + 2) → IsFollowed g h s t }
{}

/// An ordinary instruction that the framed run does is followed in the part.
pub fn ordinary_steps_are_followed()
    ensures { (g : FramedGiven) (h : PlainGiven) (s : TheState) (t : ThePlainState) (r : AreRelated g h s t)
        → s.outcome ≡ Outcome.Running → (functions : ℕ → ℕ) (i : TheInstr) → IsAtOrdinary functions g h s t r i
        → given_call g s (AtInstr i) ≡ None → (v : Work)
        → action_of (framed_context g s) (work_of s) (AtInstr i) ≡ Done v → IsFollowed g h s t }
{}

/// An edge of the framed run is followed in the part: in a step where the part's leads straight there, and in two where
/// it leads through the mark of the end. The second is a debt of the end.
pub fn edges_are_followed()
    ensures straight { (g : FramedGiven) (h : PlainGiven) (s : TheState) (t : ThePlainState) (r : AreRelated g h s t)
        → s.outcome ≡ Outcome.Running → (term : Terminator) (label : ℕ)
        → fetch (function_of g.given s) s.top.block s.top.at ≡ AtTerm term
        → action_of (framed_context g s) (work_of s) (AtTerm term) ≡ GoTo label → IsFine (framed_step g s).outcome
        → is_entering s.top.mode ≡ false
        → AreReadablePhis g.given.code h.code (function_at g.given.code s.top.func)
        (label_of (slice_get (function_at g.given.code s.top.func).blocks s.top.block)) r.top.shape.begin
        (phis_of (slice_get (function_at g.given.code s.top.func).blocks
        (position_of (function_at g.given.code s.top.func) label)))
        → Enters r.top.shape r.top.part (function_at g.given.code s.top.func) (function_at h.code t.top.func)
        s.top.block t.top.block label → plain_step h t ≡ plain_go_to h t label → IsFollowed g h s t }
    ensures through { (g : FramedGiven) (h : PlainGiven) (s : TheState) (t : ThePlainState) (r : AreRelated g h s t)
        → s.outcome ≡ Outcome.Running → (term : Terminator) (label : ℕ)
        → fetch (function_of g.given s) s.top.block s.top.at ≡ AtTerm term
        → action_of (framed_context g s) (work_of s) (AtTerm term) ≡ GoTo label → IsFine (framed_step g s).outcome
        → is_entering s.top.mode ≡ false
        → AreReadablePhis g.given.code h.code (function_at g.given.code s.top.func)
        (label_of (slice_get (function_at g.given.code s.top.func).blocks s.top.block)) r.top.shape.begin
        (phis_of (slice_get (function_at g.given.code s.top.func).blocks
        (position_of (function_at g.given.code s.top.func) label))) → (mark : ℕ)
        → JumpsOn (plain_function h t) mark label
        → Enters r.top.shape r.top.part (function_at g.given.code s.top.func) (function_at h.code t.top.func)
        s.top.block mark label → StartsWithEnd (function_at g.given.code s.top.func) label
        → plain_step h t ≡ stands_at t mark 0 (plain_work t) → IsFollowed g h s t }
{}
