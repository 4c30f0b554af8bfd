//! A resumed activation may make its local slots anew: the second step on the way from the meaning of sources to that of framed modules.
//!
//! The meaning is `RenewedAt`; three worked runs come to their events in it (`renewed_runs`). That it agrees with the
//! one before isn't proved, but what this is to be made of is. An ordinary step doesn't see that blocks have ended
//! into which none of its operands leads (`ended_blocks_are_not_seen`). It spreads no pointer into some blocks if no
//! operand that it may spread is one (`pointers_are_not_spread`). It is made over a target memory where only what it
//! reads stands there (`read_steps_are_carried`). That is so too where it uses slots that come to stand in blocks of
//! their own with it (`slot_steps_are_carried`, `places_change`).
//!
//! The two runs are related by `IsBeside`, and at all their states by `IsBetween`. The relation holds at the start
//! (`states_begin_beside`), and ordinary instructions keep it (`ordinary_steps_stay_beside`,
//! `address_parts_stay_beside`, `given_values_stay_beside`). So do those that make and mark blocks: allocators
//! (`allocators_stay_beside`), allocas (`allocas_of_slots_stay_beside`, `other_allocas_stay_beside`,
//! `late_allocas_stay_beside`) and markers of slots that may be made anew (`starts_of_slots_stay_beside`,
//! `ends_of_slots_stay_beside`). A save keeps it (`saves_stay_beside`), and so do a suspend without a token
//! (`suspends_stay_beside`), `coro.free` (`frees_stay_beside`), markers of other slots (`other_markers_stay_beside`),
//! deallocations (`deallocations_stay_beside`), the promise (`promises_stay_beside`) and the end
//! (`coroutine_ends_stay_beside`). Instances are found in both runs (`own_instances_are_beside`,
//! `sleepers_are_beside`). Slots that may be made anew are ramp slots in the second run alone
//! (`renewed_slots_are_ramp_slots`).
//! Slots that are made anew leave all as it was (`slots_made_anew_keep_all`), and are paid by the resume
//! (`slots_made_anew_are_paid`).
//! What a resumed activation may not use it is barred from by the path that it came
//! (`resumed_activations_are_barred`, `left_activations_use_no_live_slot`).
//!
//! What a resume hands on is right once the slots are made anew (`slots_are_made_anew`, `slot_values_stand`,
//! `steady_distances_are_kept`). A local slot that was used before a suspend isn't used behind it without a start
//! between (`local_slots_are_parted`), also by activations that have left (`windows_keep_slots`,
//! `left_points_go_on`).
#![tactic(auto)]

ghost use Rattle.std.specs.Prelude.{Ok, ℕ, ℤ, negsuc, Bool, true, false, List, length, slice_get, Some, None, ◌≡◌, ◌≢◌, ◌≤◌, ◌<◌, ◌^◌, ◌++◌, ◌∷◌, [], ◌==◌, IsTrue, if◌then◌else◌, ◌+◌, ◌⊎◌, Option};
ghost use Rattle.pass_kept_proof.specs.run_memory.Memory.{end, fresh, is_live, killed, killed_block, same_kind, start, with_block};
ghost use Rattle.pass_kept_proof.specs.run_memory.declared.block.Kind.{Kind as TheKind};
ghost use Rattle.run_laws.specs.memory.Standing.{blank_block};
ghost use Rattle.pass_kept_proof.specs.run_memory.declared.block.MemoryBlock.{MemoryBlock as Block};
ghost use Rattle.run_laws.specs.memory.Pointers.{Extends};
ghost use Rattle.pass_renewed_proof.specs.Places.{AreStanding, HasFewer, IsBlank, IsFree, IsReady, hiding, unseen};
ghost use Rattle.pass_renewed_proof.specs.Muted.{muted};
ghost use Rattle.run_laws.specs.embedded.Making.{whole_home};
ghost use Rattle.pass_kept_proof.specs.run_memory.Memory.{owner_rights};
ghost use Rattle.run_laws.specs.memory.Pointers.{Home, home_of};
ghost use Rattle.pass_renewed_proof.specs.Steps.{AreOver, AreSet, GoesOver, IsRead, given_at};
ghost use Rattle.pass_kept_proof.specs.run_step.Step.{AtInstr, Context, Done, Fetched, Work, action_of, fetch, is_alignment};
ghost use Rattle.pass_renewed_proof.specs.Muted.{IsShownOperand, muted_action, muted_work};
ghost use Rattle.pass_renewed_proof.specs.Shown.{AreShownBlocks, IsShownAction, spread_at};
ghost use Rattle.run_laws.specs.changed.Changed.{Each, operands_at};
ghost use Rattle.pass_kept_proof.specs.ir_model.Names.{position_of};
ghost use Rattle.pass_kept_proof.specs.ir_model.Ty.{Ty};
ghost use Rattle.pass_kept_proof.specs.ir_model.declared.module.Function.{Function};
ghost use Rattle.pass_kept_proof.specs.ir_model.declared.module.Module.{Module};
ghost use Rattle.pass_kept_proof.specs.ir_model.declared.operand.Arg.{Arg as TheArg};
ghost use Rattle.run_laws.specs.memory.Pointers.{IsValue};
ghost use Rattle.pass_kept_proof.specs.run_step.Values.{Env, arg_value, distance, element, indices_of, pointer_to, value_in};
ghost use Rattle.pass_kept_proof.specs.run_memory.declared.pointer.Value.{Value as TheValue};
ghost use Rattle.pass_kept_proof.specs.Kept.{kept};
ghost use Rattle.pass_kept_proof.specs.ir_base.declared.outcome.Outcome.{Outcome as TheOutcome};
ghost use Rattle.pass_kept_proof.specs.run_source.State.{function_of, settled, work_of};
ghost use Rattle.pass_kept_proof.specs.ir_model.Names.{function_at};
ghost use Rattle.pass_kept_proof.specs.run_source.declared.state.Mode.{Mode as TheMode};
ghost use Rattle.pass_kept_proof.specs.run_source.declared.state.State.{State as TheState};
ghost use Rattle.pass_renewed_proof.specs.Entering.{Anew, AreNext, is_named, made_all, made_anew};
ghost use Rattle.pass_kept_proof.specs.run_agreement.Machines.{iterate};
ghost use Rattle.pass_renewed_proof.specs.Renewed.{RenewedGiven, renew_after, renewed_facts, renewed_from, renewed_step, renewed_values};
ghost use Rattle.pass_kept_proof.specs.run_step.declared.world.Slot.{Slot as TheSlot};
ghost use Rattle.pass_renewed_proof.specs.SlotEnvs.{AreMadeAnew, AreRoots, AreSlotEnvs};
ghost use Rattle.pass_renewed_proof.specs.SlotRules.{AreSteady, IsMarkerAt};
ghost use Rattle.run_laws.specs.embedded.Related.{HasNoSlot, IsSameDistance};
ghost use Rattle.pass_kept_proof.specs.ir_model.declared.instr.Instr.{Instr as TheInstr};
ghost use Rattle.pass_kept_proof.specs.ir_model.declared.operand.Intrinsic.{Intrinsic as TheIntrinsic};
ghost use Rattle.pass_kept_proof.specs.ir_paths.Facts.{AreFactsOf, IsWindow};
ghost use Rattle.pass_kept_proof.specs.ir_paths.declared.point.Facts.{Facts as TheFacts};
ghost use Rattle.pass_kept_proof.specs.ir_paths.declared.point.Window.{Window as TheWindow};
ghost use Rattle.pass_kept_proof.specs.SuspendRules.{IsCallAt};
ghost use Rattle.pass_renewed_proof.specs.Left.{IsLeftBy, behind};
ghost use Rattle.frame_classes.specs.rule_slots.Closed.{IsClosed};
ghost use Rattle.pass_kept_proof.specs.ir_paths.Paths.{Leads, entry_point, has_point};
ghost use Rattle.pass_kept_proof.specs.ir_paths.Slots.{is_escaped};
ghost use Rattle.pass_kept_proof.specs.ir_paths.Windows.{IsInWindow, end_block, leaves, suspend_of};
ghost use Rattle.pass_kept_proof.specs.ir_paths.declared.point.Point.{Point};
ghost use Rattle.pass_renewed_proof.specs.Ahead.{IsBehindSuspendCall, IsUsedAhead, IsUsedBefore, IsUsedBehind, WasUsed};
ghost use Rattle.pass_renewed_proof.specs.Ready.{IsPartPlaced, IsPlaced, IsUsing, Place, faded, shown_of, stood};
ghost use Rattle.frame_classes.specs.Alive.{MayBeAlive};
ghost use Rattle.frame_classes.specs.Classes.{NeedsFrame, parting, suspends};
ghost use Rattle.frame_classes.specs.frame_slots.Spots.{IsBehind, IsStart, Spot};
ghost use Rattle.pass_kept_proof.specs.rule_windows.Sets.{IsAfterEnd};
ghost use Rattle.pass_kept_proof.specs.rule_windows.Windows.{own_edges};
ghost use Rattle.frame_classes.specs.frame_slots.Spots.{At, IsUse, point_at};
ghost use Rattle.frame_classes.specs.frame_slots.Uses.{ends_of};
ghost use Rattle.pass_kept_proof.specs.ir_base.declared.outcome.Word.{Word};
ghost use Rattle.pass_kept_proof.specs.ir_model.declared.module.Block.{Block as TheBlock};
ghost use Rattle.pass_kept_proof.specs.ir_paths.Paths.{nexts};
ghost use Rattle.pass_kept_proof.specs.Kept.{Keep};
ghost use Rattle.pass_kept_proof.specs.SuspendRules.{IsSwitched};
ghost use Rattle.pass_renewed_proof.specs.Ahead.{HasAwayUse, IsNoStart};
ghost use Rattle.pass_renewed_proof.specs.Beside.{AreOutdone, HasLeftSuspended, IsBeside, place_in};
ghost use Rattle.pass_renewed_proof.specs.Ordinary.{IsOrdinaryInstr, IsPart, with_part};
ghost use Rattle.pass_renewed_proof.specs.Entering.{AreAligned, anew_in, price_of_all};
ghost use Rattle.pass_renewed_proof.specs.Ledger.{AreEntered, AreSmallGlobals, Ledger};
ghost use Rattle.pass_renewed_proof.specs.Prices.{Prices, renewed_price, slots_from};
ghost use Rattle.pass_renewed_proof.specs.Renewed.{Flags, Roots};
ghost use Rattle.pass_renewed_proof.specs.SlotRules.{KeepsAllSlots, KeepsSlots};
ghost use Rattle.pass_renewed_proof.specs.Way.{IsBarred, IsResumedAt, WasAlive};
ghost use Rattle.pass_kept_proof.specs.run_agreement.Costs.{cost_from};
ghost use Rattle.pass_kept_proof.specs.run_source.Source.{first_state};
ghost use Rattle.pass_kept_proof.specs.ir_model.declared.operand.Allocator.{Allocator};
ghost use Rattle.pass_kept_proof.specs.ir_model.declared.operand.Callee.{Callee as TheCallee};
ghost use Rattle.pass_kept_proof.specs.ir_model.declared.operand.Operand.{Operand};
ghost use Rattle.pass_renewed_proof.specs.Found.{AreFound, IsSleeperBeside};
ghost use Rattle.pass_kept_proof.specs.run_source_tables.Given.{Given};
ghost use Rattle.pass_renewed_proof.specs.Making.{HasInstance, IsAllocaOfOther, IsAllocaOfSlot, IsAllocating, IsEndOf, IsGiving, IsMarkingOther, IsMarkingSlot, IsSaveOf, IsSuspendOf, slot_block, with_slot_of};
ghost use Rattle.run_laws.specs.embedded.Making.{IsSmall};
ghost use Rattle.pass_kept_proof.specs.ir_model.Layout.{size_of};
ghost use Rattle.pass_kept_proof.specs.run_source.Source.{Sleeper, deallocate, done_at, end_of, finish, frame_address, is_among, is_over, promise, release, sleeper_at};
ghost use Rattle.pass_kept_proof.specs.run_source.State.{gives, instance_at, next, own_instance, with_instance, with_left, with_memory, with_slots};
ghost use Rattle.pass_kept_proof.specs.run_source.declared.state.Status.{Status as TheStatus};
ghost use Rattle.pass_kept_proof.specs.run_source.declared.state.Instance.{Instance as TheInstance};
ghost use Rattle.pass_kept_proof.specs.run_step.Step.{alloca_kind, has_markers};
ghost use Rattle.pass_kept_proof.specs.run_step.Values.{arg_values, integer, nth};
ghost use Rattle.pass_renewed_proof.specs.Branching.{AreWindowsOf, IsBranching, IsCalling, IsLeaving};
ghost use Rattle.pass_renewed_proof.specs.Branching.{MayComeBack, StaysInside, returned_by};
ghost use Rattle.pass_kept_proof.specs.run_source.Source.{enter, enter_block, go_to};
ghost use Rattle.pass_kept_proof.specs.run_source.declared.state.Activation.{Activation as TheActivation};
ghost use Rattle.pass_kept_proof.specs.ir_model.declared.instr.Case.{Case as TheCase};
ghost use Rattle.pass_kept_proof.specs.ir_model.declared.instr.Terminator.{Terminator as TheTerminator};
ghost use Rattle.pass_kept_proof.specs.run_step.Runs.{seen_of};
ghost use Rattle.pass_kept_proof.specs.run_source.State.{is_suspended, own_facts, with_status};
ghost use Rattle.pass_kept_proof.specs.run_step.Step.{AtTerm, Enter, GoTo, Return};
ghost use Rattle.std.specs.Prelude.{slice_set};
ghost use Rattle.pass_renewed_proof.specs.Beside.{IsOverOf};
ghost use Rattle.pass_renewed_proof.specs.LocalSlot as local_slot;
ghost use Rattle.pass_renewed_proof.specs.RestartedSlots as restarted_slots;
ghost use Rattle.pass_renewed_proof.specs.EscapedRestart as escaped_restart;

/// Each worked run comes to the events, the outcome and the count of allocator calls of the source. One costs as much
/// as the run before it in which the resume pays for the slots.
#[tactic(none)]
pub fn renewed_runs()
    ensures local_slot { local_slot.Computes }
    ensures paid { local_slot.IsPaid }
    ensures restarted_slots { restarted_slots.Computes }
    ensures escaped_restart { escaped_restart.Computes }
{}

/// An ordinary step does the same where blocks have ended into which none of its operands leads.
pub fn ended_blocks_are_not_seen()
    ensures { (hides : ℕ → Bool) (c : Context) (w : Work) (here : Fetched) → hides (length w.world.memory) ≡ false → Each (IsShownOperand hides c w) (operands_at here) → action_of c (muted_work hides w) here ≡ muted_action hides (action_of c w here) }
{}

/// An ordinary step spreads no pointer into some blocks, where none of the operands that it may spread is one, and where the block that it makes, if any, isn't among them.
pub fn pointers_are_not_spread()
    ensures { (hides : ℕ → Bool) (c : Context) (w : Work) (here : Fetched) → ((HasNoSlot here → ⊥) → hides (length w.world.memory) ≡ false) → AreShownBlocks hides w.world.memory → Each (IsShownOperand hides c w) (spread_at here) → IsShownAction hides w.values (action_of c w here) }
{}

/// An ordinary step of the source that isn't undefined is made by the target in the same way, where no pointer is about into blocks that are hidden, and
/// where what the instruction reads stands in the target; whatever its other names have, they keep it.
pub fn read_steps_are_carried()
    ensures { (homes : List Home) (hides : ℕ → Bool) (c : Context) (w x : Work) (here : Fetched) → c.rights ≡ owner_rights → AreOver homes hides w.world x.world → ((b : ℕ) → hides b ≡ true → (home_of homes b).is_seen ≡ false) → hides (length w.world.memory) ≡ false → IsRead homes c w.values x.values here → GoesOver homes hides (given_at here) w x (action_of c w here) (action_of c x here) }
{}

/// A block of undefined bytes comes to stand in a block of the target that is ready for it, and so does a new one, whose block in the target lives at once; a block to which no pointer leads may be hidden, and the target
/// may have more blocks, and give back those in which nothing stands; and pointers to a block are no longer about where no byte is part of one.
pub fn places_change()
    ensures seated { (homes more : List Home) (m k n : List Block) (b c : ℕ) (y : Block) → Extends homes more → length homes ≤ length more → b < length more → ((d : ℕ) → d ≢ b → home_of more d ≡ home_of homes d) → home_of more b ≡ whole_home c → slice_get n c ≡ Some y → y.owned ≡ None → y.size < 2 ^ 64 → ((d : ℕ) → d ≢ b → slice_get k d ≡ slice_get m d) → ((x : Block) → slice_get k b ≡ Some x → x.size ≤ y.size) → ((x : Block) → slice_get k b ≡ Some x → is_live x.life ≡ true → IsBlank x × IsReady n c x) → IsFree homes m b c → AreStanding homes m n → AreStanding more k n }
    ensures hidden { (homes : List Home) (hides : ℕ → Bool) (m k n : List Block) (b : ℕ) → (home_of homes b).is_seen ≡ false → ((d : ℕ) → d ≢ b → slice_get k d ≡ slice_get m d) → ((x : Block) → slice_get k b ≡ Some x → (y : Block) × (slice_get m b ≡ Some y) × (y.size ≡ x.size)) → AreStanding homes (muted hides m) n → AreStanding homes (muted (hiding hides b) k) n }
    ensures fewer { (homes : List Home) (m k n : List Block) → HasFewer homes m k n → AreStanding homes m n → AreStanding homes k n }
    ensures grown { (homes : List Home) (m n k : List Block) → ((b : ℕ) → (home_of homes b).is_seen ≡ true → (y : Block) × (slice_get n (home_of homes b).block ≡ Some y)) → AreStanding homes m n → AreStanding homes m (n ++ k) }
    ensures given_back { (homes : List Home) (m n : List Block) (c : ℕ) → ((b : ℕ) (x : Block) → slice_get m b ≡ Some x → is_live x.life ≡ true → (home_of homes b).block ≢ c) → AreStanding homes m n → AreStanding homes m (with_block n c killed_block) }
    ensures made { (homes : List Home) (m n : List Block) (x : Block) (kind : TheKind) → length homes ≡ length m → x.size < 2 ^ 64 → IsBlank x → same_kind kind TheKind.Constant ≡ false → ((b : ℕ) → (home_of homes b).is_seen ≡ true → (y : Block) × (slice_get n (home_of homes b).block ≡ Some y)) → AreStanding homes m n → AreStanding (homes ++ whole_home (length n) ∷ []) (m ++ x ∷ []) (n ++ blank_block x.size x.align kind ∷ []) }
    ensures lives { (n : List Block) (size align : ℕ) (kind : TheKind) (marked : Bool) → start (if marked then end (fresh n size align kind) (length n) else fresh n size align kind) (length n) ≡ fresh n size align kind }
    ensures forgotten { (homes more : List Home) (m n : List Block) (b : ℕ) → length more ≡ length homes → ((d : ℕ) → d ≢ b → home_of more d ≡ home_of homes d) → home_of more b ≡ unseen (home_of homes b) → AreShownBlocks (λ d. d == b) m → AreStanding homes m n → AreStanding more m n }
{}

/// Where a resumed activation may come to a use of a slot, the use stands behind the suspend; a local slot that was used has no such use there, is started there only if
/// it isn't escaped, and isn't alive at the suspend if it is.
pub fn local_slots_are_parted()
    ensures behind { (f : Function) (slot : ℕ) (s : Point) (label : ℕ) → has_point (own_edges f s) (entry_point f label) ≡ true → (position_of f label ≡ end_block f → ⊥) → IsUsedAhead f slot (position_of f label) 0 → IsUsedBehind f slot s }
    ensures unused { (f : Function) (slot : ℕ) → (¬ NeedsFrame f slot) → (s : Point) → IsTrue (has_point (suspends f) s) → WasUsed f slot s → IsUsedBehind f slot s → ⊥ }
    ensures unstarted { (f : Function) (slot : ℕ) → (¬ NeedsFrame f slot) → IsTrue (is_escaped f slot) → (s : Point) → IsTrue (has_point (suspends f) s) → WasUsed f slot s → (spot : Spot) → IsStart f slot spot → IsBehind f s (parting (is_escaped f slot) f slot) spot → ⊥ }
    ensures dead { (f : Function) (slot : ℕ) → (¬ NeedsFrame f slot) → IsTrue (is_escaped f slot) → (s : Point) → IsTrue (has_point (suspends f) s) → IsUsedBefore f slot s → MayBeAlive f slot s → ⊥ }
{}

/// An ordinary step that uses slots is made by the target in the same way, where each of their blocks stands in a block that is its own, or comes to stand there
/// because it holds nothing and no pointer is about into it; no pointer into the blocks of a set is spread, and pointers into them are no longer about afterwards.
pub fn slot_steps_are_carried()
    ensures step { (homes : List Home) (hides quiet : ℕ → Bool) (ps : List Place) (c : Context) (w x : Work) (here : Fetched) → c.rights ≡ owner_rights → IsUsing homes hides quiet ps c w x here → GoesOver (stood homes ps) (shown_of hides ps) (given_at here) w x (action_of c w here) (action_of c x here) }
    ensures spread { (homes : List Home) (hides quiet : ℕ → Bool) (ps : List Place) (c : Context) (w x : Work) (here : Fetched) → IsUsing homes hides quiet ps c w x here → Each (IsShownOperand quiet c w) (spread_at here) → IsShownAction quiet w.values (action_of c w here) }
    ensures parts { (homes : List Home) (hides quiet : ℕ → Bool) (ps : List Place) (c : Context) (w x : Work) (here : Fetched) → IsUsing homes hides quiet ps c w x here → (inbounds : Bool) (v u : TheValue) (d e : Option ℕ) → IsPlaced ps v u → IsSameDistance d e → IsPartPlaced ps (element w.world.memory inbounds v d) (element x.world.memory inbounds u e) }
    ensures faded { (quiet hides : ℕ → Bool) (homes : List Home) (m n : List Block) (ps : List Place) → Each (λ (p : Place). p.block < length homes) ps → AreShownBlocks quiet m → AreStanding homes (muted hides m) n → AreStanding (faded quiet homes ps) (muted hides m) n }
{}

/// A getelementptr whose indices into structures are literals has the same distance where its indices stand for those of the source.
pub fn steady_distances_are_kept()
    ensures { (homes : List Home) (m : Module) (env other : Env) (ty : Ty) (args : List TheArg) → AreSteady m ty args → Each (λ (a : TheArg). IsValue homes (arg_value m env a) (arg_value m other a)) args → IsSameDistance (distance m ty (indices_of m env args)) (distance m ty (indices_of m other args)) }
{}

/// An activation that has left is between the save and its suspend until it comes to the suspend, to the end and behind it; what it uses there stands in a window or after the end.
pub fn left_points_go_on()
    ensures saved { (f : Function) (k s : Point) → IsCallAt TheIntrinsic.CoroSave f k → suspend_of f k ≡ Some s → Leads f [] k s → IsLeftBy f s (behind k) }
    ensures goes_on { (f : Function) (k s : Point) → IsCallAt TheIntrinsic.CoroSave f k → suspend_of f k ≡ Some s → (p : Point) (i : TheInstr) → fetch f p.block p.at ≡ AtInstr i → IsInWindow f k s p → IsLeftBy f s (behind p) }
    ensures branches { (f : Function) (k s : Point) → IsCallAt TheIntrinsic.CoroSave f k → suspend_of f k ≡ Some s → (w : TheWindow) → w.save ≡ k → w.suspend ≡ s → IsWindow f w → (p q : Point) → IsInWindow f k s p → leaves p q w ≡ false → IsLeftBy f s q }
    ensures ended { (f : Function) (p : Point) → IsCallAt TheIntrinsic.CoroEnd f p → IsAfterEnd f (record { block = p.block; at = p.at + 1 }) }
    ensures closed { (f : Function) (s p : Point) → IsCallAt TheIntrinsic.CoroSuspend f s → (IsCallAt TheIntrinsic.CoroSuspend f p → ⊥) → (IsBehindSuspendCall f p.block p.at → ⊥) → (p.block ≡ end_block f → p.at ≡ 0 → ⊥) → IsLeftBy f s p → IsClosed f p }
{}

/// Where no marker of a slot stands in the window of a save, what was used before the save or in the window was used before the suspend, and what may be alive there may be alive at the suspend.
pub fn windows_keep_slots()
    ensures used { (f : Function) (slot : ℕ) (k s : Point) → IsCallAt TheIntrinsic.CoroSave f k → suspend_of f k ≡ Some s → ((q : Point) → IsInWindow f k s q → (IsMarkerAt f TheIntrinsic.LifetimeStart slot q → ⊥) × (IsMarkerAt f TheIntrinsic.LifetimeEnd slot q → ⊥)) → Leads f [] k s → (p : Point) → (p ≡ k) ⊎ IsInWindow f k s p → IsUsedBefore f slot p → IsUsedBefore f slot s }
    ensures alive { (f : Function) (slot : ℕ) (k s : Point) → IsCallAt TheIntrinsic.CoroSave f k → suspend_of f k ≡ Some s → ((q : Point) → IsInWindow f k s q → (IsMarkerAt f TheIntrinsic.LifetimeStart slot q → ⊥) × (IsMarkerAt f TheIntrinsic.LifetimeEnd slot q → ⊥)) → Leads f [] k s → (p : Point) → (p ≡ k) ⊎ IsInWindow f k s p → MayBeAlive f slot p → MayBeAlive f slot s }
{}

/// What an activation has stands for what the source's has where values are kept, where a step gives a name that is no address in a slot, and where addresses in slots are moved to slots that were made anew.
pub fn slot_values_stand()
    ensures renewed { (homes : List Home) (roots : ℕ → Option ℕ) (env other mid : Env) → AreRoots roots → AreSlotEnvs homes roots env other → AreMadeAnew roots other mid → AreSlotEnvs homes roots env (renewed_values roots mid mid) }
    ensures kept { (homes : List Home) (roots : ℕ → Option ℕ) (keep : ℕ → Bool) (env other : Env) → ((v a : ℕ) → roots v ≡ Some a → keep a ≡ true) → AreSlotEnvs homes roots env other → AreSlotEnvs homes roots (kept keep env) (kept keep other) }
    ensures set { (homes more : List Home) (roots : ℕ → Option ℕ) (given : Option ℕ) (w x v y : Work) → Extends homes more → ((name a : ℕ) → roots name ≡ Some a → given ≡ Some name → ⊥) → AreRoots roots → AreSlotEnvs homes roots w.values x.values → AreSet more given w x v y → AreSlotEnvs more roots v.values y.values }
{}

/// A resumed activation makes a flagged slot anew in one step: it lives, is the activation's own, and the next one or the label follows; behind all of them each has the address of a block, and the other names have what they had.
pub fn slots_are_made_anew()
    ensures one { (g : RenewedGiven) (s : TheState) (from label a align : ℕ) (ty : Ty) → s.outcome ≡ TheOutcome.Running → s.top.mode ≡ TheMode.Entering from label → fetch (function_of g.given s) s.top.block s.top.at ≡ AtInstr (TheInstr.Alloca a ty align) → g.flags s.top.func a ≡ true → is_alignment align ≡ true → renewed_step g s ≡ renew_after g (made_anew g s a ty align) from label (renewed_from (g.flags s.top.func) (function_of g.given s) (s.top.at + 1)) }
    ensures all { (g : RenewedGiven) (from label : ℕ) (xs : List Anew) (at : ℕ) (s : TheState) → s.outcome ≡ TheOutcome.Running → AreNext (g.flags s.top.func) (function_of g.given s) at xs → iterate (renewed_step g) (length xs) (renew_after g s from label (renewed_from (g.flags s.top.func) (function_of g.given s) at)) ≡ renew_after g (made_all g from label s xs) from label None }
    ensures anew { (g : RenewedGiven) (from label : ℕ) (xs : List Anew) (s : TheState) (v : ℕ) → is_named xs v ≡ true → v < length s.top.values → (c : ℕ) × (value_in (made_all g from label s xs).top.values v ≡ pointer_to c) }
    ensures others { (g : RenewedGiven) (from label : ℕ) (xs : List Anew) (s : TheState) (v : ℕ) → is_named xs v ≡ false → value_in (made_all g from label s xs).top.values v ≡ value_in s.top.values v }
    ensures room { (g : RenewedGiven) (from label : ℕ) (xs : List Anew) (s : TheState) → length (made_all g from label s xs).top.values ≡ length s.top.values }
{}

/// A resumed activation stands behind its suspend until it comes to the end block. Where a slot was used before that
/// suspend, it is barred from uses of it, and of an escaped slot from starts too, up to a start of one that isn't
/// escaped. So it is where the slot has a use in a window or after the end.
pub fn resumed_activations_are_barred()
    ensures first { (f : Function) (slot : ℕ) (s r : Point) → IsTrue (has_point (suspends f) s)
        → IsTrue (has_point (own_edges f s) r) → WasUsed f slot s → IsBarred f slot r }
    ensures resumed { (f : Function) (s r : Point) → IsTrue (has_point (suspends f) s)
        → IsTrue (has_point (own_edges f s) r) → IsResumedAt f r }
    ensures more { (f : Function) (slot : ℕ) (p q : Point) → IsBarred f slot p → IsNoStart f slot p
        → (p.block ≡ end_block f → ⊥) → has_point (nexts f p) q ≡ true → IsBarred f slot q }
    ensures goes_on { (f : Function) (p q : Point) → IsResumedAt f p → (p.block ≡ end_block f → ⊥)
        → has_point (nexts f p) q ≡ true → IsResumedAt f q }
    ensures unused { (f : Function) (slot : ℕ) → (¬ NeedsFrame f slot) → (p : Point) (spot : Spot)
        → IsBarred f slot p → point_at f spot ≡ p → (p.block ≡ end_block f → ⊥) → IsUse f slot spot → ⊥ }
    ensures unstarted { (f : Function) (slot : ℕ) → (¬ NeedsFrame f slot) → IsTrue (is_escaped f slot) → (p : Point)
        → IsBarred f slot p → (p.block ≡ end_block f → ⊥) → IsStart f slot (At p) → ⊥ }
    ensures away { (f : Function) (slot : ℕ) → (¬ NeedsFrame f slot) → HasAwayUse f slot → (p : Point) (spot : Spot)
        → IsResumedAt f p → point_at f spot ≡ p → (p.block ≡ end_block f → ⊥) → IsUse f slot spot → ⊥ }
    ensures away_unstarted { (f : Function) (slot : ℕ) → (¬ NeedsFrame f slot) → IsTrue (is_escaped f slot)
        → HasAwayUse f slot → (p : Point) → IsResumedAt f p → (p.block ≡ end_block f → ⊥)
        → IsStart f slot (At p) → ⊥ }
    ensures used { (f : Function) (slot : ℕ)
        → ((s : Point) → IsCallAt TheIntrinsic.CoroSuspend f s → IsSwitched f s) → (p : Point) → IsBarred f slot p
        → WasUsed f slot p }
{}

/// A slot that may be alive stays so along an edge with no end. An escaped one that may have been alive where an
/// activation left isn't used where that activation may be.
pub fn left_activations_use_no_live_slot()
    ensures more { (f : Function) (slot : ℕ) (p q : Point) → has_point (nexts f p) q ≡ true
        → has_point (ends_of f slot) p ≡ false → MayBeAlive f slot p → MayBeAlive f slot q }
    ensures unused { (f : Function) (slot : ℕ) → (¬ NeedsFrame f slot) → IsTrue (is_escaped f slot) → (p : Point)
        → WasAlive f slot p → (IsCallAt TheIntrinsic.CoroSuspend f p → ⊥)
        → ((s : Point) → IsCallAt TheIntrinsic.CoroSuspend f s → p ≡ behind s → ⊥) → (p.block ≡ end_block f → p.at ≡ 0 → ⊥)
        → IsUse f slot (At p) → ⊥ }
{}

/// The flagged allocas of an entry block are those that a resumed activation executes, and together they cost what
/// their places do. So a resume pays for them in the meaning before.
pub fn slots_made_anew_are_paid()
    ensures slots { (flags : ℕ → Bool) (f : Function) (b : TheBlock) → slice_get f.blocks 0 ≡ Some b
        → AreAligned flags f → AreNext flags f 0 (anew_in flags 0 b.instrs) }
    ensures cost { (p : Prices) (g : RenewedGiven) (from label : ℕ) (xs : List Anew) (at : ℕ) (s : TheState)
        → s.outcome ≡ TheOutcome.Running → AreNext (g.flags s.top.func) (function_of g.given s) at xs
        → cost_from (renewed_step g) (renewed_price p g.given) (length xs)
        (renew_after g s from label (renewed_from (g.flags s.top.func) (function_of g.given s) at))
        ≡ price_of_all (p.slot s.top.func) xs }
    ensures paid { (price : ℕ → ℕ) (flags : ℕ → Bool) (at : ℕ) (instrs : List TheInstr)
        → slots_from price flags at instrs ≡ price_of_all price (anew_in flags at instrs) }
{}

/// The relation of the two meanings holds at the start, where globals are small.
pub fn states_begin_beside()
    ensures { (m : Module) (keep : Keep) (flags : Flags) (roots : Roots) → KeepsAllSlots m keep flags roots
        → (entry : ℕ) (args : List Word) → AreSmallGlobals m
        → IsBeside m flags roots (first_state m entry args) (first_state m entry args) }
{}

/// An ordinary instruction that is done in the first run is done in the second, and leads from states beside each
/// other to such states. Where the topmost activation hasn't left, none below may go on in its instance, but where
/// neither has begun one.
pub fn ordinary_steps_stay_beside()
    ensures { (m : Module) (flags : Flags) (roots : Roots)
        → ((func : ℕ) → KeepsSlots m (function_at m func) (flags func) (roots func)) → (answers : List ℤ)
        (s t : TheState) → IsBeside m flags roots s t → (i : TheInstr) → IsOrdinaryInstr m roots s.top i
        → AreOutdone s.instances s.top s.below → HasLeftSuspended s.instances s.top → (v : Work)
        → action_of (record { code = m; answers = answers; rights = owner_rights; function = function_at m s.top.func })
        (work_of s) (AtInstr i) ≡ Done v
        → (y : Work) × (action_of (record {
          code = m;
          answers = answers;
          rights = owner_rights;
          function = function_at m s.top.func;
        }) (work_of t) (AtInstr i) ≡ Done y)
        × IsBeside m flags roots (settled s v) (settled t y) }
{}

/// So does a getelementptr of an address in a slot, which gives such an address in both runs.
pub fn address_parts_stay_beside()
    ensures { (m : Module) (flags : Flags) (roots : Roots)
        → ((func : ℕ) → KeepsSlots m (function_at m func) (flags func) (roots func)) → (answers : List ℤ)
        (s t : TheState) → IsBeside m flags roots s t → (name : ℕ) (inbounds : Bool) (ty : Ty) (base : ℕ)
        (indices : List TheArg) → IsPart m roots s.top name inbounds ty base indices
        → IsBeside m flags roots (settled s (with_part m (work_of s) name inbounds ty base indices))
        (settled t (with_part m (work_of t) name inbounds ty base indices)) }
{}

/// Where a resumed activation makes its slots anew, all blocks stand where they stood, and the same ones are hidden: the
/// second run has the activation's own blocks more.
pub fn slots_made_anew_keep_all()
    ensures { (m : Module) (memory : List Block) (depth : ℕ) (tenant : ℕ → Option ℕ) (g : RenewedGiven)
        (from label : ℕ) (l : Ledger) (s : TheState) (xs : List Anew)
        → AreStanding l.homes (muted l.hides memory) s.world.memory → AreEntered m l memory s.world.memory
        → (k : Ledger) × (k.homes ≡ l.homes) × (k.hides ≡ l.hides) × (k.seats ≡ l.seats)
        × AreEntered m k memory (made_all g from label s xs).world.memory
        × AreStanding k.homes (muted k.hides memory) (made_all g from label s xs).world.memory }
{}

/// An instruction that gives a value alone leads to states beside each other, where the two values stand for one
/// another.
pub fn given_values_stay_beside()
    ensures { (m : Module) (flags : Flags) (roots : Roots)
        → ((func : ℕ) → KeepsSlots m (function_at m func) (flags func) (roots func)) → (s t : TheState)
        → (beside : IsBeside m flags roots s t) → (i : TheInstr) (result : Option ℕ) → IsGiving m roots s.top i result
        → (p q : TheValue) → IsValue beside.ledger.homes p q
        → IsBeside m flags roots (gives s result p) (gives t result q) }
{}

/// A call of an allocator that makes a block in the first run makes one in the second, and leads to states beside each
/// other. A size is one of 64 bits: an allocator could be asked for more by arguments of the entry alone.
pub fn allocators_stay_beside()
    ensures { (m : Module) (flags : Flags) (roots : Roots)
        → ((func : ℕ) → KeepsSlots m (function_at m func) (flags func) (roots func)) → (answers : List ℤ)
        (s t : TheState) → IsBeside m flags roots s t → (allocator : Allocator) (result : Option ℕ) (must_tail : Bool)
        (ty : Option Ty) (args : List TheArg) → IsAllocating m roots s.top allocator result must_tail ty args
        → IsSmall (nth (arg_values m s.top.values args) 0) → (v : Work)
        → action_of (record { code = m; answers = answers; rights = owner_rights; function = function_at m s.top.func })
        (work_of s) (AtInstr (TheInstr.Call result must_tail ty (TheCallee.Allocator allocator) args)) ≡ Done v
        → (y : Work) × (action_of (record {
          code = m;
          answers = answers;
          rights = owner_rights;
          function = function_at m s.top.func;
        }) (work_of t) (AtInstr (TheInstr.Call result must_tail ty (TheCallee.Allocator allocator) args)) ≡ Done y)
        × IsBeside m flags roots (settled s v) (settled t y) }
{}

/// Where a slot ends that may be made anew, the second run does nothing, and the states are beside each other.
pub fn ends_of_slots_stay_beside()
    ensures { (m : Module) (flags : Flags) (roots : Roots)
        → ((func : ℕ) → KeepsSlots m (function_at m func) (flags func) (roots func)) → (answers : List ℤ)
        (s t : TheState) → IsBeside m flags roots s t → (slot : ℕ) (result : Option ℕ) (must_tail : Bool)
        (ty : Option Ty) (args : List TheArg)
        → IsMarkingSlot m flags s.top TheIntrinsic.LifetimeEnd slot result must_tail ty args → (v : Work)
        → action_of (record { code = m; answers = answers; rights = owner_rights; function = function_at m s.top.func })
        (work_of s) (AtInstr (TheInstr.Call result must_tail ty (TheCallee.Intrinsic TheIntrinsic.LifetimeEnd) args))
        ≡ Done v
        → IsBeside m flags roots (settled s v) (next t) }
{}

/// Where such a slot is started, too. Where the topmost activation hasn't left, none below may go on in its instance,
/// but where neither has begun one.
pub fn starts_of_slots_stay_beside()
    ensures { (m : Module) (flags : Flags) (roots : Roots)
        → ((func : ℕ) → KeepsSlots m (function_at m func) (flags func) (roots func)) → (answers : List ℤ)
        (s t : TheState) → IsBeside m flags roots s t → (slot : ℕ) (result : Option ℕ) (must_tail : Bool)
        (ty : Option Ty) (args : List TheArg)
        → IsMarkingSlot m flags s.top TheIntrinsic.LifetimeStart slot result must_tail ty args
        → AreOutdone s.instances s.top s.below → HasLeftSuspended s.instances s.top → (v : Work)
        → action_of (record { code = m; answers = answers; rights = owner_rights; function = function_at m s.top.func })
        (work_of s) (AtInstr (TheInstr.Call result must_tail ty (TheCallee.Intrinsic TheIntrinsic.LifetimeStart) args))
        ≡ Done v
        → IsBeside m flags roots (settled s v) (next t) }
{}

/// The alloca of a slot that may be made anew makes a block in both runs, and leads to states beside each other. In the
/// second run the block lives and is the activation's; in the first it is the activation's before begin, and then the
/// instance's. An activation that has left may come to it in a window. It isn't after the end: no end comes before the
/// entry block, where the switch of a suspend leads to the end.
pub fn allocas_of_slots_stay_beside()
    ensures memory { (m : Module) (s : TheState) (ty : Ty) (align : ℕ) (marked : Bool) (n : List Block)
        → (if marked then end (fresh n (size_of m ty) align (alloca_kind (function_at m s.top.func))) (length n)
        else fresh n (size_of m ty) align (alloca_kind (function_at m s.top.func)))
        ≡ n ++ slot_block m s ty align marked ∷ [] }
    ensures early { (m : Module) (flags : Flags) (roots : Roots)
        → ((func : ℕ) → KeepsSlots m (function_at m func) (flags func) (roots func)) → (s t : TheState)
        → IsBeside m flags roots s t → (a : ℕ) (ty : Ty) (align : ℕ) → IsAllocaOfSlot m flags s.top a ty align
        → size_of m ty < 2 ^ 64 → (marked : Bool) → marked ≡ has_markers (function_at m s.top.func) a
        → s.top.instance ≡ None → s.top.has_left ≡ false
        → IsBeside m flags roots (with_slots (with_slot_of s (slot_block m s ty align marked) a)
        (record { alloca = a; block = length s.world.memory } ∷ s.top.slots))
        (with_slots (with_slot_of t (slot_block m s ty align false) a)
        (record { alloca = a; block = length t.world.memory } ∷ t.top.slots)) }
    ensures begun { (m : Module) (flags : Flags) (roots : Roots)
        → ((func : ℕ) → KeepsSlots m (function_at m func) (flags func) (roots func)) → (s t : TheState)
        → IsBeside m flags roots s t → (a : ℕ) (ty : Ty) (align : ℕ) → IsAllocaOfSlot m flags s.top a ty align
        → size_of m ty < 2 ^ 64 → (marked : Bool) → marked ≡ has_markers (function_at m s.top.func) a
        → (i : ℕ) (x : TheInstance) → s.top.instance ≡ Some i → slice_get s.instances i ≡ Some x
        → is_over x ≡ false
        → (s.top.has_left ≡ true → IsAfterEnd (function_at m s.top.func) (place_in s.top) → ⊥)
        → x.coroutine ≡ s.top.func
        → IsBeside m flags roots (with_instance (with_slot_of s (slot_block m s ty align marked) a) i
        (record x { slots = record { alloca = a; block = length s.world.memory } ∷ x.slots }))
        (with_slots (with_slot_of t (slot_block m s ty align false) a)
        (record { alloca = a; block = length t.world.memory } ∷ t.top.slots)) }
    ensures entry { (m : Module) (f : Function) (flags : ℕ → Bool) (roots : ℕ → Option ℕ) → KeepsSlots m f flags roots
        → (u : Point) → IsCallAt TheIntrinsic.CoroSuspend f u → (arg : TheArg) (label : ℕ) (cases : List TheCase)
        → fetch f u.block (u.at + 1) ≡ AtTerm (TheTerminator.Switch arg label cases) → (p : Point) → p.block ≡ 0
        → IsAfterEnd f p → ⊥ }
{}

/// The alloca of any other slot does the same in both runs. It becomes the activation's in both, or the instance's.
pub fn other_allocas_stay_beside()
    ensures own { (m : Module) (flags : Flags) (roots : Roots)
        → ((func : ℕ) → KeepsSlots m (function_at m func) (flags func) (roots func)) → (s t : TheState)
        → IsBeside m flags roots s t → (a : ℕ) (ty : Ty) (align : ℕ) → IsAllocaOfOther m flags roots s.top a ty align
        → size_of m ty < 2 ^ 64 → (marked : Bool)
        → IsBeside m flags roots (with_slots (with_slot_of s (slot_block m s ty align marked) a)
        (record { alloca = a; block = length s.world.memory } ∷ s.top.slots))
        (with_slots (with_slot_of t (slot_block m s ty align marked) a)
        (record { alloca = a; block = length t.world.memory } ∷ t.top.slots)) }
    ensures instance { (m : Module) (flags : Flags) (roots : Roots)
        → ((func : ℕ) → KeepsSlots m (function_at m func) (flags func) (roots func)) → (s t : TheState)
        → IsBeside m flags roots s t → (a : ℕ) (ty : Ty) (align : ℕ) → IsAllocaOfOther m flags roots s.top a ty align
        → size_of m ty < 2 ^ 64 → (marked : Bool) → (i : ℕ) (x y : TheInstance) → slice_get s.instances i ≡ Some x
        → slice_get t.instances i ≡ Some y → flags x.coroutine a ≡ false
        → IsBeside m flags roots (with_instance (with_slot_of s (slot_block m s ty align marked) a) i
        (record x { slots = record { alloca = a; block = length s.world.memory } ∷ x.slots }))
        (with_instance (with_slot_of t (slot_block m s ty align marked) a) i
        (record y { slots = record { alloca = a; block = length t.world.memory } ∷ y.slots })) }
{}

/// A save leaves the instance Suspended in both runs, with what the activation has in each, and the activation has
/// left. No other activation may go on in that instance.
pub fn saves_stay_beside()
    ensures { (m : Module) (flags : Flags) (roots : Roots)
        → ((func : ℕ) → KeepsSlots m (function_at m func) (flags func) (roots func)) → (s t : TheState)
        → IsBeside m flags roots s t → (i : TheInstr) (suspend : Point) → IsSaveOf m s.top i suspend → (n : ℕ)
        (x y : TheInstance) → s.top.instance ≡ Some n → slice_get s.instances n ≡ Some x
        → slice_get t.instances n ≡ Some y → x.coroutine ≡ s.top.func → x.freed ≡ false
        → AreOutdone s.instances s.top s.below
        → IsBeside m flags roots (next (with_left (with_instance s n (record x {
          status = TheStatus.Suspended suspend s.top.values;
          last_save = Some (record { depth = length s.below; save = place_in s.top });
        })) true)) (next (with_left (with_instance t n (record y {
          status = TheStatus.Suspended suspend t.top.values;
          last_save = Some (record { depth = length s.below; save = place_in s.top });
        })) true)) }
{}

/// Where the topmost activation has an instance, the second run's has the one beside it, and its frame address stands
/// for the first's. So has a frame address an instance in both.
pub fn own_instances_are_beside()
    ensures own { (m : Module) (flags : Flags) (roots : Roots) (s t : TheState) → (beside : IsBeside m flags roots s t)
        → AreFound m flags roots beside.ledger s.world.memory (own_instance s) (own_instance t) }
    ensures address { (m : Module) (flags : Flags) (roots : Roots) (s t : TheState)
        → (beside : IsBeside m flags roots s t)
        → IsValue beside.ledger.homes (frame_address (own_instance s)) (frame_address (own_instance t)) }
    ensures found { (m : Module) (flags : Flags) (roots : Roots) (s t : TheState)
        → (beside : IsBeside m flags roots s t) → (p q : TheValue) → IsValue beside.ledger.homes p q
        → (r : ℕ × TheInstance) → instance_at s.instances p ≡ Some r
        → AreFound m flags roots beside.ledger s.world.memory (Some r) (instance_at t.instances q) }
{}

/// coro.free marks the instance released in both runs, and gives its frame address.
pub fn frees_stay_beside()
    ensures { (m : Module) (flags : Flags) (roots : Roots)
        → ((func : ℕ) → KeepsSlots m (function_at m func) (flags func) (roots func)) → (s t : TheState)
        → IsBeside m flags roots s t → (i : TheInstr) (result : Option ℕ) → IsGiving m roots s.top i result
        → IsBeside m flags roots (gives (release s) result (frame_address (own_instance s)))
        (gives (release t) result (frame_address (own_instance t))) }
{}

/// The suspended instance of a frame address is suspended in both runs, at one suspend, and coro.done says the same of
/// it.
pub fn sleepers_are_beside()
    ensures found { (m : Module) (flags : Flags) (roots : Roots) (s t : TheState)
        → (beside : IsBeside m flags roots s t) → (p q : TheValue) → IsValue beside.ledger.homes p q → (y : Sleeper)
        → sleeper_at s p ≡ Ok y
        → (z : Sleeper) × (sleeper_at t q ≡ Ok z)
        × IsSleeperBeside m flags roots beside.ledger s.world.memory y z }
    ensures done { (m : Module) (flags : Flags) (roots : Roots)
        → ((func : ℕ) → KeepsSlots m (function_at m func) (flags func) (roots func)) → (s t : TheState)
        → (beside : IsBeside m flags roots s t) → (i : TheInstr) (result : Option ℕ) → IsGiving m roots s.top i result
        → (g h : Given) → h.code ≡ g.code → (p q : TheValue) → IsValue beside.ledger.homes p q → (after : TheState)
        → done_at g s result p ≡ Ok after
        → (other : TheState) × (done_at h t result q ≡ Ok other) × IsBeside m flags roots after other }
{}

// ---- markers of other slots, deallocations and the end

/// Where a slot is started or ends that isn't made anew, both runs do it, and the states are beside each other.
pub fn other_markers_stay_beside()
    ensures starts { (m : Module) (flags : Flags) (roots : Roots) (answers : List ℤ) (s t : TheState)
        → IsBeside m flags roots s t → (slot : ℕ) (result : Option ℕ) (must_tail : Bool) (ty : Option Ty)
        (args : List TheArg) → IsMarkingOther m flags roots s.top TheIntrinsic.LifetimeStart slot result must_tail ty args
        → (v : Work)
        → action_of (record { code = m; answers = answers; rights = owner_rights; function = function_at m s.top.func })
        (work_of s) (AtInstr (TheInstr.Call result must_tail ty (TheCallee.Intrinsic TheIntrinsic.LifetimeStart) args))
        ≡ Done v
        → (y : Work) × (action_of (record {
          code = m;
          answers = answers;
          rights = owner_rights;
          function = function_at m s.top.func;
        }) (work_of t) (AtInstr (TheInstr.Call result must_tail ty (TheCallee.Intrinsic TheIntrinsic.LifetimeStart) args))
        ≡ Done y)
        × IsBeside m flags roots (settled s v) (settled t y) }
    ensures ends { (m : Module) (flags : Flags) (roots : Roots) (answers : List ℤ) (s t : TheState)
        → IsBeside m flags roots s t → (slot : ℕ) (result : Option ℕ) (must_tail : Bool) (ty : Option Ty)
        (args : List TheArg) → IsMarkingOther m flags roots s.top TheIntrinsic.LifetimeEnd slot result must_tail ty args
        → (v : Work)
        → action_of (record { code = m; answers = answers; rights = owner_rights; function = function_at m s.top.func })
        (work_of s) (AtInstr (TheInstr.Call result must_tail ty (TheCallee.Intrinsic TheIntrinsic.LifetimeEnd) args))
        ≡ Done v
        → (y : Work) × (action_of (record {
          code = m;
          answers = answers;
          rights = owner_rights;
          function = function_at m s.top.func;
        }) (work_of t) (AtInstr (TheInstr.Call result must_tail ty (TheCallee.Intrinsic TheIntrinsic.LifetimeEnd) args))
        ≡ Done y)
        × IsBeside m flags roots (settled s v) (settled t y) }
{}

/// A deallocation that isn't undefined in the first run is none in the second. The block of an allocator dies in both,
/// and with its frame an instance is let go.
pub fn deallocations_stay_beside()
    ensures { (m : Module) (flags : Flags) (roots : Roots)
        → ((func : ℕ) → KeepsSlots m (function_at m func) (flags func) (roots func)) → (i : TheInstr) (s t : TheState)
        → (beside : IsBeside m flags roots s t) → IsGiving m roots s.top i None → (p q : TheValue)
        → IsValue beside.ledger.homes p q → (after : TheState) → deallocate s p ≡ Ok after
        → (other : TheState) × (deallocate t q ≡ Ok other) × IsBeside m flags roots after other }
{}

/// At the end the instance is over in both runs, and its slots die. An activation that wasn't resumed goes on behind
/// it.
pub fn coroutine_ends_stay_beside()
    ensures finished { (m : Module) (flags : Flags) (roots : Roots) (s t : TheState) → IsBeside m flags roots s t
        → IsBeside m flags roots (finish s) (finish t) }
    ensures goes_on { (m : Module) (flags : Flags) (roots : Roots)
        → ((func : ℕ) → KeepsSlots m (function_at m func) (flags func) (roots func)) → (s t : TheState)
        → IsBeside m flags roots s t → (i : TheInstr) (result : Option ℕ) → IsEndOf m roots s.top i result
        → HasInstance s.instances s.top → (after : TheState) → end_of s finish result ≡ Ok after
        → (other : TheState) × (end_of t finish result ≡ Ok other) × IsBeside m flags roots after other }
{}

/// coro.promise gives what stands for the first run's address, from a frame to its promise and back.
pub fn promises_stay_beside()
    ensures { (m : Module) (flags : Flags) (roots : Roots)
        → ((func : ℕ) → KeepsSlots m (function_at m func) (flags func) (roots func)) → (s t : TheState)
        → (beside : IsBeside m flags roots s t) → (g h : Given) → g.code ≡ m → h.code ≡ m → (i : TheInstr)
        (result : Option ℕ) → IsGiving m roots s.top i result → (p q : TheValue) → IsValue beside.ledger.homes p q
        → (from : Operand) (v : TheValue) → promise g s p from ≡ Ok v
        → (w : TheValue) × (promise h t q from ≡ Ok w) × IsBeside m flags roots (gives s result v) (gives t result w) }
{}

/// A suspend without a token leaves the instance Suspended at itself in both runs, and gives -1.
pub fn suspends_stay_beside()
    ensures { (m : Module) (flags : Flags) (roots : Roots)
        → ((func : ℕ) → KeepsSlots m (function_at m func) (flags func) (roots func)) → (s t : TheState)
        → IsBeside m flags roots s t → (i : TheInstr) (result : Option ℕ) → IsSuspendOf m roots s.top i result → (n : ℕ)
        (x y : TheInstance) → s.top.instance ≡ Some n → slice_get s.instances n ≡ Some x
        → slice_get t.instances n ≡ Some y → x.coroutine ≡ s.top.func → x.freed ≡ false
        → AreOutdone s.instances s.top s.below
        → IsBeside m flags roots (gives (with_left (with_instance s n (record x {
          status = TheStatus.Suspended (place_in s.top) s.top.values;
          last_save = Some (record { depth = length s.below; save = place_in s.top });
        })) true) result (integer 8 (negsuc 0))) (gives (with_left (with_instance t n (record y {
          status = TheStatus.Suspended (place_in s.top) t.top.values;
          last_save = Some (record { depth = length s.below; save = place_in s.top });
        })) true) result (integer 8 (negsuc 0))) }
{}

/// The alloca of a slot that may be made anew may come to an instance that is over. The slot is dead at once in the
/// first run. In the second its block lives, and is the activation's.
pub fn late_allocas_stay_beside()
    ensures { (m : Module) (flags : Flags) (roots : Roots)
        → ((func : ℕ) → KeepsSlots m (function_at m func) (flags func) (roots func)) → (s t : TheState)
        → IsBeside m flags roots s t → (a : ℕ) (ty : Ty) (align : ℕ) → IsAllocaOfSlot m flags s.top a ty align
        → size_of m ty < 2 ^ 64 → (marked : Bool) → (i : ℕ) (x : TheInstance) → s.top.instance ≡ Some i
        → slice_get s.instances i ≡ Some x → x.coroutine ≡ s.top.func
        → IsBeside m flags roots (with_memory (with_instance (with_slot_of s (slot_block m s ty align marked) a) i
        (record x { slots = record { alloca = a; block = length s.world.memory } ∷ x.slots }))
        (killed (s.world.memory ++ slot_block m s ty align marked ∷ []) (length s.world.memory)))
        (with_slots (with_slot_of t (slot_block m s ty align false) a)
        (record { alloca = a; block = length t.world.memory } ∷ t.top.slots)) }
{}

/// A slot that may be made anew is no ramp slot in the first run, so it becomes its instance's. It is one in the
/// second. Of any other slot both say the same.
pub fn renewed_slots_are_ramp_slots()
    ensures first { (m : Module) (f : Function) (flags : ℕ → Bool) (roots : ℕ → Option ℕ) → KeepsSlots m f flags roots
        → (slot : TheSlot) → IsTrue (flags slot.alloca) → (facts : TheFacts) → AreFactsOf f facts
        → is_among facts.ramp_slots slot ≡ false }
    ensures second { (m : Module) (f : Function) (flags : ℕ → Bool) (roots : ℕ → Option ℕ) → KeepsSlots m f flags roots
        → (facts : TheFacts) (slot : TheSlot) → IsTrue (flags slot.alloca)
        → is_among (renewed_facts flags f facts).ramp_slots slot ≡ true }
    ensures others { (f : Function) (flags : ℕ → Bool) (facts : TheFacts) (slot : TheSlot) → flags slot.alloca ≡ false
        → is_among (renewed_facts flags f facts).ramp_slots slot ≡ is_among facts.ramp_slots slot }
{}

// ---- control flow

/// A branch goes to one label in both runs. Where it leaves no window it leads to states beside each other, with the
/// values of the phis that it comes to. The switch of a suspend goes on to the end. Where the topmost activation hasn't
/// left, none below may go on in its instance, but where neither has begun one.
pub fn branches_stay_beside()
    ensures label { (m : Module) (flags : Flags) (roots : Roots) (s t : TheState) → IsBeside m flags roots s t
        → (answers : List ℤ) (label : ℕ) (term : TheTerminator)
        → action_of (record { code = m; answers = answers; rights = owner_rights; function = function_at m s.top.func })
        (work_of s) (AtTerm term) ≡ GoTo label
        → action_of (record { code = m; answers = answers; rights = owner_rights; function = function_at m s.top.func })
        (work_of t) (AtTerm term) ≡ GoTo label }
    ensures entered { (flags : Flags) (roots : Roots) (g h : Given) → h.code ≡ g.code
        → ((func : ℕ) → KeepsSlots g.code (function_at g.code func) (flags func) (roots func)) → (s t : TheState)
        → IsBeside g.code flags roots s t → (label : ℕ) → IsBranching g.code s.top label
        → (s.top.has_left ≡ true
        → StaysInside (function_of g s) (place_in s.top) (entry_point (function_of g s) label))
        → AreOutdone s.instances s.top s.below → HasLeftSuspended s.instances s.top
        → IsBeside g.code flags roots (enter_block g s label) (enter_block h t label) }
{}

/// So does a branch that leaves a window, where the instance is Suspended by the activation's own save. It is Running
/// again, and the activation hasn't left any more.
pub fn leaving_branches_stay_beside()
    ensures { (flags : Flags) (roots : Roots) (g h : Given) → h.code ≡ g.code
        → ((func : ℕ) → KeepsSlots g.code (function_at g.code func) (flags func) (roots func)) → (s t : TheState)
        → IsBeside g.code flags roots s t → (label : ℕ) → IsBranching g.code s.top label
        → IsLeaving (function_of g s) (place_in s.top) (entry_point (function_of g s) label) → (n : ℕ)
        (x y : TheInstance) → MayComeBack s.instances (length s.below) s.top n x → slice_get t.instances n ≡ Some y
        → AreOutdone (slice_set s.instances n (record x { status = TheStatus.Running })) (record s.top {
          has_left = false;
        }) s.below
        → IsBeside g.code flags roots (enter_block g (with_left (with_status s n x TheStatus.Running) false) label)
        (enter_block h (with_left (with_status t n y TheStatus.Running) false) label) }
{}

/// So a step that goes to a label does so in both runs. Before the step and behind it: where the topmost activation
/// hasn't left, none below may go on in its instance, but where neither has begun one.
pub fn labels_are_reached_beside()
    ensures { (flags : Flags) (roots : Roots) (g h : Given) → h.code ≡ g.code
        → ((func : ℕ) → KeepsSlots g.code (function_at g.code func) (flags func) (roots func)) → (s t : TheState)
        → IsBeside g.code flags roots s t → (label : ℕ) → IsBranching g.code s.top label
        → AreWindowsOf (function_of g s) (own_facts g s).windows
        → (own_facts h t).windows ≡ (own_facts g s).windows → AreOutdone s.instances s.top s.below
        → HasLeftSuspended s.instances s.top → (after : TheState) → AreOutdone after.instances after.top s.below
        → go_to g s label ≡ Ok after
        → (other : TheState) × (go_to h t label ≡ Ok other) × IsBeside g.code flags roots after other }
{}

/// A call of a defined function enters it in both runs, with arguments that stand for one another.
pub fn calls_stay_beside()
    ensures { (flags : Flags) (roots : Roots) (g h : Given) → h.code ≡ g.code
        → ((func : ℕ) → KeepsSlots g.code (function_at g.code func) (flags func) (roots func)) → (answers : List ℤ)
        (s t : TheState) → IsBeside g.code flags roots s t → (result : Option ℕ) (must_tail : Bool) (ty : Option Ty)
        (callee : TheCallee) (args : List TheArg) → IsCalling g.code roots s.top result must_tail ty callee args
        → AreOutdone s.instances s.top s.below → HasLeftSuspended s.instances s.top → (func : ℕ) (vs : List TheValue)
        (other : Option ℕ) (tail : Bool)
        → action_of (record { code = g.code; answers = answers; rights = owner_rights; function = function_of g s })
        (work_of s) (AtInstr (TheInstr.Call result must_tail ty callee args)) ≡ Enter func vs other tail
        → (ws : List TheValue) × (action_of (record {
          code = g.code;
          answers = answers;
          rights = owner_rights;
          function = function_of g s;
        }) (work_of t) (AtInstr (TheInstr.Call result must_tail ty callee args)) ≡ Enter func ws other tail)
        × IsBeside g.code flags roots (enter g s func vs other) (enter h t func ws other) }
{}

/// A return leads back to the caller in both runs, or ends both. The slots of the activation die, and its caller is
/// given values that stand for one another.
pub fn returns_stay_beside()
    ensures caller { (m : Module) (flags : Flags) (roots : Roots)
        → ((func : ℕ) → KeepsSlots m (function_at m func) (flags func) (roots func)) → (s t : TheState)
        → IsBeside m flags roots s t → (arg : Option TheArg)
        → fetch (function_at m s.top.func) s.top.block s.top.at ≡ AtTerm (TheTerminator.Ret arg)
        → AreOutdone s.instances s.top s.below → HasLeftSuspended s.instances s.top → (a : TheActivation)
        (below : List TheActivation) → s.below ≡ a ∷ below → (answers : List ℤ) (v : Option TheValue)
        → action_of (record { code = m; answers = answers; rights = owner_rights; function = function_at m s.top.func })
        (work_of s) (AtTerm (TheTerminator.Ret arg)) ≡ Return v → (after : TheState) → returned_by s v ≡ Ok after
        → (u : Option TheValue) × (other : TheState) × (action_of (record {
          code = m;
          answers = answers;
          rights = owner_rights;
          function = function_at m s.top.func;
        }) (work_of t) (AtTerm (TheTerminator.Ret arg)) ≡ Return u) × (returned_by t u ≡ Ok other)
        × IsBeside m flags roots after other }
    ensures run { (m : Module) (flags : Flags) (roots : Roots)
        → ((func : ℕ) → KeepsSlots m (function_at m func) (flags func) (roots func)) → (s t : TheState)
        → IsBeside m flags roots s t → (arg : Option TheArg)
        → fetch (function_at m s.top.func) s.top.block s.top.at ≡ AtTerm (TheTerminator.Ret arg) → s.below ≡ []
        → (answers : List ℤ) (v : Option TheValue)
        → action_of (record { code = m; answers = answers; rights = owner_rights; function = function_at m s.top.func })
        (work_of s) (AtTerm (TheTerminator.Ret arg)) ≡ Return v → (after : TheState) → returned_by s v ≡ Ok after
        → (u : Option TheValue) × (other : TheState) × (action_of (record {
          code = m;
          answers = answers;
          rights = owner_rights;
          function = function_at m s.top.func;
        }) (work_of t) (AtTerm (TheTerminator.Ret arg)) ≡ Return u) × (returned_by t u ≡ Ok other)
        × (seen_of m other.world other.outcome ≡ seen_of m after.world after.outcome) }
{}

/// So does an activation that returns nothing, as a resumed one does at the end, wherever it stands. It has left, or
/// the instance is over.
pub fn ends_lead_back_beside()
    ensures { (m : Module) (flags : Flags) (roots : Roots)
        → ((func : ℕ) → KeepsSlots m (function_at m func) (flags func) (roots func)) → (s t : TheState)
        → IsBeside m flags roots s t
        → (s.top.instance ≢ None → s.top.has_left ≡ false → IsOverOf s.instances s.top)
        → AreOutdone s.instances s.top s.below → HasLeftSuspended s.instances s.top → (a : TheActivation)
        (below : List TheActivation) → s.below ≡ a ∷ below → (after : TheState) → returned_by s None ≡ Ok after
        → (other : TheState) × (returned_by t None ≡ Ok other) × IsBeside m flags roots after other }
{}

/// Where an instance is resumed or destroyed it is Running in both runs, and the resumer goes on behind its call.
pub fn resumers_stay_beside()
    ensures { (m : Module) (flags : Flags) (roots : Roots)
        → ((func : ℕ) → KeepsSlots m (function_at m func) (flags func) (roots func)) → (s t : TheState)
        → IsBeside m flags roots s t → (i : TheInstr) → IsGiving m roots s.top i None → (n : ℕ) (x y : TheInstance)
        → slice_get s.instances n ≡ Some x → is_suspended x.status ≡ true → slice_get t.instances n ≡ Some y
        → IsBeside m flags roots (with_status (next s) n x TheStatus.Running)
        (with_status (next t) n y TheStatus.Running) }
{}
