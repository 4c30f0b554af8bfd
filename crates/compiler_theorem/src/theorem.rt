//! What is lowered of a source agrees with it, within the source's step factor: the passes that are proved, in a row
//! with those that are premises yet.

ghost use Rattle.compiler.specs.Lowering.{IsLowering};
ghost use Rattle.compiler.specs.Printed.{AllFew};
ghost use Rattle.compiler.specs.declared.lowered.Lowered.{Lowered as TheLowered};
ghost use Rattle.compiler.specs.declared.lowered.Lowering.{Lowering as TheLowering};
ghost use Rattle.compiler_theorem.specs.theorem.Texts.{KeepsTexts};
ghost use Rattle.compiler.specs.ir_base.declared.status.Options.{Options as TheOptions};
ghost use Rattle.compiler.specs.text_canonical.grammar.Bytes.{AreBytes as IsOfBytes};
ghost use Rattle.compiler.specs.run_framed.Framed.{begin_name};
ghost use Rattle.pass_frames_meaning.specs.Led.{IsBegunOnce};
ghost use Rattle.compiler.specs.ir_laws.facts.sound_states.Named.{HasNamedLocals};
ghost use Rattle.compiler.specs.run_source.declared.state.State.{State};
ghost use Rattle.compiler_theorem.specs.theorem.Anew.{Anew, IsAnewOf};
ghost use Rattle.compiler_theorem.specs.theorem.Asked.{asking};
ghost use Rattle.compiler_theorem.specs.theorem.Built.{building};
ghost use Rattle.compiler_theorem.specs.theorem.Entries.{IsEntry, IsEntryCall, Run};
ghost use Rattle.compiler_theorem.specs.theorem.Lowered.{AreAllocasFirst, HasFewBytes, Lowered, IsLowered, early, edged, kept_run, price_kept, printed_from, sizes_of, source_run};
ghost use Rattle.compiler.specs.ir_model.declared.module.Module.{Module};
ghost use Rattle.compiler.specs.frame_layout.declared.layout.Layouts.{Layouts};
ghost use Rattle.compiler.specs.pass_frames.Framed.{IsFramedForm};
ghost use Rattle.std.specs.Prelude.{◌≡◌, ◌+◌, ◌*◌, ◌<◌, ◌≤◌, ◌^◌, ℕ, ℤ, false, List, Some, length, slice_get, true};
ghost use Rattle.pass_frames_meaning.specs.run_types.States.{AreArguments};
ghost use Rattle.pass_frames_meaning.specs.Blank.{IsBlankState};
ghost use Rattle.pass_frames_meaning.specs.Covered.{AreCoveredStepsFollowed};
ghost use Rattle.pass_frames_meaning.specs.Setting.{KeepsAll};
ghost use Rattle.pass_frames_meaning.specs.pass_frames_proof.Related.{AreBuilt, AreBuiltOf};
ghost use Rattle.pass_frames_meaning.specs.pass_frames_proof.Stepping.{AreGiven};
ghost use Rattle.compiler_theorem.specs.theorem.Between.{renewing, setting};
ghost use Rattle.compiler_theorem.specs.theorem.Theorem.{AreMadeAnew, KeepsMeaning, KeepsRuns, prices_of};
ghost use Rattle.compiler_theorem.specs.theorem.Elision.{ElidedSteps, ElidesCalls};
ghost use Rattle.compiler_theorem.specs.theorem.Rows.{joined};
ghost use Rattle.compiler_theorem.specs.theorem.SharedBytes.{HasField, StandAt};
ghost use Rattle.compiler_theorem.specs.theorem.KeptFields.{AreFieldsKept, KeepSmallOffsets};
ghost use Rattle.compiler_theorem.specs.theorem.SharedBytes as shown;
ghost use Rattle.compiler.specs.pass_cells.declared.plan.KeptValue.{KeptValue};
ghost use Rattle.compiler.specs.run_framed.Framed.{framed_state_at, layout_of};
ghost use Rattle.compiler.specs.run_memory.declared.pointer.Offset.{Offset};
ghost use Rattle.compiler.specs.run_memory.declared.pointer.Pointer.{Pointer};
ghost use Rattle.compiler_theorem.specs.theorem.ShownSlots.{AreFieldsShown, AreSlotsShown, step_homes};
ghost use Rattle.compiler_theorem.specs.theorem.Suspended.{IsDistanceKept, IsFieldKept, IsSuspendedAlike, IsSuspendedAs, IsValueKept};
ghost use Rattle.compiler.specs.ir_model.declared.module.Frame.{Frame};
ghost use Rattle.compiler.specs.ir_paths.declared.point.Point.{Point};
ghost use Rattle.compiler.specs.pass_proofs.kept.sources.Beside.{IsKeptOf};
ghost use Rattle.compiler.specs.run_step.Values.{Env, value_in};
ghost use Rattle.compiler.specs.run_agreement.Costs.{cost_at};
ghost use Rattle.pass_frames_prices.specs.FramePrices.{frames_factor};
ghost use Rattle.compiler.specs.run_agreement.Machines.{IsFine, at, state_at};
ghost use Rattle.compiler.specs.frame_classes.Classes.{IsOf};
ghost use Rattle.compiler.specs.frame_classes.declared.class.SlotClass.{SlotClass};
ghost use Rattle.compiler.specs.frame_contents.Frames.{AreContents};
ghost use Rattle.compiler.specs.frame_contents.declared.contents.Contents.{Contents};
ghost use Rattle.compiler.specs.ir_model.Names.{function_at};
ghost use Rattle.compiler.specs.ir_model.declared.module.Function.{Function};
ghost use Rattle.compiler.specs.rule_laws.rules.function_rules.Kept.{KeepsFunctionRules};
ghost use Rattle.compiler.specs.run_laws.memory.Pointers.{AreBytes, Home, IsValue};
ghost use Rattle.compiler.specs.run_memory.declared.block.Byte.{Byte};
ghost use Rattle.compiler.specs.run_memory.Memory.{Rights, decode, digits, encode};
ghost use Rattle.compiler.specs.run_memory.declared.block.MemoryBlock.{MemoryBlock};
ghost use Rattle.compiler.specs.run_laws.access.Lines.{Holds};
ghost use Rattle.compiler.specs.run_memory.declared.pointer.Access.{Access};
ghost use Rattle.compiler.specs.run_memory.declared.pointer.Value.{Value};
ghost use Rattle.pass_frames_meaning.specs.run_types.Fitting as fitting;

/// Relations between states of the framed run and of that where calls are elided.
pub trait RelatesElided {
    ghost elided: { Lowered → Module → Run → State → State → Type 0 };

    ghost eliding: { Lowered → Module → Run → State → State → Type 0 };
}

/// In a framed form the entry of each coroutine begins with its allocas.
pub fn allocas_stand_first_in_framed_forms()
    ensures { (layouts : Layouts) (m n : Module) → IsFramedForm layouts m n → AreAllocasFirst n }
{}

/// An accepted source has tables of what a resume hands on and of the slots that its activation makes anew: those of its
/// frames' contents.
pub fn sources_have_tables()
    ensures { (l : Lowered) → IsLowered l → (a : Anew) × IsAnewOf (early l) a }
{}

/// The framed form of an accepted source is built by what its coroutines were framed by.
pub fn sources_are_built()
    ensures { (l : Lowered) (low : IsLowered l) (answers : List ℤ) → AreBuilt (building l low.is_framed answers) }
{}

/// What the steps of frames ask of what the two runs are given holds of it.
pub fn sources_give_frames()
    ensures { (l : Lowered) (low : IsLowered l) (a : Anew) (r : Run)
        → AreGiven (building l low.is_framed r.answers) (renewing l a r) }
{}

/// What laws on single steps of frames ask of the two modules holds of an accepted source.
pub fn sources_keep_rules_of_frames()
    ensures { (l : Lowered) (low : IsLowered l) → HasFewBytes l → (a : Anew) → IsAnewOf (early l) a → (r : Run)
        → KeepsAll (asking l low a r) }
{}

/// Begin alone gives its name, in a function that breaks no rule.
pub fn begin_gives_its_name_once()
    ensures { (m : Module) (k : ℕ) (f : Function) → KeepsFunctionRules m k f → HasNamedLocals f → (v : ℕ)
        → begin_name f ≡ Some v → IsBegunOnce f v }
{}

/// Each step from a covered state of an accepted source is followed in its framed form.
pub fn steps_of_sources_are_followed()
    ensures { (l : Lowered) (low : IsLowered l) → HasFewBytes l → (a : Anew) → IsAnewOf (early l) a → (r : Run)
        → IsEntryCall l.source r → AreCoveredStepsFollowed (setting l a r)
        (building l low.is_framed r.answers) (IsBlankState (asking l low a r)) }
{}

/// The prices of a run of an accepted source, in which a resume hands on values, are at most 4 times the factor of frames
/// for each step. That counts the names of the function that has most, those of tokens and of begin apart.
pub fn runs_of_sources_are_paid()
    ensures { (l : Lowered) (low : IsLowered l) → HasFewBytes l → (a : Anew) → IsAnewOf (early l) a → (r : Run)
        → IsEntryCall l.source r → (n : ℕ) → IsFine (at (kept_run l a r) n).outcome
        → cost_at (kept_run l a r) (price_kept l a r (prices_of l low a)) n ≤ (4 * frames_factor l.source) * n }
{}

/// Bytes and values that stand for others in a row of memories stand for them by the joined homes.
pub fn homes_in_a_row_join()
    ensures bytes { (homes more : List Home) (xs ys zs : List Byte) → AreBytes homes xs ys → AreBytes more ys zs
        → AreBytes (joined homes more) xs zs }
    ensures values { (homes more : List Home) (u v w : Value) → IsValue homes u v → IsValue more v w
        → IsValue (joined homes more) u w }
{}

/// Bytes from which what stands for a value is loaded stand for what is stored for it, and those from which a
/// distance is loaded are its digits.
pub fn loaded_bytes_stand()
    ensures values { (homes : List Home) (what : Access) (v : Value) (size : ℕ) (bytes : List Byte)
        → fitting.AreBytes bytes → length bytes ≡ size → IsValue homes v (decode what bytes)
        → AreBytes homes (encode size v) bytes }
    ensures distances { (homes : List Home) (size bits : ℕ) (bytes : List Byte) → fitting.AreBytes bytes
        → length bytes ≡ size → decode (Access.Int 64) bytes ≡ Value.Int (record { width = 64; bits = bits })
        → AreBytes homes (digits size bits) bytes }
{}

/// A range of a frame's block from which what stands for a value is loaded stands for the value's bytes, and one from
/// which a distance is loaded has its digits.
pub fn held_values_stand()
    ensures values { (rights : Rights) (memory : List MemoryBlock) (b o most : ℕ) (bytes : List Byte)
        (block : MemoryBlock) → fitting.HaveBytes memory → Holds rights memory b o most bytes
        → slice_get memory b ≡ Some block → (homes : List Home) (what : Access) (v : Value) (size : ℕ)
        → length bytes ≡ size → IsValue homes v (decode what bytes) → StandAt homes (encode size v) block o }
    ensures distances { (rights : Rights) (memory : List MemoryBlock) (b o most : ℕ) (bytes : List Byte)
        (block : MemoryBlock) → fitting.HaveBytes memory → Holds rights memory b o most bytes
        → slice_get memory b ≡ Some block → (homes : List Home) (size bits : ℕ) → length bytes ≡ size
        → decode (Access.Int 64) bytes ≡ Value.Int (record { width = 64; bits = bits })
        → StandAt homes (digits size bits) block o }
{}

/// What the frame of a coroutine holds is one, and so are the values that cross its suspends.
pub fn contents_are_one()
    ensures held { (m : Module) (f : Function) (c d : Contents) → AreContents m f c → AreContents m f d
        → c.held ≡ d.held }
    ensures crossing { (m : Module) (f : Function) (c d : Contents) → AreContents m f c → AreContents m f d
        → c.crossing ≡ d.crossing }
{}

/// A frame slot of a source isn't made anew.
pub fn frame_slots_are_made_once()
    ensures { (l : Lowered) → IsLowered l → (a : Anew) → IsAnewOf (early l) a → (func : ℕ)
        → (function_at (early l) func).coroutine ≡ true → (v : ℕ)
        → IsOf (function_at l.source func) v SlotClass.Frame → a.flags func v ≡ false }
{}

/// Where an instance of a source is suspended it is so where resumes hand on less, at the same suspend. The names that
/// are needed behind it have their values.
pub fn suspended_instances_keep_values()
    ensures { (m : Module) (sizes : List Frame) (answers : List ℤ) (s t : State) → IsKeptOf m sizes answers s t
        → (i func : ℕ) (suspend : Point) (values : Env) → IsSuspendedAs s.instances i func suspend values
        → IsSuspendedAlike m t.instances i func suspend values }
{}

/// Where a state of a source's run stands in a row of relations beside one of frames, the frame of each of its
/// instances is there, and each live frame slot of the instance stands in it, byte for byte, where it lies by the
/// layout.
pub fn frames_show_live_slots()
    ensures { (l : Lowered) (low : IsLowered l) (a : Anew) → IsAnewOf (early l) a → (r : Run) (n : ℕ) (v u t : State)
        → IsKeptOf l.source (sizes_of l) r.answers (state_at (source_run l r) n) v → (made : AreMadeAnew l a v u)
        → (built : AreBuiltOf (building l low.is_framed r.answers) u t)
        → AreSlotsShown l.source l.layouts.coroutines (joined (step_homes (edged l) a.flags a.roots v u made)
        built.homes) (state_at (source_run l r) n) t }
{}

/// The field of a value that crosses a suspend shows the value, or its distance from its slot, where the source's
/// instance is suspended there. What is asked of the value is told by its coroutine and by what that was framed by.
pub fn fields_show_values()
    ensures values { (l : Lowered) (low : IsLowered l) (a : Anew) (r : Run) (s v u t : State)
        → IsKeptOf l.source (sizes_of l) r.answers s v → (made : AreMadeAnew l a v u)
        → (built : AreBuiltOf (building l low.is_framed r.answers) u t) → fitting.HaveBytes t.world.memory
        → (i func : ℕ) (p : Point) (values : Env) → IsSuspendedAs s.instances i func p values → (f : shown.Frame t i)
        → (n offset size : ℕ) (k : KeptValue)
        → IsFieldKept l.source ((building l low.is_framed r.answers).framing func) func p n size k
        → HasField l.source (function_at l.source func) (layout_of l.layouts.coroutines func) n offset size
        → IsValueKept (a.roots func) n k
        → StandAt (joined (step_homes (edged l) a.flags a.roots v u made) built.homes)
        (encode size (value_in values n)) f.block (f.instance.start + offset) }
    ensures distances { (l : Lowered) (low : IsLowered l) (a : Anew) (r : Run) (s v u t : State)
        → IsKeptOf l.source (sizes_of l) r.answers s v → (made : AreMadeAnew l a v u)
        → (built : AreBuiltOf (building l low.is_framed r.answers) u t) → fitting.HaveBytes t.world.memory
        → (i func : ℕ) (p : Point) (values : Env) → IsSuspendedAs s.instances i func p values → (f : shown.Frame t i)
        → (n offset size : ℕ) (k : KeptValue)
        → IsFieldKept l.source ((building l low.is_framed r.answers).framing func) func p n size k
        → HasField l.source (function_at l.source func) (layout_of l.layouts.coroutines func) n offset size
        → IsDistanceKept (a.roots func) n k → (at : ℕ) (o : Offset)
        → value_in values n ≡ Value.Ptr (Pointer.At at o) → o.bits < 2 ^ 64
        → StandAt (joined (step_homes (edged l) a.flags a.roots v u made) built.homes)
        (digits size o.bits) f.block (f.instance.start + offset) }
{}

/// Of accepted sources this holds: what crosses a suspend has its field, which is for a distance where the value is an
/// address in a local slot. Offsets that suspended instances keep are of 64 bits, and bytes of framed runs are bytes.
pub fn fields_of_sources_are_kept()
    ensures fields { (l : Lowered) (low : IsLowered l) (a : Anew) → IsAnewOf (early l) a → (r : Run)
        → AreFieldsKept a l low r.answers }
    ensures offsets { (l : Lowered) (r : Run) (n : ℕ) → KeepSmallOffsets (state_at (source_run l r) n) }
    ensures bytes { (l : Lowered) (low : IsLowered l) (a : Anew) → IsAnewOf (early l) a → (r : Run)
        → IsEntryCall l.source r → (n : ℕ)
        → fitting.HaveBytes (framed_state_at (building l low.is_framed r.answers).given r.entry r.args n).world.memory }
{}

/// So frames show all fields of suspended instances, where what crosses a suspend of the source has its field, and
/// offsets of addresses are of 64 bits.
pub fn frames_show_fields()
    ensures { (l : Lowered) (low : IsLowered l) (a : Anew) (r : Run) (s v u t : State)
        → AreFieldsKept a l low r.answers → KeepSmallOffsets s → IsKeptOf l.source (sizes_of l) r.answers s v
        → (made : AreMadeAnew l a v u) (built : AreBuiltOf (building l low.is_framed r.answers) u t)
        → fitting.HaveBytes t.world.memory → AreFieldsShown l.source l.layouts.coroutines
        (joined (step_homes (edged l) a.flags a.roots v u made) built.homes) s t }
{}

/// What is printed of a source that breaks no rule agrees with it within its step factor, with frames that share
/// bytes and with plain ones, where no call is elided. The text has fewer bytes than an index can count.
pub fn lowered_runs_agree()
    ensures { (l : Lowered) → IsLowered l → HasFewBytes l → (r : Run) (other : ℕ) → IsEntry l.source (printed_from l l.framed) r.entry other
        → AreArguments l.source r.entry r.args → KeepsRuns l r other }
{}

/// In terms of the call `lower`: the text that it gives stands for a module whose runs agree with those of the module
/// for which the source's text stands.
pub fn texts_keep_their_meaning()
    ensures { (options : TheOptions) (text : List ℕ) → IsOfBytes text → length text < 2 ^ 31 → (l : TheLowered)
        → IsLowering options text (TheLowering.Done l) → AllFew l.«module».functions → KeepsTexts text l }
{}

/// And in frames the slots and values that stand in them stand where they lie by the layouts.
pub fn lowering_keeps_meaning()
    ensures { (l : Lowered) → IsLowered l → HasFewBytes l → (r : Run) (other : ℕ) → IsEntry l.source (printed_from l l.framed) r.entry other
        → AreArguments l.source r.entry r.args → KeepsMeaning l r other }
{}

/// What is printed agrees with the source where calls are elided, too, with the most sites of one function in the step
/// factor. It makes so many allocator calls less.
pub fn elision_keeps_meaning<Q: RelatesElided>()
    ensures { (l : Lowered) → IsLowered l → HasFewBytes l → (n : Module) (sites : ℕ)
        → ElidedSteps Q.elided Q.eliding l n sites → (r : Run) (other : ℕ)
        → IsEntry l.source (printed_from l n) r.entry other → AreArguments l.source r.entry r.args
        → ElidesCalls l n sites r other }
{}
