//! A framed run and the run of its parts: which states stand beside each other.
//!
//! Each block of the framed run's memory has its number in the other, as a twin, and stands there by the rights of
//! frames
//! (`AreBeside`). The control bytes of frames are closed to the framed run, so a step leaves them (`frames_stay`).

ghost use Rattle.std.specs.Prelude.{◌∷◌, ℕ, Bool, List, Option, Some, [], true, false, length, slice_get, slice_set, ◌≡◌, ◌≤◌, ◌<◌, ◌^◌};
ghost use Rattle.pass_proofs.specs.ir_model.declared.module.Function.{Function};
ghost use Rattle.pass_proofs.specs.ir_model.Names.{function_at};
ghost use Rattle.pass_proofs.specs.ir_paths.declared.point.Point.{Point as ThePoint};
ghost use Rattle.pass_split_proof.specs.code.Numbers.{IsNumbered};
ghost use Rattle.pass_proofs.specs.split.rules.Reached.{IsLedTo};
ghost use Rattle.pass_split_proof.specs.states.Saved.{SavesIn};
ghost use Rattle.pass_split_proof.specs.states.Values.{AreValuesOf};
ghost use Rattle.pass_proofs.specs.pass_intrinsics.declared.shape.Part.{Part};
ghost use Rattle.pass_split_proof.specs.states.Begun.{BeginsIn, IsFreshBlock, IsNewInstance};
ghost use Rattle.pass_split_proof.specs.code.Positions.{is_given};
ghost use Rattle.pass_split_proof.specs.states.Instances.{AreFrames, AreLaidFrames, IsHeadedIn, IsLaidOut, StandsThere, in_state, is_destroyer, is_held, resumer_of};
ghost use Rattle.pass_split_proof.specs.states.Memories.{AreBeside, AreContents, AreTwins, AreWorldsBeside, homes_of, plain_kind};
ghost use Rattle.pass_proofs.specs.run_framed.Framed.{FramedGiven, frame_rights, layout_of};
ghost use Rattle.pass_proofs.specs.run_laws.access.Changed.{KeepsFree};
ghost use Rattle.pass_proofs.specs.run_laws.embedded.Refilled.{AreRefilled};
ghost use Rattle.pass_proofs.specs.run_laws.embedded.Related.{AreValues};
ghost use Rattle.pass_proofs.specs.run_laws.memory.Pointers.{Home};
ghost use Rattle.pass_proofs.specs.run_laws.memory.Standing.{blank_block};
ghost use Rattle.run_access_worked.specs.run_laws_worked.Worked.{an_instance, frame_given, owned_block};
ghost use Rattle.pass_proofs.specs.run_source_tables.Given.{Given as TheGiven};
ghost use Rattle.pass_proofs.specs.run_laws.transfer.Transfer.{AreOver};
ghost use Rattle.pass_proofs.specs.ir_model.declared.module.Module.{Module};
ghost use Rattle.pass_proofs.specs.run_memory.Memory.{fresh, owned_to, owner_rights, with_block};
ghost use Rattle.pass_proofs.specs.run_memory.declared.block.Kind.{Kind};
ghost use Rattle.pass_proofs.specs.run_step.Step.{first_world, without_slots};
ghost use Rattle.pass_proofs.specs.run_step.declared.world.Slot.{Slot as TheSlot};
ghost use Rattle.pass_proofs.specs.run_memory.declared.block.MemoryBlock.{MemoryBlock};
ghost use Rattle.pass_proofs.specs.run_source.declared.state.Instance.{Instance};
ghost use Rattle.pass_proofs.specs.run_source.declared.state.Saved.{Saved as TheSaved};
ghost use Rattle.pass_proofs.specs.run_source.declared.state.Status.{Status as TheStatus};
ghost use Rattle.pass_proofs.specs.run_step.Step.{entry_values};
ghost use Rattle.pass_proofs.specs.run_step.Values.{Env};
ghost use Rattle.pass_proofs.specs.run_memory.declared.pointer.Value.{Value};
ghost use Rattle.pass_proofs.specs.run_step.declared.world.World.{World};

/// Worlds beside each other are worlds of which the one stands in the other by the rights of frames, and twins of which
/// the one so stands in the other are beside each other.
pub fn worlds_stand_beside()
    ensures over { (g : FramedGiven) (instances : List Instance) (s t : World) → AreWorldsBeside g instances s t
        → AreOver (frame_rights g instances) owner_rights (homes_of s.memory) (λ b. false) (λ d. d) s t }
    ensures beside { (g : FramedGiven) (instances : List Instance) (s t : World) → AreTwins s.memory t.memory
        → AreOver (frame_rights g instances) owner_rights (homes_of s.memory) (λ b. false) (λ d. d) s t
        → AreWorldsBeside g instances s t }
{}

/// A step that keeps what is closed to the framed run keeps the control bytes of frames.
pub fn frames_stay()
    ensures { (g : FramedGiven) (instances : List Instance) (m n k l : List MemoryBlock) → AreFrames g instances m n
        → AreRefilled m k → KeepsFree (frame_rights g instances) (homes_of m) m n l → AreFrames g instances k l }
{}

/// At their entries a function and a part with its parameters have values that stand for each other.
pub fn entries_have_their_values()
    ensures { (f q : Function) (homes : List Home) (vs us : List Value) → q.params ≡ f.params
        → length f.names ≤ length q.names → AreValues homes vs us
        → AreValuesOf f homes (entry_values f vs) (entry_values q us) }
{}

/// The worlds in which the runs start stand beside each other, and there are no frames yet.
pub fn worlds_start_beside()
    ensures worlds { (g : FramedGiven) (m : Module) → AreContents m
        → AreWorldsBeside g [] (first_world m) (first_world m) }
    ensures frames { (g : FramedGiven) (m n : List MemoryBlock) → AreFrames g [] m n }
{}

/// Where a coroutine begins in an allocator's block, the header is stored and its bytes are closed from then on. The
/// memories stand beside each other with the new frame.
pub fn coroutines_begin_beside()
    ensures { (g : FramedGiven) (instances : List Instance) (x : Instance) (m n : List MemoryBlock) (u : MemoryBlock)
        (size : ℕ) → slice_get m x.block ≡ Some u → IsFreshBlock size u → AreFrames g instances m n
        → AreBeside g instances m n → IsLaidOut g x.coroutine
        → (layout_of g.layouts x.coroutine).size ≡ size → IsNewInstance x → 16 ≤ u.size → (resumes : Value)
        (destroyer : Part) → is_destroyer destroyer ≡ true → StandsThere g x.coroutine destroyer
        → is_given destroyer ≡ false
        → BeginsIn g instances x (with_block m x.block (owned_to size)) n resumes destroyer }
{}

/// A block that both runs make stands at its own number, and frames stay.
pub fn blocks_are_made_beside()
    ensures beside { (g : FramedGiven) (instances : List Instance) (m n : List MemoryBlock) (size align : ℕ)
        (kind : Kind) → size < 2 ^ 64 → (kind ≡ Kind.Allocator → align ≡ 16) → AreLaidFrames g instances m
        → AreBeside g instances m n
        → AreBeside g instances (fresh m size align kind) (fresh n size align (plain_kind kind)) }
    ensures frames { (g : FramedGiven) (instances : List Instance) (m n : List MemoryBlock) (size align : ℕ)
        (kind : Kind) → size < 2 ^ 64 → (kind ≡ Kind.Allocator → align ≡ 16) → AreFrames g instances m n
        → AreFrames g instances (fresh m size align kind) (fresh n size align (plain_kind kind)) }
{}

/// So do memories and frames where the slots of an activation die in both.
pub fn slots_die_beside()
    ensures beside { (g : FramedGiven) (instances : List Instance) (slots : List TheSlot) (m n : List MemoryBlock)
        → AreLaidFrames g instances m → AreBeside g instances m n
        → AreBeside g instances (without_slots m slots) (without_slots n slots) }
    ensures frames { (g : FramedGiven) (instances : List Instance) (slots : List TheSlot) (m n : List MemoryBlock)
        → AreFrames g instances m n → AreFrames g instances (without_slots m slots) (without_slots n slots) }
{}

/// An instance that is resumed, saved, released or at its end has its frame where it was. The memories stand beside each
/// other, and frames stay where the changed one holds what it should.
pub fn instances_change_beside()
    ensures beside { (g : FramedGiven) (instances : List Instance) (m n : List MemoryBlock) (i : ℕ) (x : Instance)
        → slice_get instances i ≡ Some x → (status : TheStatus) (saved : Option TheSaved) (released : Bool)
        → AreBeside g instances m n
        → AreBeside g (slice_set instances i (in_state x status saved released)) m n }
    ensures frames { (g : FramedGiven) (instances : List Instance) (m n : List MemoryBlock) (i : ℕ) (x : Instance)
        → slice_get instances i ≡ Some x → (status : TheStatus) (saved : Option TheSaved) (released : Bool)
        → (is_held m (in_state x status saved released) ≡ true → is_held m x ≡ true) → AreFrames g instances m n
        → (is_held m (in_state x status saved released) ≡ true → IsHeadedIn g m n (in_state x status saved released))
        → AreFrames g (slice_set instances i (in_state x status saved released)) m n }
{}

/// Where a coroutine is saved, the index of its suspend and what a resume calls are stored in its frame. The memories
/// stand beside each other with the instance Suspended.
pub fn coroutines_are_saved_beside()
    ensures { (g : FramedGiven) (instances : List Instance) (i : ℕ) (x : Instance) (m n : List MemoryBlock)
        → slice_get instances i ≡ Some x → is_held m x ≡ true → AreFrames g instances m n
        → AreBeside g instances m n → IsLaidOut g x.coroutine → (suspend : ThePoint)
        (values : List (Option Value)) (saved : Option TheSaved) (released : Bool) (number : ℕ)
        (numbered : IsNumbered (function_at g.given.code x.coroutine) suspend number)
        → IsLedTo (function_at g.given.code x.coroutine) numbered.suspend.block
        → SavesIn g instances i x m n number (resumer_of g x.coroutine numbered.suspend) suspend values saved released }
{}

/// A block of 48 bytes of an allocator stands beside itself. It does so with the frame of a coroutine that begins in it
/// once its header is stored.
pub fn a_begin_is_worked_beside()
    ensures before { (given : TheGiven)
        → AreBeside (frame_given given) [] (blank_block 48 16 Kind.Allocator ∷ [])
        (blank_block 48 16 Kind.Allocator ∷ []) }
    ensures after { (given : TheGiven) (resumes : Value)
        → BeginsIn (frame_given given) [] an_instance (owned_block 48 16 32 ∷ [])
        (blank_block 48 16 Kind.Allocator ∷ []) resumes Part.Destroy }
{}
