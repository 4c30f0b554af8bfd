//! That the laws of memories in one another speak of something where frames lie in blocks: worked memories, and rights that serve.
//!
//! The rights of frames are rights of bytes (`frame_rights_are_of_bytes`) and serve new blocks
//! (`frame_rights_serve_new_blocks`). A block that is owned as a frame stands where the frame lies, whatever the
//! frame's alignment is (`owned_blocks_stand`). It does so too with a slot that has its home in a field
//! (`slots_stand_in_frames`).
#![tactic(auto)]

ghost use Rattle.std.specs.Prelude.{ℕ, false, List, None, [], ◌∷◌, ◌≡◌, ◌≢◌, ◌≤◌, ◌<◌, ◌^◌};
ghost use Rattle.run_laws.specs.run_memory.Memory.{owner_rights};
ghost use Rattle.run_laws.specs.run_memory.declared.block.Kind.{Kind as TheKind};
ghost use Rattle.run_source.specs.declared.state.Instance.{Instance as TheInstance};
ghost use Rattle.run_laws_worked.specs.Worked.{an_instance, frame_given, owned_block, slot_home, worked_slot};
ghost use Rattle.run_laws_worked.specs.Stored.{field_context, field_work, hidden_homes, hidden_slot, slot_context, slot_place, slot_work, store_by, stored_source, worked_homes, worked_source, worked_target};
ghost use Rattle.run_framed.specs.Framed.{FramedGiven, frame_rights, layout_of};
ghost use Rattle.run_laws.specs.ir_model.declared.module.Function.{Function as TheFunction};
ghost use Rattle.run_laws.specs.ir_model.declared.module.Module.{Module as TheModule};
ghost use Rattle.run_laws.specs.memory.Pointers.{IsValue};
ghost use Rattle.run_laws.specs.run_step.Step.{Done, action_of, set_memory};
ghost use Rattle.run_laws.specs.memory.Standing.{AreByteRights, Embeds, HasFreshRights};
ghost use Rattle.run_source_tables.specs.Given.{Given};
ghost use Rattle.run_laws.specs.embedded.Making.{AreNewRights, whole_home};
ghost use Rattle.run_laws.specs.changed.Changed.{Each};
ghost use Rattle.run_laws.specs.transfer.Ready.{ArePlaces, IsValueOver, shown_of, stood};
ghost use Rattle.run_laws.specs.transfer.Transfer.{AreJoined, GoesOver, IsTransferred, same_maps};

/// The rights of frames say of each range no more than of its bytes, and don't look at what the bytes hold.
pub fn frame_rights_are_of_bytes()
    ensures { (g : FramedGiven) (instances : List TheInstance) → AreByteRights (frame_rights g instances) }
{}

/// A block of an allocator, of alignment 16, that an instance owns stands where its frame lies, whatever the frame's alignment is.
pub fn owned_blocks_stand()
    ensures { (g : FramedGiven) (x : TheInstance) (size n : ℕ) → x.start ≡ 0 → (layout_of g.layouts x.coroutine).size ≡ n → n ≤ size → size < 2 ^ 64 → Embeds owner_rights (frame_rights g (x ∷ [])) (whole_home 0 ∷ []) (owned_block size 16 n ∷ []) (owned_block size 16 n ∷ []) }
{}

/// So it does together with a slot of alignment 8, which has its home in a field of the frame; the frame's alignment is 8.
pub fn slots_stand_in_frames()
    ensures { (given : Given) → Embeds owner_rights (frame_rights (frame_given given) (an_instance ∷ [])) (whole_home 0 ∷ slot_home ∷ []) (owned_block 48 16 32 ∷ worked_slot ∷ []) (owned_block 48 16 32 ∷ []) }
{}

/// The rights of frames serve new blocks in which no instance lies, in the target, in the source, and in both.
pub fn frame_rights_serve_new_blocks()
    ensures target { (g : FramedGiven) (instances : List TheInstance) (b c : ℕ) (kind other : TheKind) → Each (λ (x : TheInstance). x.block ≢ c) instances → AreNewRights owner_rights (frame_rights g instances) b c kind other }
    ensures source { (g : FramedGiven) (instances : List TheInstance) (b c : ℕ) (kind other : TheKind) → Each (λ (x : TheInstance). x.block ≢ b) instances → AreNewRights (frame_rights g instances) owner_rights b c kind other }
    ensures both { (g h : FramedGiven) (instances others : List TheInstance) (b c : ℕ) (kind other : TheKind) → Each (λ (x : TheInstance). x.block ≢ b) instances → Each (λ (x : TheInstance). x.block ≢ c) others → AreNewRights (frame_rights g instances) (frame_rights h others) b c kind other }
    ensures fresh { (g : FramedGiven) (instances : List TheInstance) (b c : ℕ) → Each (λ (x : TheInstance). x.block ≢ c) instances → HasFreshRights owner_rights (frame_rights g instances) b c }
{}

/// A store into that slot goes over to one into the field, whose address another name has: all that is asked of the
/// two holds, the source's isn't undefined, and the slot that holds the number stands in the frame afterwards.
pub fn slots_are_stored_in_frames()
    ensures joined { (given : Given) (m : TheModule) (f g : TheFunction)
        → AreJoined worked_homes (λ b. false) same_maps (slot_context m f)
        (field_context given m g) slot_work field_work }
    ensures asked { (given : Given) (m : TheModule) (f g : TheFunction)
        → IsTransferred (IsValue worked_homes) same_maps (slot_context m f)
        (field_context given m g) slot_work.values field_work.values (store_by 0) (store_by 1) }
    ensures source { (m : TheModule) (f : TheFunction)
        → action_of (slot_context m f) slot_work (store_by 0) ≡ Done (set_memory slot_work stored_source) }
    ensures target { (given : Given) (m : TheModule) (f g : TheFunction)
        → GoesOver owner_rights (field_context given m g).rights worked_homes
        (λ b. false) same_maps None [] [] slot_work field_work (Done (set_memory slot_work stored_source))
        (action_of (field_context given m g) field_work (store_by 1)) }
{}

/// So does a slot that stands nowhere yet, because nobody has used it: it comes to stand in the field where it is
/// stored.
pub fn slots_come_to_stand_in_frames()
    ensures joined { (given : Given) (m : TheModule) (f g : TheFunction)
        → AreJoined hidden_homes hidden_slot same_maps (slot_context m f)
        (field_context given m g) slot_work field_work }
    ensures places { (given : Given)
        → ArePlaces owner_rights (frame_rights (frame_given given)
        (an_instance ∷ [])) hidden_homes hidden_slot worked_source worked_target (slot_place ∷ []) }
    ensures asked { (given : Given) (m : TheModule) (f g : TheFunction)
        → IsTransferred (IsValueOver hidden_homes (slot_place ∷ [])) same_maps (slot_context m f)
        (field_context given m g) slot_work.values field_work.values (store_by 0) (store_by 1) }
    ensures target { (given : Given) (m : TheModule) (f g : TheFunction)
        → GoesOver owner_rights (field_context given m g).rights (stood hidden_homes (slot_place ∷ []))
        (shown_of hidden_slot (slot_place ∷ [])) same_maps None [] [] slot_work field_work
        (Done (set_memory slot_work stored_source)) (action_of (field_context given m g) field_work (store_by 1)) }
{}
