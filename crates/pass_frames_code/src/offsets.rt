//! The table of offsets in a frame tells of each slot, and of the field of each kept value, where the layout has it.

ghost use Rattle.std.specs.Prelude.{◌≡◌, ◌<◌, ℕ, None, Some, get_or, length, slice_get, true};
ghost use Rattle.pass_proofs.specs.frame_contents.declared.contents.Contents.{Contents};
ghost use Rattle.pass_proofs.specs.frame_contents.declared.held.Holding.{Holding};
ghost use Rattle.pass_proofs.specs.frame_layout.declared.layout.Layout.{Layout};
ghost use Rattle.pass_proofs.specs.ir_model.declared.module.Function.{Function};
ghost use Rattle.pass_proofs.specs.pass_cells.Links.{field_name};
ghost use Rattle.pass_proofs.specs.pass_edges.EdgeBlocks.{with_edge_blocks};
ghost use Rattle.pass_proofs.specs.pass_frames.Framed.{kept_of, offsets_of};
ghost use Rattle.pass_proofs.specs.pass_frames.Tables.{is_slot_kind, offset_at};
ghost use Rattle.pass_frames_code.specs.Offsets.{AreHeldOnce};

/// A slot lies at the offset of its place among what is held, and the field of a kept value at that of the value's.
pub fn offsets_are_those_of_places()
    ensures slots { (l : Layout) (f : Function) (c : Contents) (names k : ℕ) (h : Holding) → AreHeldOnce c.held
        → slice_get c.held k ≡ Some h → is_slot_kind h.kind ≡ true → h.value < names
        → h.value < length (with_edge_blocks f).names
        → slice_get (offsets_of l f c names) h.value ≡ Some (Some (offset_at l k)) }
    ensures fields { (l : Layout) (f : Function) (c : Contents) (names j v k : ℕ)
        → slice_get (kept_of (length (with_edge_blocks f).names) c) j ≡ Some v → get_or c.positions v None ≡ Some k
        → field_name (length (with_edge_blocks f).names) (length (kept_of (length (with_edge_blocks f).names) c)) j
        < names → slice_get (offsets_of l f c names)
        (field_name (length (with_edge_blocks f).names) (length (kept_of (length (with_edge_blocks f).names) c)) j)
        ≡ Some (Some (offset_at l k)) }
{}
