//! Parts of frame slots stand for the pairs that conflict.

ghost use Rattle.std.specs.Prelude.{◌↔◌, ◌<◌, ℕ, List};
ghost use Rattle.ir_model.specs.declared.module.Function.{Function as TheFunction};
ghost use Rattle.frame_conflicts.specs.Conflicts.{AreConflicts, ConflictAt};
ghost use Rattle.frame_conflicts.specs.Parts.{AreParted, ArePartsOf};
ghost use Rattle.frame_conflicts.specs.declared.parts.SlotParts.{SlotParts as TheParts};

/// Whatever the parts of a function's frame slots are, by them two slots conflict just where they do, and there are the pairs of
/// all of these in order.
pub fn parts_stand_for_pairs()
    ensures told { (f : TheFunction) (parts : TheParts) (i k : ℕ) → ArePartsOf f parts → ConflictAt f i k ↔ ((i < k) × AreParted parts i k) }
    ensures pairs { (f : TheFunction) (parts : TheParts) → ArePartsOf f parts → (pairs : List (ℕ × ℕ)) × AreConflicts f pairs }
{}
