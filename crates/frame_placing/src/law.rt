//! Fields have one layout.

ghost use Rattle.std.specs.Prelude.{◌≡◌, ℕ, List, Option};
ghost use Rattle.frame_placing.specs.Placed.{Always, AreKeptApart, IsPair, IsPlaced};
ghost use Rattle.frame_placing.specs.declared.room.Room.{Room as TheRoom};

/// Whatever the fields, the promise and the conflicts are, the fields are placed at one list of offsets, in the plain layout
/// and in that by the conflicts, of pairs alone or of groups too.
pub fn placed_once()
    ensures plain { (rooms : List TheRoom) (promise : Option ℕ) (a b : List ℕ) → IsPlaced rooms promise Always a → IsPlaced rooms promise Always b → a ≡ b }
    ensures shared { (rooms : List TheRoom) (promise : Option ℕ) (conflicts : List (ℕ × ℕ)) (a b : List ℕ) → IsPlaced rooms promise (IsPair conflicts) a → IsPlaced rooms promise (IsPair conflicts) b → a ≡ b }
    ensures grouped { (rooms : List TheRoom) (promise : Option ℕ) (conflicts : List (ℕ × ℕ)) (one other : List (List ℕ)) (a b : List ℕ) → IsPlaced rooms promise (AreKeptApart conflicts one other) a → IsPlaced rooms promise (AreKeptApart conflicts one other) b → a ≡ b }
{}

/// And whatever they are, there are such offsets.
pub fn placed_somewhere()
    ensures plain { (rooms : List TheRoom) (promise : Option ℕ) → (offsets : List ℕ) × IsPlaced rooms promise Always offsets }
    ensures shared { (rooms : List TheRoom) (promise : Option ℕ) (conflicts : List (ℕ × ℕ)) → (offsets : List ℕ) × IsPlaced rooms promise (IsPair conflicts) offsets }
    ensures grouped { (rooms : List TheRoom) (promise : Option ℕ) (conflicts : List (ℕ × ℕ)) (one other : List (List ℕ)) → (offsets : List ℕ) × IsPlaced rooms promise (AreKeptApart conflicts one other) offsets }
{}
