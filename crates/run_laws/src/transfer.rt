//! An ordinary step of a source and one of the same shape of a target, of any rights: one law by what is read; and
//! the homes of
//! blocks that come, move, are hidden or are gone.

ghost use Rattle.std.specs.Prelude.{ℕ, Bool, List, false, length, slice_get, Some, ◌≡◌, ◌≢◌, ◌<◌, ◌++◌, ◌==◌, ◌∷◌, [], if◌then◌else◌, Option};
ghost use Rattle.run_laws.specs.memory.Pointers.{Home, IsValue, Extends, home_of};
ghost use Rattle.run_laws.specs.memory.Standing.{AreByteRights, Stands};
ghost use Rattle.run_step.specs.Step.{Context, Fetched, Work, action_of};
ghost use Rattle.run_laws.specs.transfer.Transfer.{AreJoined, GoesOver, IsTransferred, Maps, args_at, given_at, StandsFor, looks_at};
ghost use Rattle.run_laws.specs.transfer.Makes.{GoesNew, IsMaking, IsMarking};
ghost use Rattle.run_step.specs.Values.{Env, element};
ghost use Rattle.run_laws.specs.embedded.Related.{AreAlike, AreWorks, GoesAlike, IsCarried, IsSameDistance};
ghost use Rattle.run_laws.specs.transfer.Alone.{IsReadBy};
ghost use Rattle.run_laws.specs.transfer.Ready.{IsValueOver, Place, ArePlaces, IsPartPlaced, IsPlaced, faded, shown_of, stood};
ghost use Rattle.run_laws.specs.transfer.Shapes.{StaysAt};
ghost use Rattle.run_memory.specs.Memory.{Rights, killed_block, with_block, end, fresh, start};
ghost use Rattle.run_memory.specs.declared.block.MemoryBlock.{MemoryBlock as Block};
ghost use Rattle.run_laws.specs.transfer.Muted.{muted};
ghost use Rattle.run_laws.specs.transfer.Places.{AreShownBlocks, AreStanding, AreThere, HasFewer, HasRoom, IsBlank, IsEmpty, IsRehomed, IsSeated, MayBeSeen, hiding, seen, unseen, AreBothNew, IsNewIn};
ghost use Rattle.run_memory.specs.declared.block.Kind.{Kind as TheKind};
ghost use Rattle.run_laws.specs.embedded.Making.{whole_home};
ghost use Rattle.run_memory.specs.declared.pointer.Value.{Value as TheValue};
ghost use Rattle.run_laws.specs.changed.Changed.{Each};

/// An ordinary step of the source that isn't undefined is made by the target with an instruction of the same shape,
/// where what it
/// looks at stands in the target, whatever the other names have: of every instruction but those that make, mark or
/// allocate
/// blocks. No pointer is about into the hidden blocks of the source.
pub fn steps_are_transferred()
    ensures { (homes : List Home) (hides : ℕ → Bool) (maps : Maps) (c d : Context) (w x : Work) (here there : Fetched)
        → AreByteRights c.rights → AreByteRights d.rights → AreJoined homes hides maps c d w x
        → IsTransferred (IsValue homes) maps c d w.values x.values here there
        → GoesOver c.rights d.rights homes hides maps (given_at here) (args_at here) (args_at there) w x
        (action_of c w here) (action_of d x there) }
{}

/// An alloca or a call of an allocator, and one of the same shape, make a block in both: the target's is the home of
/// the source's,
/// which stands alone there, and the name that is set has its address. A marker and one of the same shape mark a
/// block and its home.
pub fn blocks_are_transferred()
    ensures made { (homes : List Home) (hides : ℕ
        → Bool) (maps : Maps) (c d : Context) (w x : Work) (here there : Fetched) → AreJoined homes hides maps c d w x
        → IsMaking homes hides maps c d w x here there
        → GoesNew c.rights d.rights homes hides maps.declaration (given_at here) w x (action_of c w here)
        (action_of d x there) }
    ensures marked { (homes : List Home) (hides : ℕ
        → Bool) (maps : Maps) (c d : Context) (w x : Work) (here there : Fetched) → AreByteRights c.rights
        → AreByteRights d.rights → AreJoined homes hides maps c d w x → IsMarking homes hides maps c d w x here there
        → GoesOver c.rights d.rights homes hides maps (given_at here) (args_at here) (args_at there) w x
        (action_of c w here) (action_of d x there) }
{}

/// One instruction is of one shape with itself where the names that it reads stand, or will once blocks stand in
/// their places; and
/// the law of one instruction over works of which all names stand is an instance.
pub fn one_instruction_is_transferred()
    ensures reads { (homes : List Home) (c d : Context) (env other : Env) (here : Fetched)
        → IsReadBy (IsValue homes) c d env other here
        → StaysAt (StandsFor (looks_at here) (IsValue homes) c d env other) (λ label. label) here here }
    ensures places { (homes : List Home) (ps : List Place) (c d : Context) (env other : Env) (here : Fetched)
        → IsReadBy (IsValueOver homes ps) c d env other here
        → StaysAt (StandsFor (looks_at here) (IsValueOver homes ps) c d env other) (λ label. label) here here }
    ensures carried { (homes : List Home) (moves : ℕ → ℕ) (c d : Context) (w x : Work) (here : Fetched)
        → AreByteRights c.rights → AreByteRights d.rights → AreAlike c d → AreWorks c.rights d.rights homes moves w x
        → IsCarried homes moves c d w.values x.values here
        → GoesAlike c.rights d.rights homes moves (action_of c w here) (action_of d x here) }
{}

/// A block comes to stand in a block of the target, which a blank one may do where there is room; a block to which no
/// pointer leads
/// may be hidden, and blocks may die or be gone; the target may have more blocks, and give back those in which
/// nothing stands; and
/// pointers to a block come about where it stands, and are no longer about where no byte is part of one.
pub fn homes_change()
    ensures seated { (rights target : Rights) (homes more : List Home) (m k n : List Block) (b : ℕ)
        → IsSeated rights target homes more m k n b → AreStanding rights target homes m n
        → AreStanding rights target more k n }
    ensures blank { (rights target : Rights) (homes : List Home) (n : List Block) (b : ℕ) (x : Block)
        → b < length homes → IsBlank x → HasRoom rights target n (home_of homes b) b x
        → Stands rights target homes n b x }
    ensures hidden { (rights target : Rights) (homes : List Home) (hides : ℕ → Bool) (m k n : List Block) (b : ℕ)
        → (home_of homes b).is_seen ≡ false → ((d : ℕ) → d ≢ b → slice_get k d ≡ slice_get m d)
        → ((x : Block) → slice_get k b ≡ Some x → (y : Block) × (slice_get m b ≡ Some y) × (y.size ≡ x.size))
        → AreStanding rights target homes (muted hides m) n
        → AreStanding rights target homes (muted (hiding hides b) k) n }
    ensures fewer { (rights target : Rights) (homes : List Home) (m k n : List Block) → HasFewer target homes m k n
        → AreStanding rights target homes m n → AreStanding rights target homes k n }
    ensures grown { (rights target : Rights) (homes : List Home) (m n k : List Block) → AreThere homes n
        → AreStanding rights target homes m n → AreStanding rights target homes m (n ++ k) }
    ensures given_back { (rights target : Rights) (homes : List Home) (m n : List Block) (c : ℕ)
        → AreByteRights rights → AreByteRights target → IsEmpty homes m c → AreStanding rights target homes m n
        → AreStanding rights target homes m (with_block n c killed_block) }
    ensures raised { (rights target : Rights) (homes more : List Home) (m n : List Block) (b : ℕ) → Extends homes more
        → IsRehomed homes more b (seen (home_of homes b))
        → MayBeSeen rights target n (home_of homes b) b (slice_get m b) → AreStanding rights target homes m n
        → AreStanding rights target more m n }
    ensures forgotten { (rights target : Rights) (homes more : List Home) (m n : List Block) (b : ℕ)
        → IsRehomed homes more b (unseen (home_of homes b)) → AreShownBlocks (λ d. d == b) m
        → AreStanding rights target homes m n → AreStanding rights target more m n }
{}

/// The source makes a block that stands somewhere in the target as it is, or both make one; and a slot that is
/// started where it is
/// made lives at once.
pub fn new_blocks_get_homes()
    ensures new { (rights target : Rights) (homes : List Home) (m n : List Block) (q : Home) (x : Block)
        → IsNewIn rights target homes m n q x → AreStanding rights target homes m n
        → AreStanding rights target (homes ++ q ∷ []) (m ++ x ∷ []) n }
    ensures made { (rights target : Rights) (homes : List Home) (m n : List Block) (x y : Block)
        → AreBothNew rights target homes m n x y → AreStanding rights target homes m n
        → AreStanding rights target (homes ++ whole_home (length n) ∷ []) (m ++ x ∷ []) (n ++ y ∷ []) }
    ensures lives { (n : List Block) (size align : ℕ) (kind : TheKind) (marked : Bool)
        → start (if marked then end (fresh n size align kind) (length n) else fresh n size align kind)
        (length n) ≡ fresh n size align kind }
{}

/// So it is made where the operands are addresses in blocks that stand in their places, or come to stand there
/// because they hold
/// nothing and no pointer is about into them; an address that is moved by a distance is such an address again; and
/// pointers into
/// those of a set are no longer about where no byte is part of one.
pub fn steps_use_places()
    ensures step { (homes : List Home) (hides : ℕ → Bool) (maps : Maps) (ps : List Place) (c d : Context) (w x : Work)
        → AreJoined homes hides maps c d w x
        → ArePlaces c.rights d.rights homes hides w.world.memory x.world.memory ps → (here there : Fetched)
        → AreByteRights c.rights → AreByteRights d.rights
        → IsTransferred (IsValueOver homes ps) maps c d w.values x.values here there
        → GoesOver c.rights d.rights (stood homes ps) (shown_of hides ps) maps (given_at here) (args_at here)
        (args_at there) w x (action_of c w here) (action_of d x there) }
    ensures joined { (homes : List Home) (hides : ℕ
        → Bool) (maps : Maps) (ps : List Place) (c d : Context) (w x : Work) → AreJoined homes hides maps c d w x
        → ArePlaces c.rights d.rights homes hides w.world.memory x.world.memory ps
        → AreJoined (stood homes ps) (shown_of hides ps) maps c d w x }
    ensures standing { (rights target : Rights) (homes : List Home) (hides : ℕ
        → Bool) (m n : List Block) (ps : List Place) → ArePlaces rights target homes hides m n ps
        → AreStanding rights target homes (muted hides m) n
        → AreStanding rights target (stood homes ps) (muted (shown_of hides ps) m) n }
    ensures extends { (rights target : Rights) (homes : List Home) (hides : ℕ
        → Bool) (m n : List Block) (ps : List Place) → ArePlaces rights target homes hides m n ps
        → Extends homes (stood homes ps) }
    ensures parts { (homes : List Home) (hides : ℕ
        → Bool) (maps : Maps) (ps : List Place) (c d : Context) (w x : Work) → AreJoined homes hides maps c d w x
        → ArePlaces c.rights d.rights homes hides w.world.memory x.world.memory ps
        → (inbounds : Bool) (v u : TheValue) (e f : Option ℕ) → IsPlaced ps v u → IsSameDistance e f
        → IsPartPlaced ps (element w.world.memory inbounds v e) (element x.world.memory inbounds u f) }
    ensures faded { (rights target : Rights) (quiet hides : ℕ
        → Bool) (homes : List Home) (m n : List Block) (ps : List Place)
        → Each (λ (p : Place). p.block < length homes) ps → AreShownBlocks quiet m
        → AreStanding rights target homes (muted hides m) n
        → AreStanding rights target (faded quiet homes ps) (muted hides m) n }
{}
