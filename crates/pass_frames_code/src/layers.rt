//! What passes make of a block, instruction by instruction: passes behind one another, and places.

ghost use Rattle.std.specs.Prelude.{◌≡◌, ℕ, ◌+◌, List, length, slice_get, Some};
ghost use Rattle.pass_proofs.specs.ir_model.declared.instr.Instr.{Instr};
ghost use Rattle.pass_proofs.specs.ir_model.declared.instr.Terminator.{Terminator};
ghost use Rattle.pass_proofs.specs.ir_model.declared.module.Block.{Block};
ghost use Rattle.pass_proofs.specs.ir_model.declared.module.Function.{Function};
ghost use Rattle.pass_frames_code.specs.Layers.{Layer, IsIdle, IsMadeBy, becomes, both, ended, grown, passed, place_in, state_at, woven};
ghost use Rattle.pass_proofs.specs.run_laws.access.Lines.{StandAt};
ghost use Rattle.pass_proofs.specs.run_laws.changed.Changed.{Each};
ghost use Rattle.pass_proofs.specs.run_step.Step.{AtTerm, fetch};

/// A pass behind another one is a pass, instruction by instruction.
pub fn layers_compose<S, T>()
    ensures becomes { (one : Layer S) (other : Layer T) (s : S) (t : T) (i : Instr)
        → becomes (both one other) (s, t) i ≡ grown other t (becomes one s i) }
    ensures instrs { (one : Layer S) (other : Layer T) (is : List Instr)
        → woven (both one other) is ≡ woven other (woven one is) }
    ensures term { (one : Layer S) (other : Layer T) (is : List Instr) (t : Terminator)
        → ended (both one other) is t ≡ ended other (woven one is) (ended one is t) }
    ensures blocks { (one : Layer S) (other : Layer T) (b c d : Block) → IsMadeBy one b c → IsMadeBy other c d
        → IsMadeBy (both one other) b d }
{}

/// At the place of an instruction stands what it becomes, and behind that is the place of the next one. In front of
/// the
/// first place stands the front, and behind the last one the back and then the terminator.
pub fn instructions_stand_at_their_places<S>()
    ensures one { (made : Layer S) (f : Function) (k at : ℕ) (b c : Block) (i : Instr) → IsMadeBy made b c
        → slice_get f.blocks k ≡ Some c → slice_get b.instrs at ≡ Some i
        → StandAt f k (place_in made b.instrs at) (becomes made (state_at made b.instrs at) i) }
    ensures next { (made : Layer S) (is : List Instr) (at : ℕ) (i : Instr) → slice_get is at ≡ Some i
        → place_in made is (at + 1) ≡ place_in made is at + length (becomes made (state_at made is at) i) }
    ensures state { (made : Layer S) (is : List Instr) (at : ℕ) (i : Instr) → slice_get is at ≡ Some i
        → state_at made is (at + 1) ≡ made.after (state_at made is at) i }
    ensures front { (made : Layer S) (f : Function) (k : ℕ) (b c : Block) → IsMadeBy made b c → slice_get f.blocks k ≡ Some c
        → StandAt f k 0 made.front }
    ensures first { (made : Layer S) (is : List Instr) → place_in made is 0 ≡ length made.front }
    ensures back { (made : Layer S) (f : Function) (k : ℕ) (b c : Block) → IsMadeBy made b c
        → slice_get f.blocks k ≡ Some c
        → StandAt f k (place_in made b.instrs (length b.instrs)) (made.back (passed made made.start b.instrs)) }
    ensures term { (made : Layer S) (f : Function) (k : ℕ) (b c : Block) → IsMadeBy made b c
        → slice_get f.blocks k ≡ Some c
        → fetch f k (place_in made b.instrs (length b.instrs) + length (made.back (passed made made.start b.instrs)))
        ≡ AtTerm (ended made b.instrs b.term) }
{}

/// A list of instructions that a pass leaves as they are stays; so does what two passes leave, behind both.
pub fn idle_instructions_stay<S, T>()
    ensures instrs { (made : Layer S) (is : List Instr) → Each (IsIdle made) is → (s : S) → grown made s is ≡ is }
    ensures state { (made : Layer S) (is : List Instr) → Each (IsIdle made) is → (s : S) → passed made s is ≡ s }
    ensures both { (one : Layer S) (other : Layer T) (i : Instr) → IsIdle one i → IsIdle other i
        → IsIdle (both one other) i }
{}
