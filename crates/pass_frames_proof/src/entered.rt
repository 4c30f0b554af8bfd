//! What a call of a ramp executes in front of its entry: all allocas first.

ghost use Rattle.std.specs.Prelude.{◌≡◌, ◌+◌, ◌<◌, ◌≤◌, ◌++◌, ℕ, List, Some, false, length, map, slice_get};
ghost use Rattle.pass_frames_steps.specs.flow_solver.Paths.{IsListed};
ghost use Rattle.pass_frames_steps.specs.ir_base.declared.outcome.Outcome.{Outcome};
ghost use Rattle.pass_frames_steps.specs.ir_laws.paths.woven_rules.Pairs.{AreDifferent};
ghost use Rattle.pass_frames_steps.specs.ir_model.Layout.{size_of};
ghost use Rattle.pass_frames_steps.specs.ir_model.Ty.{Ty};
ghost use Rattle.pass_frames_steps.specs.ir_model.declared.instr.Instr.{Instr};
ghost use Rattle.pass_frames_steps.specs.ir_model.declared.module.Function.{Function};
ghost use Rattle.pass_frames_steps.specs.ir_model.declared.module.Module.{Module};
ghost use Rattle.pass_frames_steps.specs.pass_fetch.Fetching.{value_bytes};
ghost use Rattle.pass_frames_steps.specs.Entered.{AreBelow, Grows, IsAlloca, IsEntryStored, IsNewStore, IsOnEntry, IsThere, Made, made_all, made_state, names_in, temporary_of};
ghost use Rattle.pass_frames_steps.specs.Entry.{MayPut, cells_of};
ghost use Rattle.pass_frames_steps.specs.Framings.{IsFraming};
ghost use Rattle.pass_frames_steps.specs.Led.{RunsThrough};
ghost use Rattle.pass_frames_steps.specs.Lines.{HasOwnBlocks, at_work};
ghost use Rattle.pass_frames_steps.specs.Places.{Framing, copies, edged};
ghost use Rattle.pass_frames_steps.specs.Related.{Anything, AreCellsThere, IsCell};
ghost use Rattle.pass_frames_steps.specs.Stores.{IsNameGiven, given_params};
ghost use Rattle.pass_frames_steps.specs.run_agreement.Machines.{iterate};
ghost use Rattle.pass_frames_steps.specs.run_framed.Framed.{FramedGiven, frame_rights, framed_step};
ghost use Rattle.pass_frames_steps.specs.run_laws.access.Lines.{Runs, StandAt};
ghost use Rattle.pass_frames_steps.specs.run_laws.changed.Changed.{Each};
ghost use Rattle.pass_frames_steps.specs.run_laws.memory.Pointers.{Home};
ghost use Rattle.pass_frames_steps.specs.run_laws.memory.Standing.{AreByteRights};
ghost use Rattle.pass_frames_steps.specs.run_memory.declared.pointer.Value.{Value};
ghost use Rattle.pass_frames_steps.specs.run_source.State.{function_of};
ghost use Rattle.pass_frames_steps.specs.run_source.declared.state.Activation.{Activation};
ghost use Rattle.pass_frames_steps.specs.run_source.declared.state.Instance.{Instance};
ghost use Rattle.pass_frames_steps.specs.run_source.declared.state.Mode.{Mode};
ghost use Rattle.pass_frames_steps.specs.run_source.declared.state.State.{State};
ghost use Rattle.pass_frames_steps.specs.run_step.Step.{Context, Work, has_markers};
ghost use Rattle.pass_frames_steps.specs.run_step.Values.{Env};
ghost use Rattle.pass_frames_steps.specs.run_step.declared.world.Slot.{Slot};
ghost use Rattle.pass_frames_steps.specs.run_step.declared.world.World.{World};

/// Allocas in front of a ramp's entry are executed one after another. Meanwhile memory just grows. Behind them each
/// alloca has a new block of its own.
pub fn allocas_of_entries_are_executed()
    ensures executed { (h : FramedGiven) (t : State) → t.outcome ≡ Outcome.Running → t.top.mode ≡ Mode.Ramp → (k : Made)
        (n : ℕ) (js : List Instr) (each : Each IsAlloca js)
        → StandAt (function_of h.given t) t.top.block (t.top.at + n) js
        → iterate (framed_step h) (length js) (made_state t k n)
        ≡ made_state t (made_all h.given.code (function_of h.given t) k js each) (n + length js) }
    ensures meanwhile { (h : FramedGiven) (t : State) → t.outcome ≡ Outcome.Running → t.top.mode ≡ Mode.Ramp → (k : Made)
        (n : ℕ) (js : List Instr) → Each IsAlloca js → StandAt (function_of h.given t) t.top.block (t.top.at + n) js
        → (i : ℕ) → i ≤ length js
        → (q : Made) × (iterate (framed_step h) i (made_state t k n) ≡ made_state t q (n + i))
        × Grows k.memory q.memory }
    ensures there { (m : Module) (f : Function) (base : ℕ) (k : Made) (js : List Instr) (each : Each IsAlloca js)
        → AreDifferent (names_in js each) → Each (λ (j : Instr). (a : IsAlloca j) → a.name < length k.values) js
        → base ≤ length k.memory → (name : ℕ) (ty : Ty) (align : ℕ) → IsListed (Instr.Alloca name ty align) js
        → IsThere m f base (made_all m f k js each) name ty align }
    ensures slots { (m : Module) (f : Function) (rest : List Slot) (k : Made) (js : List Instr) (each : Each IsAlloca js)
        → AreBelow k rest → AreDifferent (map (λ (slot : Slot). slot.block) (k.slots ++ rest))
        → AreDifferent (map (λ (slot : Slot). slot.block) ((made_all m f k js each).slots ++ rest)) }
    ensures new { (m : Module) (f : Function) (base : ℕ) (k : Made) (js : List Instr) (each : Each IsAlloca js)
        → base ≤ length k.memory → ((slot : Slot) → IsListed slot k.slots → base ≤ slot.block) → (slot : Slot)
        → IsListed slot (made_all m f k js each).slots → base ≤ slot.block }
{}

/// Where no frame lies in a new block a cell is there, whatever it has: its alloca has the size and alignment of its
/// type, and no marker.
pub fn cells_of_entries_are_there()
    ensures { (g : FramedGiven) (ys : List Instance) (m : Module) (f : Function) (base : ℕ) (k : Made) (a : Activation)
        (cell : ℕ) (ty : Ty) → ((i : ℕ) (y : Instance) → slice_get ys i ≡ Some y → y.block < base)
        → IsThere m f base k cell ty (value_bytes ty) → size_of m ty ≡ value_bytes ty → has_markers f cell ≡ false
        → a.values ≡ k.values → a.slots ≡ k.slots → IsCell (frame_rights g ys) k.memory a cell ty Anything }
{}

/// Stores into new blocks pass through works that differ from the first in these blocks alone.
pub fn stores_of_entries_pass()
    ensures { (d : Context) (env : Env) (w : World) (base : ℕ) (line : List Instr) → Each (IsNewStore env base) line
        → (u v : Work) → IsOnEntry env w base u → Runs d line u v
        → RunsThrough d (IsOnEntry env w base) line u v × IsOnEntry env w base v }
{}

/// Where its cells are there the front of an entry stores addresses of temporaries and parameters into theirs.
pub fn fronts_of_entries_are_stored()
    ensures { (x : Framing) → IsFraming x → (homes : List Home) (c : Context) → AreByteRights c.rights
        → (a : Activation) → HasOwnBlocks a → (w : Work) (args : List Value) (n : ℕ)
        → length args ≡ length (edged x).params → Each (IsNameGiven x homes w) (given_params (edged x).params args)
        → AreCellsThere x c.rights w.world.memory (at_work a w) → AreDifferent (cells_of (copies x).slots)
        → Each (MayPut c.rights w.world.memory (at_work a w) temporary_of n) (copies x).slots
        → IsEntryStored x homes c w a args n }
{}
