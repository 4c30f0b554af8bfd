//! Straight lines that are woven in: they set new names and fill ranges. What they leave of cells and of the source.

ghost use Rattle.std.specs.List.{Contains};
ghost use Rattle.std.specs.Prelude.{◌<◌, ◌≤◌, ℕ, List, ◌++◌, Some, length};
ghost use Rattle.pass_proofs.specs.flow_solver.Paths.{IsListed};
ghost use Rattle.pass_proofs.specs.ir_model.Ty.{Ty};
ghost use Rattle.pass_proofs.specs.ir_model.declared.instr.Instr.{Instr};
ghost use Rattle.pass_proofs.specs.ir_model.declared.operand.Operand.{Operand};
ghost use Rattle.pass_proofs.specs.pass_cells.Cells.{fetches_of};
ghost use Rattle.pass_proofs.specs.pass_cells.Written.{row_at, stored};
ghost use Rattle.pass_proofs.specs.pass_cells.declared.plan.KeptValue.{KeptValue};
ghost use Rattle.pass_proofs.specs.pass_intrinsics.Shapes.{suspends_of};
ghost use Rattle.pass_frames_code.specs.Fetched.{CanFetch};
ghost use Rattle.pass_frames_code.specs.Framings.{IsFraming};
ghost use Rattle.pass_frames_code.specs.Lines.{AreAway, DifferAt, Fills, HasOwnBlocks, IsKeptType, IsNoRoot, IsStorable, LeavesCellsBut, LiesApart, LoadsCell, RunsOver, StoresCell, at_work, with_memory};
ghost use Rattle.pass_frames_code.specs.Loaded.{loaded_value};
ghost use Rattle.pass_frames_code.specs.Places.{Framing, edged, named, plan};
ghost use Rattle.pass_frames_code.specs.Related.{Anything, AreCellsRight, AreFieldsRight, IsCell, IsKeptAs, IsKeptValue};
ghost use Rattle.pass_frames_code.specs.Saves.{HoldsField, MaySave, SavesValues};
ghost use Rattle.pass_proofs.specs.run_laws.access.Accessed.{Span};
ghost use Rattle.pass_proofs.specs.run_laws.access.Lines.{Holds};
ghost use Rattle.pass_proofs.specs.run_laws.embedded.Related.{AreWorlds};
ghost use Rattle.pass_proofs.specs.run_laws.memory.Pointers.{Home, IsValue};
ghost use Rattle.pass_proofs.specs.run_laws.memory.Standing.{AreByteRights};
ghost use Rattle.pass_proofs.specs.run_memory.Memory.{Rights};
ghost use Rattle.pass_proofs.specs.run_memory.declared.block.Byte.{Byte};
ghost use Rattle.pass_proofs.specs.run_memory.declared.block.MemoryBlock.{MemoryBlock};
ghost use Rattle.pass_proofs.specs.run_memory.declared.pointer.Value.{Value};
ghost use Rattle.pass_proofs.specs.run_source.declared.state.Activation.{Activation};
ghost use Rattle.pass_proofs.specs.run_step.Step.{Context, Work};
ghost use Rattle.pass_proofs.specs.run_step.Values.{Env, value_in};
ghost use Rattle.pass_proofs.specs.run_step.declared.world.World.{World};

/// Where ranges are filled, what other ranges hold stays. So does a source that stands in none of them.
pub fn ranges_are_filled()
    ensures others { (rights : Rights) → AreByteRights rights → (spans : List Span) (m k : List MemoryBlock)
        (b o most : ℕ) (bytes : List Byte) → Fills rights spans m k → LiesApart b o (length bytes) spans
        → Holds rights m b o most bytes → Holds rights k b o most bytes }
    ensures worlds { (rights target : Rights) → AreByteRights rights → AreByteRights target → (homes : List Home)
        (moves : ℕ → ℕ) (s t : World) (spans : List Span) (k : List MemoryBlock) → Fills target spans t.memory k
        → AreAway rights homes s.memory spans → AreWorlds rights target homes moves s t
        → AreWorlds rights target homes moves s (with_memory t k) }
{}

/// A line behind another one sets and fills what both do.
pub fn lines_run_on()
    ensures { (c : Context) (line more : List Instr) (n : ℕ) (spans others : List Span) (w x y : Work)
        → RunsOver c line n spans w x → RunsOver c more n others x y
        → RunsOver c (line ++ more) n (spans ++ others) w y }
{}

/// A load from a cell gives what the cell has, and a store puts there what is loaded again.
pub fn cells_are_loaded_and_stored()
    ensures load { (c : Context) (w : Work) (a : Activation) (n cell : ℕ) (ty : Ty) (homes : List Home) (v : Value)
        → IsKeptType ty → IsCell c.rights w.world.memory (at_work a w) cell ty (IsValue homes v)
        → LoadsCell c w n cell ty (IsValue homes v) }
    ensures store { (c : Context) (w : Work) (a : Activation) → AreByteRights c.rights → (v cell n : ℕ) (ty : Ty)
        → IsKeptType ty → IsCell c.rights w.world.memory (at_work a w) cell ty Anything → StoresCell c w a v
        cell ty n }
{}

/// What stands behind a definition puts its value into its cell. Then all cells are right, but that of its distance.
pub fn results_are_stored()
    ensures { (x : Framing) → IsFraming x → (homes : List Home) (c : Context) → AreByteRights c.rights
        → (old env : Env) (a : Activation) (w : Work) (v n : ℕ) → HasOwnBlocks a → IsNoRoot x v → DifferAt v old env
        → IsValue homes (value_in env v) (value_in w.values v)
        → ((k : KeptValue) → IsKeptValue x v k → IsStorable k.ty (value_in env v))
        → AreCellsRight x homes c.rights w.world.memory old (at_work a w)
        → LeavesCellsBut x homes c w a env v n (stored (plan x) v) }
{}

/// In front of a use each kept value can be loaded from its cell, and what is loaded stands for it.
pub fn kept_values_are_loaded()
    ensures can { (x : Framing) → IsFraming x → (homes : List Home) (c : Context) (env : Env) (a : Activation) (w : Work)
        → AreCellsRight x homes c.rights w.world.memory env (at_work a w) → (n v : ℕ) → length (named x).names ≤ n
        → CanFetch (fetches_of (plan x)) (loaded_value x c w) n c w (Operand.Local v) }
    ensures stand { (x : Framing) → IsFraming x → (homes : List Home) (c : Context) (env : Env) (a : Activation)
        (w : Work) → AreCellsRight x homes c.rights w.world.memory env (at_work a w) → (v : ℕ) (k : KeptValue)
        → IsKeptValue x v k → IsValue homes (value_in env v) (loaded_value x c w v) }
{}

/// Before a save each value that crosses is loaded, or its distance is, and stored into its field. The cells are right
/// as they were, and the fields hold what is kept.
pub fn values_are_saved()
    ensures { (x : Framing) → IsFraming x → (homes : List Home) (c : Context) → AreByteRights c.rights
        → (env : Env) (a : Activation) (w : Work) (block start k n m : ℕ) (row : List ℕ)
        → length (named x).names ≤ n → MaySave x homes c w a env block start n m row
        → SavesValues x homes c w a env block start k n m row }
{}

/// The row of a suspend has all that crosses it. So once its fields hold what is kept they are right.
pub fn saved_fields_are_right()
    ensures row { (x : Framing) → IsFraming x → (v suspend : ℕ) (k : KeptValue) → (kept : IsKeptValue x v k)
        → Contains x.contents.crossing (v, suspend) → suspend < length (suspends_of (edged x))
        → IsListed kept.number (row_at (plan x).rows (Some suspend)) }
    ensures fields { (x : Framing) → IsFraming x → (homes : List Home) (rights : Rights) (m : List MemoryBlock)
        (suspend : ℕ) (env : Env) (block start : ℕ) → suspend < length (suspends_of (edged x))
        → ((v : ℕ) (k : KeptValue) → (kept : IsKeptValue x v k)
        → IsListed kept.number (row_at (plan x).rows (Some suspend))
        → HoldsField x rights m block start k (IsKeptAs homes env v k k.slot))
        → AreFieldsRight x homes rights m suspend env block start }
{}
