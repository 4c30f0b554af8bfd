//! An alloca makes one slot among those that a called activation or its instance has.

ghost use Rattle.std.specs.List.{Contains};
ghost use Rattle.std.specs.Prelude.{◌≡◌, ◌≢◌, ◌∷◌, ◌++◌, ◌+◌, ℕ, Bool, List, [], filter};
ghost use Rattle.pass_frames_proof.specs.ir_model.Ty.{Ty};
ghost use Rattle.pass_frames_proof.specs.ir_model.declared.instr.Instr.{Instr};
ghost use Rattle.pass_frames_proof.specs.ir_model.declared.module.Function.{Function};
ghost use Rattle.pass_frames_proof.specs.ir_base.declared.outcome.Word.{Word};
ghost use Rattle.pass_frames_meaning.specs.Anew.{AreEntriesFree};
ghost use Rattle.pass_frames_meaning.specs.Executed.{IsFirstMode};
ghost use Rattle.pass_frames_meaning.specs.Once.{AreAllocasOnce, AreMadeOnce, AreOnce, IsOnceAt, IsOnceState, KeepsOnce};
ghost use Rattle.pass_frames_proof.specs.pass_renewed_proof.Renewed.{RenewedGiven, renewed_step};
ghost use Rattle.pass_frames_proof.specs.pass_renewed_proof.SlotRules.{IsMadeOnce};
ghost use Rattle.pass_renewed_meaning.specs.run_hooks.Away.{KeepsAllPlaceRules};
ghost use Rattle.pass_renewed_meaning.specs.run_hooks.Hooks.{Hooks, step_of};
ghost use Rattle.pass_renewed_meaning.specs.run_hooks.Meanings.{renewed_hooks};
ghost use Rattle.pass_renewed_meaning.specs.run_hooks.Reached.{AllHaveSwitches, IsReachedState};
ghost use Rattle.pass_frames_proof.specs.run_source.Source.{begun, first_state};
ghost use Rattle.pass_frames_proof.specs.run_source.declared.state.State.{State as TheState};
ghost use Rattle.pass_frames_proof.specs.run_source_tables.Given.{Given};
ghost use Rattle.pass_frames_proof.specs.run_step.Runs.{iterate};
ghost use Rattle.pass_frames_proof.specs.run_step.Step.{AtInstr, fetch};
ghost use Rattle.pass_frames_proof.specs.run_step.declared.world.Slot.{Slot};

/// Slots whose allocas stand before a point, each of its own alloca, stay so: behind an alloca with the slot that it
/// makes, behind what makes none, in a block that isn't the entry, and those of one class. Where an alloca stands none
/// is of it.
pub fn slots_stay_made_once()
    ensures same { (slots : List Slot) → AreOnce slots → (one other : Slot) → Contains slots one
        → Contains slots other → one.alloca ≡ other.alloca → one.block ≡ other.block }
    ensures fresh { (f : Function) (block at : ℕ) (slots : List Slot) → AreMadeOnce f block at slots
        → (name : ℕ) (ty : Ty) (align : ℕ) → fetch f block at ≡ AtInstr (Instr.Alloca name ty align)
        → IsMadeOnce f name → (other : Slot) → Contains slots other → other.alloca ≢ name }
    ensures placed { (f : Function) (block at : ℕ) (slots : List Slot) → AreMadeOnce f block at slots
        → (slot : Slot) (ty : Ty) (align : ℕ) → fetch f block at ≡ AtInstr (Instr.Alloca slot.alloca ty align)
        → IsMadeOnce f slot.alloca → AreMadeOnce f block (at + 1) (slot ∷ slots) }
    ensures next { (f : Function) (block at : ℕ) (slots : List Slot) → AreMadeOnce f block at slots
        → AreMadeOnce f block (at + 1) slots }
    ensures left { (f : Function) (block at : ℕ) (slots : List Slot) → AreMadeOnce f block at slots
        → (to k : ℕ) → to ≢ 0 → AreMadeOnce f to k slots }
    ensures some { (f : Function) (block at : ℕ) (p : Slot → Bool) (slots : List Slot)
        → AreMadeOnce f block at slots → AreMadeOnce f block at (filter p slots) }
    ensures own { (f : Function) (block at : ℕ) (p : Slot → Bool) (slots : List Slot)
        → AreMadeOnce f block at slots → (slot : Slot) (ty : Ty) (align : ℕ)
        → fetch f block at ≡ AtInstr (Instr.Alloca slot.alloca ty align) → IsMadeOnce f slot.alloca
        → AreMadeOnce f block (at + 1) (filter p (slot ∷ []) ++ slots) }
    ensures begun { (f : Function) (block at : ℕ) (p : Slot → Bool) (slots : List Slot)
        → AreMadeOnce f block at slots → AreMadeOnce f block at (filter p slots ++ []) }
{}

/// Where an alloca stands and makes its slot, and where an instance begins, this holds of the slots of a called
/// activation and of its instance.
pub fn slots_are_made_once()
    ensures placed { (f : Function) (block at : ℕ) (slot : Slot) (ty : Ty) (align : ℕ)
        → fetch f block at ≡ AtInstr (Instr.Alloca slot.alloca ty align) → IsMadeOnce f slot.alloca
        → (g : RenewedGiven) (s : TheState) → IsFirstMode s.top.mode → IsOnceAt f block at s
        → IsOnceAt f block (at + 1) ((renewed_hooks g).place s slot) }
    ensures begun { (f : Function) (block at : ℕ) (g : Given) (s : TheState) (b from : ℕ)
        → AreMadeOnce f block at s.top.slots → IsOnceAt f block at (begun g s b from) }
{}

/// So an alloca makes one slot of an activation that was called, and of its instance, in each state of a run that makes
/// slots anew. An activation that was resumed stands in no entry block (F1), and what it makes anew is its own.
pub fn allocas_of_runs_make_one_slot()
    ensures step { (h : Hooks) → KeepsOnce h → AreAllocasOnce h.given.code → AreEntriesFree h.given.code
        → KeepsAllPlaceRules h.given → (s : TheState) → IsReachedState h.given s → IsOnceState h.given.code s
        → IsOnceState h.given.code (step_of h s) }
    ensures hooks { (g : RenewedGiven) → KeepsOnce (renewed_hooks g) }
    ensures renewed { (g : RenewedGiven) (entry : ℕ) (args : List Word) → AllHaveSwitches g.given.code
        → AreAllocasOnce g.given.code → AreEntriesFree g.given.code → KeepsAllPlaceRules g.given → (n : ℕ)
        → IsOnceState g.given.code (iterate (renewed_step g) n (first_state g.given.code entry args)) }
{}
