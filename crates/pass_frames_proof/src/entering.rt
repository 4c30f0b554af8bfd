//! Allocas that a resumed activation of the framed run makes again before it enters a label.

ghost use Rattle.std.specs.Prelude.{◌≡◌, ◌<◌, ◌≤◌, ◌+◌, ◌++◌, ◌∷◌, [], ℕ, List, None, Some, false, length, slice_get, suc, take};
ghost use Rattle.pass_frames_steps.specs.flow_solver.Paths.{IsListed};
ghost use Rattle.pass_frames_steps.specs.ir_laws.paths.woven_rules.Pairs.{AreDifferent};
ghost use Rattle.pass_frames_steps.specs.ir_model.Layout.{size_of};
ghost use Rattle.pass_frames_steps.specs.ir_model.Ty.{Ty};
ghost use Rattle.pass_frames_steps.specs.ir_model.declared.instr.Instr.{Instr};
ghost use Rattle.pass_frames_steps.specs.ir_paths.Slots.{allocas_in};
ghost use Rattle.pass_frames_steps.specs.pass_fetch.Fetching.{value_bytes};
ghost use Rattle.pass_frames_steps.specs.Costs.{allocas_before};
ghost use Rattle.pass_frames_steps.specs.Entering.{AreAllocasBetween, IsGoodAlloca, IsMaking, behind_alloca, behind_allocas, entered, front_allocas};
ghost use Rattle.pass_frames_steps.specs.Places.{Framing, framed, instrs_at};
ghost use Rattle.pass_frames_steps.specs.Related.{Anything, IsCell};
ghost use Rattle.pass_frames_steps.specs.run_framed.Framed.{FramedGiven, alloca_from, frame_rights, framed_step};
ghost use Rattle.pass_frames_steps.specs.run_laws.access.Lines.{StandAt};
ghost use Rattle.pass_frames_steps.specs.run_laws.changed.Changed.{Each};
ghost use Rattle.pass_frames_steps.specs.run_source.State.{function_of};
ghost use Rattle.pass_frames_steps.specs.run_source.declared.state.Instance.{Instance};
ghost use Rattle.pass_frames_steps.specs.run_source.declared.state.State.{State};
ghost use Rattle.pass_frames_steps.specs.run_step.Runs.{iterate};
ghost use Rattle.pass_frames_steps.specs.run_step.Step.{has_markers};

/// Each alloca up to another one is a step of the framed run, and makes its block and its slot. Behind the last alloca
/// of all the label is entered.
pub fn allocas_are_made_again()
    ensures next { (g : FramedGiven) (from label : ℕ) (u : State) → IsMaking u from label → (is : List Instr)
        (k : Instr) → Each IsGoodAlloca is → IsGoodAlloca k
        → StandAt (function_of g.given u) 0 u.top.at (is ++ k ∷ []) → (n : ℕ) → n ≤ length is
        → iterate (framed_step g) n u ≡ behind_allocas g u (take n is) }
    ensures last { (g : FramedGiven) (from label : ℕ) (u : State) → IsMaking u from label → (is : List Instr)
        (k : Instr) → Each IsGoodAlloca is → IsGoodAlloca k
        → StandAt (function_of g.given u) 0 u.top.at (is ++ k ∷ [])
        → alloca_from (function_of g.given u) (u.top.at + length is + 1) ≡ None
        → iterate (framed_step g) (suc (length is)) u
        ≡ entered g (behind_alloca g (behind_allocas g u is) k) from label }
{}

/// All allocas of a framed form stand in front of its entry, those between two of the coroutine's in between, and no
/// alloca stands behind them.
pub fn allocas_stand_in_front()
    ensures stand { (x : Framing) (at : ℕ) (i : Instr) → slice_get (instrs_at x 0) at ≡ Some i
        → StandAt (framed x) 0 0 (front_allocas x) }
    ensures none { (x : Framing) (at : ℕ) (i : Instr) → slice_get (instrs_at x 0) at ≡ Some i
        → alloca_from (framed x) (length (front_allocas x)) ≡ None }
    ensures many { (x : Framing) (at : ℕ) (i : Instr) → slice_get (instrs_at x 0) at ≡ Some i
        → allocas_before x None ≡ length (front_allocas x) }
    ensures between { (x : Framing) (at : ℕ) (i : Instr) → slice_get (instrs_at x 0) at ≡ Some i → (k n : ℕ) → k ≤ n
        → AreAllocasBetween x k n }
{}

/// An alloca that is made again without markers gives a cell of its type, where it is as aligned. No frame lies in a
/// block that is still to come.
pub fn made_allocas_are_cells()
    ensures { (g : FramedGiven) (u : State) (line : List Instr) → Each IsGoodAlloca line
        → AreDifferent (allocas_in line) → ((v : ℕ) → IsListed v (allocas_in line) → v < length u.top.values)
        → ((i : ℕ) (y : Instance) → slice_get u.instances i ≡ Some y → y.block < length u.world.memory)
        → (p name align : ℕ) (ty : Ty) → slice_get line p ≡ Some (Instr.Alloca name ty align)
        → has_markers (function_of g.given u) name ≡ false → size_of g.given.code ty ≡ value_bytes ty
        → value_bytes ty ≤ align
        → IsCell (frame_rights g u.instances) (behind_allocas g u line).world.memory
        (behind_allocas g u line).top name ty Anything }
{}
