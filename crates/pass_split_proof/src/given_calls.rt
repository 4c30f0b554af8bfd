//! Calls that give a ramp its frame.

ghost use Rattle.std.specs.Prelude.{◌≡◌, ℕ, ℤ, Bool, true, List, length, Option, Some, slice_get};
ghost use Rattle.pass_proofs.specs.frame_layout.declared.layout.Layouts.{Layouts};
ghost use Rattle.pass_proofs.specs.ir_base.declared.name.Name.{Name};
ghost use Rattle.pass_proofs.specs.ir_base.declared.outcome.Outcome.{Outcome};
ghost use Rattle.pass_proofs.specs.ir_model.Names.{function_at, function_named};
ghost use Rattle.pass_proofs.specs.ir_model.Ty.{Ty};
ghost use Rattle.pass_proofs.specs.ir_model.declared.instr.Instr.{Instr as TheInstr};
ghost use Rattle.pass_proofs.specs.ir_model.declared.instr.Phi.{Phi as ThePhi};
ghost use Rattle.pass_proofs.specs.ir_model.declared.module.Block.{Block as TheBlock};
ghost use Rattle.pass_proofs.specs.ir_model.declared.module.Function.{Function};
ghost use Rattle.pass_proofs.specs.ir_model.declared.module.Module.{Module};
ghost use Rattle.pass_proofs.specs.ir_model.declared.operand.Arg.{Arg as TheArg};
ghost use Rattle.pass_proofs.specs.ir_model.declared.operand.Callee.{Callee as TheCallee};
ghost use Rattle.pass_proofs.specs.flow_solver.Paths.{IsListed};
ghost use Rattle.pass_proofs.specs.pass_intrinsics.Shapes.{given_name};
ghost use Rattle.pass_proofs.specs.pass_intrinsics.declared.shape.Part.{Part};
ghost use Rattle.pass_proofs.specs.pass_intrinsics.declared.shape.Shape.{Shape as TheShape};
ghost use Rattle.pass_proofs.specs.split.rules.Splittable.{IsSplittable};
ghost use Rattle.pass_split_proof.specs.places.Places.{IsCodeOf};
ghost use Rattle.pass_proofs.specs.run_laws.changed.Changed.{result_of};
ghost use Rattle.pass_proofs.specs.pass_split.Given.{has_given_call};
ghost use Rattle.pass_split_proof.specs.first_exits.Parted.{parted_module};
ghost use Rattle.pass_split_proof.specs.given_calls.Calling.{IsAtGivenCall, IsGivenCallee, IsGivenFrame};
ghost use Rattle.pass_split_proof.specs.given_calls.Ramps.{IsSplitBy};
ghost use Rattle.pass_split_proof.specs.ready.Names.{HasMovedNames};
ghost use Rattle.pass_split_proof.specs.simulation.Followed.{IsFollowed};
ghost use Rattle.pass_split_proof.specs.states.Instances.{part_position};
ghost use Rattle.pass_split_proof.specs.states.Related.{AreRelated};
ghost use Rattle.pass_proofs.specs.run_framed.Framed.{FramedGiven, framed_given, framed_step, given_ramp};
ghost use Rattle.run_access_worked.specs.run_plain.Plain.{PlainGiven, plain_step};
ghost use Rattle.run_access_worked.specs.run_plain.declared.state.PlainState.{PlainState as ThePlainState};
ghost use Rattle.pass_proofs.specs.run_source.declared.state.State.{State as TheState};
ghost use Rattle.pass_proofs.specs.run_step.Step.{AtInstr, fetch};

/// A call that gives a frame is followed in one step: the part calls the ramp that is given its frame, by the same
/// name. Behind it the ramp's last parameter has what stands for the frame's address.
pub fn calls_that_give_frames_are_followed()
    ensures steps { (g : FramedGiven) (h : PlainGiven) (s : TheState) (t : ThePlainState) (r : AreRelated g h s t)
        → s.outcome ≡ Outcome.Running → IsAtGivenCall g h s t r → IsFollowed g h s t }
    ensures given { (g : FramedGiven) (h : PlainGiven) (s : TheState) (t : ThePlainState) (r : AreRelated g h s t)
        → s.outcome ≡ Outcome.Running → IsAtGivenCall g h s t r
        → IsGivenFrame g (framed_step g s) (plain_step h t) }
{}

/// A ramp that some call gives its frame stands in the module of parts, where calls of it find it by its name. It has
/// the frame's address behind its parameters.
pub fn called_ramps_are_there()
    ensures given { (m : Module) (func block at : ℕ) (result : Option ℕ) (must_tail : Bool) (ty : Option Ty)
        (name : Name) (args : List TheArg)
        → fetch (function_at m func) block at ≡ AtInstr (TheInstr.Call result must_tail ty (TheCallee.Named name) args)
        → (k : ℕ) → given_ramp m name ≡ Some k → has_given_call m (function_at m k) ≡ true }
    ensures callee { (ls : Layouts) (m : Module) (answers : List ℤ) (k : ℕ) → IsSplitBy ls m k
        → has_given_call m (function_at m k) ≡ true
        → IsGivenCallee (framed_given m ls.coroutines answers) (parted_module ls m) k }
    ensures named { (ls : Layouts) (m : Module) (answers : List ℤ) (k : ℕ) → IsSplitBy ls m k
        → has_given_call m (function_at m k) ≡ true → HasMovedNames ls m → (name : Name)
        → given_ramp m name ≡ Some k → function_named (parted_module ls m) name
        ≡ Some (part_position (framed_given m ls.coroutines answers) k Part.GivenRamp) }
{}

/// No instruction of a ramp that is given its frame sets the parameter for it (N1). Nor is that a result or a phi of
/// the coroutine, whose names stand before it.
pub fn parameters_for_frames_stay()
    ensures part { (f q : Function) (s : TheShape) (part : Part) → IsCodeOf f q s part → part ≡ Part.GivenRamp
        → (block at : ℕ) (i : TheInstr) → fetch q block at ≡ AtInstr i → result_of i ≡ Some (given_name s) → ⊥ }
    ensures results { (m : Module) (k : ℕ) (f : Function) (begin : ℕ) → IsSplittable m k f begin → (s : TheShape)
        → s.base ≡ length f.names → (block at : ℕ) (i : TheInstr) → fetch f block at ≡ AtInstr i
        → result_of i ≡ Some (given_name s) → ⊥ }
    ensures phis { (m : Module) (k : ℕ) (f : Function) (begin : ℕ) → IsSplittable m k f begin → (s : TheShape)
        → s.base ≡ length f.names → (block : ℕ) (b : TheBlock) → slice_get f.blocks block ≡ Some b → (p : ThePhi)
        → IsListed p b.phis → p.result ≡ given_name s → ⊥ }
{}
