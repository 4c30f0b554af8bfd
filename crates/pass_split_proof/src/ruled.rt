//! What steps ask is met by the rules of another module, which has the ramps to which calls give frames.
//!
//! Where a call gives a frame, the module itself knows no function of the name that is called, and an alloca may be as
//! large as a frame. So its functions are judged in a module with these ramps, by the limits of modules without
//! coroutines.

ghost use Rattle.std.specs.Prelude.{◌≡◌, ℕ, ℤ, Bool, true, List, Option, Some};
ghost use Rattle.pass_proofs.specs.frame_layout.declared.layout.Layouts.{Layouts};
ghost use Rattle.pass_proofs.specs.ir_base.declared.name.Name.{Name};
ghost use Rattle.pass_proofs.specs.ir_base.declared.outcome.Word.{Word};
ghost use Rattle.pass_proofs.specs.ir_model.Names.{function_at};
ghost use Rattle.pass_proofs.specs.ir_model.Ty.{Ty};
ghost use Rattle.pass_proofs.specs.ir_model.declared.instr.Instr.{Instr as TheInstr};
ghost use Rattle.pass_proofs.specs.ir_model.declared.module.Module.{Module};
ghost use Rattle.pass_proofs.specs.ir_model.declared.operand.Arg.{Arg as TheArg};
ghost use Rattle.pass_proofs.specs.ir_model.declared.operand.Callee.{Callee as TheCallee};
ghost use Rattle.pass_proofs.specs.ir_model.declared.operand.Intrinsic.{Intrinsic};
ghost use Rattle.pass_proofs.specs.pass_intrinsics.Shapes.{given_name};
ghost use Rattle.pass_proofs.specs.pass_split.Given.{has_given_call};
ghost use Rattle.pass_proofs.specs.rule_names.declared.stage.Stage.{Stage};
ghost use Rattle.pass_proofs.specs.run_framed.Framed.{framed_given, given_ramp};
ghost use Rattle.pass_proofs.specs.run_laws.memory.Pointers.{IsValue};
ghost use Rattle.pass_proofs.specs.run_memory.declared.pointer.Value.{Value as TheValue};
ghost use Rattle.pass_proofs.specs.run_source.Source.{first_state};
ghost use Rattle.pass_proofs.specs.run_source.declared.state.Mode.{Mode};
ghost use Rattle.pass_proofs.specs.run_source.declared.state.State.{State as TheState};
ghost use Rattle.pass_proofs.specs.run_step.Step.{AtInstr};
ghost use Rattle.pass_proofs.specs.run_step.Values.{value_in};
ghost use Rattle.pass_split_proof.specs.first_exits.Parted.{parted_module};
ghost use Rattle.pass_split_proof.specs.given_begins.Beginning.{IsAtGivenBegin};
ghost use Rattle.pass_split_proof.specs.given_calls.Calling.{IsAtGivenCall};
ghost use Rattle.pass_split_proof.specs.given_calls.Ramps.{HasCalledRamps};
ghost use Rattle.pass_split_proof.specs.ready.Module.{IsFollowableIn};
ghost use Rattle.pass_split_proof.specs.simulation.Premises.{ArePremisesMet, IsAt, IsAtPlace};
ghost use Rattle.pass_split_proof.specs.simulation.Statement.{IsEntryOfParts, IsPartableIn, IsRulerOf, parts_given};
ghost use Rattle.pass_split_proof.specs.states.Memories.{homes_of};
ghost use Rattle.pass_split_proof.specs.states.Related.{AreRelated};
ghost use Rattle.run_access_worked.specs.run_plain.Plain.{plain_first};
ghost use Rattle.run_access_worked.specs.run_plain.declared.state.PlainState.{PlainState as ThePlainState};

/// A module is judged by its own rules.
pub fn modules_rule_themselves()
    ensures { (m : Module) → IsRulerOf m m }
{}

/// The runs of a framed module and of its parts start in related states.
pub fn ruled_runs_start_related()
    ensures { (stage : Stage) (r : Module) (ls : Layouts) (m : Module) → IsPartableIn stage r ls m
        → (entry other : ℕ) (args : List Word) (answers : List ℤ) → IsEntryOfParts ls m entry other
        → AreRelated (framed_given m ls.coroutines answers) (parts_given ls m answers) (first_state m entry args)
        (plain_first (parted_module ls m) other args) }
{}

/// All that steps ask of the module is met.
pub fn ruled_premises_are_met()
    ensures { (stage : Stage) (r : Module) (ls : Layouts) (m : Module) → IsFollowableIn stage r ls m
        → (answers : List ℤ) → ArePremisesMet (framed_given m ls.coroutines answers) (parts_given ls m answers) }
{}

/// At a call that gives a frame stands what its law asks, where the rules' module has the ramps that are called.
pub fn ruled_given_calls_are_ready()
    ensures { (stage : Stage) (r : Module) (ls : Layouts) (m : Module) → IsFollowableIn stage r ls m
        → HasCalledRamps r m → (answers : List ℤ) (s : TheState) (t : ThePlainState)
        (related : AreRelated (framed_given m ls.coroutines answers) (parts_given ls m answers) s t)
        (result : Option ℕ) (must_tail : Bool) (ty : Option Ty) (name : Name) (args : List TheArg) (func : ℕ)
        → IsAt (framed_given m ls.coroutines answers) s (AtInstr
        (TheInstr.Call result must_tail ty (TheCallee.Named name) args))
        → IsAtPlace (framed_given m ls.coroutines answers) (parts_given ls m answers) s t related
        → given_ramp m name ≡ Some func
        → IsAtGivenCall (framed_given m ls.coroutines answers) (parts_given ls m answers) s t related }
{}

/// So it does at a begin of a given frame, where the part has what the ramp was given, and a call gives frames to the
/// coroutine.
pub fn ruled_given_begins_are_ready()
    ensures { (stage : Stage) (r : Module) (ls : Layouts) (m : Module) → IsFollowableIn stage r ls m
        → (answers : List ℤ) (s : TheState) (t : ThePlainState)
        (related : AreRelated (framed_given m ls.coroutines answers) (parts_given ls m answers) s t)
        (result : Option ℕ) (must_tail : Bool) (ty : Option Ty) (args : List TheArg) (frame : TheValue)
        → IsAt (framed_given m ls.coroutines answers) s (AtInstr
        (TheInstr.Call result must_tail ty (TheCallee.Intrinsic Intrinsic.CoroBegin) args))
        → IsAtPlace (framed_given m ls.coroutines answers) (parts_given ls m answers) s t related
        → s.top.mode ≡ Mode.GivenRamp frame
        → IsValue (homes_of s.world.memory) frame (value_in t.top.values (given_name related.top.shape))
        → has_given_call m (function_at m s.top.func) ≡ true
        → IsAtGivenBegin (framed_given m ls.coroutines answers) (parts_given ls m answers) s t related }
{}
