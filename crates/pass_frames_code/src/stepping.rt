//! Steps of the run in which slots are made anew, from state to state, and those of the framed run.

ghost use Rattle.std.specs.Prelude.{◌≡◌, ℕ, Bool, List, Option};
ghost use Rattle.pass_proofs.specs.ir_model.Ty.{Ty};
ghost use Rattle.pass_proofs.specs.ir_model.declared.instr.Instr.{Instr};
ghost use Rattle.pass_proofs.specs.ir_model.declared.instr.Terminator.{Terminator};
ghost use Rattle.pass_proofs.specs.ir_model.declared.operand.Arg.{Arg};
ghost use Rattle.pass_proofs.specs.ir_model.declared.operand.Operand.{Operand};
ghost use Rattle.pass_frames_code.specs.Followed.{IsFollowed};
ghost use Rattle.pass_frames_code.specs.Led.{LeavesMemory};
ghost use Rattle.pass_frames_code.specs.Related.{AreBuiltOf, Building};
ghost use Rattle.pass_frames_code.specs.Stepping.{AreFieldsSpared, AreGiven, GoesAsFar, HasFieldIndices, IsAtOrdinary, IsAtOther, IsAtOtherBranch, IsAtOtherCall};
ghost use Rattle.pass_renewed_proof.specs.Renewed.{RenewedGiven};
ghost use Rattle.pass_proofs.specs.run_memory.declared.pointer.Value.{Value};
ghost use Rattle.pass_proofs.specs.run_source.Source.{context_of};
ghost use Rattle.pass_proofs.specs.run_source.declared.state.State.{State};
ghost use Rattle.pass_proofs.specs.run_step.Step.{Context, Work};
ghost use Rattle.pass_proofs.specs.run_step.Values.{Env, distance};

/// In a coroutine an instruction that changes no memory is followed: its kept operands are loaded, addresses of
/// slots in
/// the frame are made, it is executed, and its result is stored.
pub fn ordinary_instructions_are_followed()
    ensures { (b : Building) (g : RenewedGiven) → AreGiven b g → (s t : State) → AreBuiltOf b s t
        → (i : Instr) (v : Work)
        → IsAtOrdinary b g s i v → LeavesMemory (context_of g.given s) i → IsFollowed b g s t }
{}

/// So is a store, where no live slot lies in the fields of suspended instances.
pub fn stores_are_followed()
    ensures { (b : Building) (g : RenewedGiven) → AreGiven b g → (s t : State) (r : AreBuiltOf b s t) (arg : Arg)
        (p : Operand) (align : ℕ) (v : Work) → IsAtOrdinary b g s (Instr.Store arg p align) v
        → AreFieldsSpared b s t r → IsFollowed b g s t }
{}

/// In a function that is no coroutine the framed run makes the same step: of such an instruction, of a store, of a
/// branch, and of a call of another such function.
pub fn steps_of_other_functions_are_followed()
    ensures ordinary { (b : Building) (g : RenewedGiven) → AreGiven b g → (s t : State) → AreBuiltOf b s t
        → (i : Instr) (v : Work) → IsAtOther b g s i v → LeavesMemory (context_of g.given s) i → IsFollowed b g s t }
    ensures store { (b : Building) (g : RenewedGiven) → AreGiven b g → (s t : State) (r : AreBuiltOf b s t) (arg : Arg)
        (p : Operand) (align : ℕ) (v : Work) → IsAtOther b g s (Instr.Store arg p align) v
        → AreFieldsSpared b s t r → IsFollowed b g s t }
    ensures branch { (b : Building) (g : RenewedGiven) → AreGiven b g → (s t : State) → AreBuiltOf b s t
        → (e : Terminator) (label : ℕ) → IsAtOtherBranch b g s e label → IsFollowed b g s t }
    ensures call { (b : Building) (g : RenewedGiven) → AreGiven b g → (s t : State) → AreBuiltOf b s t → (i : Instr)
        (func : ℕ) (args : List Value) (result : Option ℕ) (must_tail : Bool)
        → IsAtOtherCall b g s i func args result must_tail → IsFollowed b g s t }
{}

/// In the framed module, which has the same types, a getelementptr goes as far where its operands stand for the
/// source's.
pub fn addresses_go_as_far()
    ensures { (b : Building) (c : Context) (env : Env) (i : Instr)
        → ((u : Ty) (is : List (Option ℕ)) → distance b.framed_code u is ≡ distance c.code u is)
        → HasFieldIndices c.code i → GoesAsFar b c env i }
{}
