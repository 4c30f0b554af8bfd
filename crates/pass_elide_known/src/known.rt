//! The step of each instruction is of a known kind.

ghost use Rattle.elide_shape.specs.Calls.{deals};
ghost use Rattle.elide_shape.specs.declared.calls.Dealing.{Dealing};
ghost use Rattle.pass_elide_known.specs.Keeping.{KeepsMore};
ghost use Rattle.pass_elide_known.specs.States.{IsKnownFramed, IsKnownGiving, IsReadyGiving};
ghost use Rattle.pass_elide_proof.specs.Calling.{AreReady};
ghost use Rattle.pass_elide_proof.specs.Elision.{Elision, framed, function_in, rooms};
ghost use Rattle.pass_elide_proof.specs.Match.{IsAtEnd, sides, was_given};
ghost use Rattle.pass_elide_proof.specs.Places.{front_at};
ghost use Rattle.pass_elide_proof.specs.Placing.{KeepsPlaces, is_own};
ghost use Rattle.pass_elide_proof.specs.PlacingStates.{IsLeftWaiting};
ghost use Rattle.pass_elide_proof.specs.Statement.{AreRelated};
ghost use Rattle.pass_elide_proof.specs.Stepping.{IsAccompanied, IsKnownStep, IsReadyFor, IsWaitedFor};
ghost use Rattle.pass_elide_proof.specs.pass_proofs.ir_base.declared.ops.Pred.{Pred};
ghost use Rattle.pass_elide_proof.specs.pass_proofs.ir_base.declared.outcome.Outcome.{Outcome};
ghost use Rattle.pass_elide_proof.specs.pass_proofs.ir_model.Ty.{Ty};
ghost use Rattle.pass_elide_proof.specs.pass_proofs.ir_model.declared.instr.Instr.{Instr};
ghost use Rattle.pass_elide_proof.specs.pass_proofs.ir_model.declared.operand.Allocator.{Allocator};
ghost use Rattle.pass_elide_proof.specs.pass_proofs.ir_model.declared.operand.Arg.{Arg};
ghost use Rattle.pass_elide_proof.specs.pass_proofs.ir_model.declared.operand.Callee.{Callee};
ghost use Rattle.pass_elide_proof.specs.pass_proofs.ir_model.declared.operand.Intrinsic.{Intrinsic};
ghost use Rattle.pass_elide_proof.specs.pass_proofs.ir_model.declared.operand.Operand.{Operand};
ghost use Rattle.pass_elide_proof.specs.pass_proofs.run_agreement.Machines.{IsFine};
ghost use Rattle.pass_elide_proof.specs.pass_proofs.run_framed.Framed.{framed_step};
ghost use Rattle.pass_elide_proof.specs.pass_proofs.run_source.State.{function_of};
ghost use Rattle.pass_elide_proof.specs.pass_proofs.run_source.declared.state.State.{State};
ghost use Rattle.pass_elide_proof.specs.pass_proofs.run_step.Step.{AtInstr, fetch};
ghost use Rattle.std.specs.Prelude.{Bool, List, Option, Some, true, ◌≡◌, ℕ};

/// Both stand beside each other. A step is known if it is where all is executed that is put in front of the place.
pub fn ready_places_are_known()
    ensures { (e : Elision) (s t : State) (r : AreRelated e s t) (i : Instr) → KeepsPlaces e → KeepsMore e
        → IsKnownFramed e s → IsKnownGiving e t → s.outcome ≡ Outcome.Running
        → fetch (function_of (framed e).given s) s.top.block s.top.at ≡ AtInstr i → t.top.block ≡ s.top.block
        → t.top.at ≡ front_at (rooms e s.top.func) (function_in e s.top.func) s.top.block s.top.at
        → ((u : State) (ready : AreReady e s u) → IsReadyGiving e s u → IsReadyFor e s u ready)
        → IsKnownStep e s t r.beside }
{}

/// They are at an intrinsic that stands in coroutines alone.
pub fn own_intrinsics_are_known()
    ensures { (e : Elision) (s t : State) (r : AreRelated e s t) (result : Option ℕ) (must_tail : Bool)
        (ty : Option Ty) (args : List Arg) (j : Intrinsic) → KeepsPlaces e → KeepsMore e → IsKnownFramed e s
        → IsKnownGiving e t → s.outcome ≡ Outcome.Running → IsFine (framed_step (framed e) s).outcome
        → t.top.block ≡ s.top.block
        → t.top.at ≡ front_at (rooms e s.top.func) (function_in e s.top.func) s.top.block s.top.at
        → fetch (function_of (framed e).given s) s.top.block s.top.at
        ≡ AtInstr (Instr.Call result must_tail ty (Callee.Intrinsic j) args) → is_own j ≡ true
        → IsKnownStep e s t r.beside }
{}

/// They are at a deallocation, a comparison or an alloca.
pub fn frees_tests_and_allocas_are_known()
    ensures frees { (e : Elision) (s t : State) (r : AreRelated e s t) (a : Allocator) (result : Option ℕ)
        (must_tail : Bool) (ty : Option Ty) (args : List Arg) → KeepsPlaces e → KeepsMore e → IsKnownFramed e s
        → IsKnownGiving e t → s.outcome ≡ Outcome.Running → IsFine (framed_step (framed e) s).outcome
        → t.top.block ≡ s.top.block
        → t.top.at ≡ front_at (rooms e s.top.func) (function_in e s.top.func) s.top.block s.top.at
        → deals Dealing.Frees a ≡ true → fetch (function_of (framed e).given s) s.top.block s.top.at
        ≡ AtInstr (Instr.Call result must_tail ty (Callee.Allocator a) args) → IsKnownStep e s t r.beside }
    ensures tests { (e : Elision) (s t : State) (r : AreRelated e s t) (name : ℕ) (pred : Pred) (ty : Ty)
        (a b : Operand) → KeepsPlaces e → KeepsMore e → IsKnownFramed e s → IsKnownGiving e t
        → s.outcome ≡ Outcome.Running → IsFine (framed_step (framed e) s).outcome → t.top.block ≡ s.top.block
        → t.top.at ≡ front_at (rooms e s.top.func) (function_in e s.top.func) s.top.block s.top.at
        → fetch (function_of (framed e).given s) s.top.block s.top.at ≡ AtInstr (Instr.Icmp name pred ty a b)
        → IsKnownStep e s t r.beside }
    ensures allocas { (e : Elision) (s t : State) (r : AreRelated e s t) (name align : ℕ) (ty : Ty) → KeepsPlaces e
        → KeepsMore e → IsKnownFramed e s → IsKnownGiving e t → s.outcome ≡ Outcome.Running
        → IsFine (framed_step (framed e) s).outcome → t.top.block ≡ s.top.block
        → t.top.at ≡ front_at (rooms e s.top.func) (function_in e s.top.func) s.top.block s.top.at
        → fetch (function_of (framed e).given s) s.top.block s.top.at ≡ AtInstr (Instr.Alloca name ty align)
        → IsKnownStep e s t r.beside }
{}

/// The framed run allocates or frees a frame, while the other one waits at its branch.
pub fn waiting_instructions_are_known()
    ensures allocating { (e : Elision) (s t : State) (i : Instr) → KeepsPlaces e → IsKnownFramed e s
        → s.outcome ≡ Outcome.Running → IsFine (framed_step (framed e) s).outcome → IsLeftWaiting e s t
        → fetch (function_of (framed e).given s) s.top.block s.top.at ≡ AtInstr i → IsWaitedFor e s t }
    ensures freeing { (e : Elision) (s t : State) (r : AreRelated e s t) (i : Instr) → KeepsPlaces e → KeepsMore e
        → IsKnownFramed e s → IsKnownGiving e t → s.outcome ≡ Outcome.Running
        → IsFine (framed_step (framed e) s).outcome → was_given (sides s t) t.top ≡ true
        → (e.shape s.top.func).frees s.top.block ≡ Some t.top.block → IsAtEnd e t.top
        → fetch (function_of (framed e).given s) s.top.block s.top.at ≡ AtInstr i → IsWaitedFor e s t }
{}

/// They fetch the same in two blocks.
pub fn fetches_aside_are_known()
    ensures { (e : Elision) (s t : State) (r : AreRelated e s t) (i : Instr) → KeepsPlaces e → KeepsMore e
        → IsKnownFramed e s → IsKnownGiving e t → s.outcome ≡ Outcome.Running
        → IsFine (framed_step (framed e) s).outcome → was_given (sides s t) t.top ≡ true
        → (e.shape s.top.func).aside s.top.block ≡ Some t.top.block → t.top.at ≡ s.top.at
        → fetch (function_of (framed e).given s) s.top.block s.top.at ≡ AtInstr i → IsAccompanied e s t r.beside }
{}

/// From related states the step of each instruction is of a known kind, if it isn't undefined.
pub fn instructions_are_known()
    ensures { (e : Elision) (s t : State) (r : AreRelated e s t) (i : Instr) → KeepsPlaces e → KeepsMore e
        → IsKnownFramed e s → IsKnownGiving e t → s.outcome ≡ Outcome.Running
        → IsFine (framed_step (framed e) s).outcome
        → fetch (function_of (framed e).given s) s.top.block s.top.at ≡ AtInstr i → IsKnownStep e s t r.beside }
{}
