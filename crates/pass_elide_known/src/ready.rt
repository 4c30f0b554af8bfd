//! Places at which the run that gives frames has executed what is put in front.

ghost use Rattle.elide_shape.specs.Calls.{deals};
ghost use Rattle.elide_shape.specs.declared.calls.Dealing.{Dealing};
ghost use Rattle.pass_elide_known.specs.Keeping.{is_ordinary};
ghost use Rattle.pass_elide_known.specs.States.{IsKnownFramed, IsReadyGiving};
ghost use Rattle.pass_elide_proof.specs.Calling.{AreReady};
ghost use Rattle.pass_elide_proof.specs.Elision.{Elision, framed};
ghost use Rattle.pass_elide_proof.specs.Making.{IsNotEntering};
ghost use Rattle.pass_elide_proof.specs.Match.{sides, was_given};
ghost use Rattle.pass_elide_proof.specs.Placing.{KeepsPlaces, is_test};
ghost use Rattle.pass_elide_proof.specs.Stepping.{IsReadyFor};
ghost use Rattle.pass_elide_proof.specs.pass_proofs.ir_base.declared.name.Name.{Name};
ghost use Rattle.pass_elide_proof.specs.pass_proofs.ir_base.declared.outcome.Outcome.{Outcome};
ghost use Rattle.pass_elide_proof.specs.pass_proofs.ir_model.Ty.{Ty};
ghost use Rattle.pass_elide_proof.specs.pass_proofs.ir_model.declared.instr.Instr.{Instr};
ghost use Rattle.pass_elide_proof.specs.pass_proofs.ir_model.declared.operand.Allocator.{Allocator};
ghost use Rattle.pass_elide_proof.specs.pass_proofs.ir_model.declared.operand.Arg.{Arg};
ghost use Rattle.pass_elide_proof.specs.pass_proofs.ir_model.declared.operand.Callee.{Callee};
ghost use Rattle.pass_elide_proof.specs.pass_proofs.ir_model.declared.operand.Intrinsic.{Intrinsic};
ghost use Rattle.pass_elide_proof.specs.pass_proofs.run_agreement.Machines.{IsFine};
ghost use Rattle.pass_elide_proof.specs.pass_proofs.run_framed.Framed.{framed_step};
ghost use Rattle.pass_elide_proof.specs.pass_proofs.run_source.State.{function_of};
ghost use Rattle.pass_elide_proof.specs.pass_proofs.run_source.declared.state.State.{State};
ghost use Rattle.pass_elide_proof.specs.pass_proofs.run_step.Step.{AtInstr, fetch};
ghost use Rattle.std.specs.Prelude.{Bool, List, Option, false, true, ◌≡◌, ◌⊎◌, ℕ};

/// An ordinary instruction is done by both runs, unless it tests what coro.free gave where the frame was given.
pub fn ordinary_instructions_are_ready()
    ensures { (e : Elision) (s u : State) (r : AreReady e s u) (i : Instr) → KeepsPlaces e → IsKnownFramed e s
        → IsReadyGiving e s u → s.outcome ≡ Outcome.Running → IsFine (framed_step (framed e) s).outcome
        → fetch (function_of (framed e).given s) s.top.block s.top.at ≡ AtInstr i → is_ordinary i ≡ true
        → (is_test (e.shape s.top.func) i ≡ false) ⊎ (was_given (sides s u) u.top ≡ false) → IsReadyFor e s u r }
{}

/// Calls enter functions in both runs, or are observed. Some give an alloca.
pub fn calls_are_ready()
    ensures named { (e : Elision) (s u : State) (r : AreReady e s u) (result : Option ℕ) (must_tail : Bool)
        (ty : Option Ty) (n : Name) (args : List Arg) → KeepsPlaces e → IsKnownFramed e s → IsReadyGiving e s u
        → s.outcome ≡ Outcome.Running → IsFine (framed_step (framed e) s).outcome
        → fetch (function_of (framed e).given s) s.top.block s.top.at
        ≡ AtInstr (Instr.Call result must_tail ty (Callee.Named n) args) → IsReadyFor e s u r }
    ensures pointed { (e : Elision) (s u : State) (r : AreReady e s u) (result : Option ℕ) (must_tail : Bool)
        (ty : Option Ty) (v : ℕ) (args : List Arg) → KeepsPlaces e → IsKnownFramed e s → IsReadyGiving e s u
        → s.outcome ≡ Outcome.Running → IsFine (framed_step (framed e) s).outcome
        → fetch (function_of (framed e).given s) s.top.block s.top.at
        ≡ AtInstr (Instr.Call result must_tail ty (Callee.Local v) args) → IsReadyFor e s u r }
{}

/// Both runs make a block.
pub fn makings_are_ready()
    ensures allocas { (e : Elision) (s u : State) (r : AreReady e s u) (name align : ℕ) (ty : Ty) → KeepsPlaces e
        → IsKnownFramed e s → IsReadyGiving e s u → s.outcome ≡ Outcome.Running
        → IsFine (framed_step (framed e) s).outcome
        → fetch (function_of (framed e).given s) s.top.block s.top.at ≡ AtInstr (Instr.Alloca name ty align)
        → IsNotEntering s.top.mode → IsReadyFor e s u r }
    ensures allocators { (e : Elision) (s u : State) (r : AreReady e s u) (a : Allocator) (result : Option ℕ)
        (must_tail : Bool) (ty : Option Ty) (args : List Arg) → KeepsPlaces e → IsKnownFramed e s
        → IsReadyGiving e s u → s.outcome ≡ Outcome.Running → IsFine (framed_step (framed e) s).outcome
        → fetch (function_of (framed e).given s) s.top.block s.top.at
        ≡ AtInstr (Instr.Call result must_tail ty (Callee.Allocator a) args)
        → deals Dealing.Allocates a ≡ true → IsReadyFor e s u r }
{}

/// Both mark a slot, look at an instance, or wake one.
pub fn intrinsics_are_ready()
    ensures markers { (e : Elision) (s u : State) (r : AreReady e s u) (j : Intrinsic) (result : Option ℕ)
        (must_tail : Bool) (ty : Option Ty) (args : List Arg) → KeepsPlaces e → IsKnownFramed e s
        → IsReadyGiving e s u → s.outcome ≡ Outcome.Running → IsFine (framed_step (framed e) s).outcome
        → fetch (function_of (framed e).given s) s.top.block s.top.at
        ≡ AtInstr (Instr.Call result must_tail ty (Callee.Intrinsic j) args)
        → (j ≡ Intrinsic.LifetimeStart) ⊎ (j ≡ Intrinsic.LifetimeEnd) → IsReadyFor e s u r }
    ensures looks { (e : Elision) (s u : State) (r : AreReady e s u) (j : Intrinsic) (result : Option ℕ)
        (must_tail : Bool) (ty : Option Ty) (args : List Arg) → KeepsPlaces e → IsKnownFramed e s
        → IsReadyGiving e s u → s.outcome ≡ Outcome.Running → IsFine (framed_step (framed e) s).outcome
        → fetch (function_of (framed e).given s) s.top.block s.top.at
        ≡ AtInstr (Instr.Call result must_tail ty (Callee.Intrinsic j) args)
        → (j ≡ Intrinsic.CoroDone) ⊎ (j ≡ Intrinsic.CoroPromise) → IsReadyFor e s u r }
    ensures wakings { (e : Elision) (s u : State) (r : AreReady e s u) (j : Intrinsic) (result : Option ℕ)
        (must_tail : Bool) (ty : Option Ty) (args : List Arg) → KeepsPlaces e → IsKnownFramed e s
        → IsReadyGiving e s u → s.outcome ≡ Outcome.Running → IsFine (framed_step (framed e) s).outcome
        → fetch (function_of (framed e).given s) s.top.block s.top.at
        ≡ AtInstr (Instr.Call result must_tail ty (Callee.Intrinsic j) args)
        → (j ≡ Intrinsic.CoroResume) ⊎ (j ≡ Intrinsic.CoroDestroy) → IsReadyFor e s u r }
{}
