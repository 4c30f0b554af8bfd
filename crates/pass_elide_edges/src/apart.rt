//! Behind ends of blocks activations are in blocks of their own only as the relation says.

ghost use Rattle.pass_elide_edges.specs.Keeping.{EntersAlone, HasEdge, KeepsEnds};
ghost use Rattle.pass_elide_edges.specs.States.{AllStandApart, ApartIn, EndsFramed, StandAllApart, StandApart, WereGiven};
ghost use Rattle.pass_elide_proof.specs.Beginning.{IsKnownTo};
ghost use Rattle.pass_elide_proof.specs.Callers.{HaveBlocks};
ghost use Rattle.pass_elide_proof.specs.Elision.{Elision, Shape, elided, framed, function_in};
ghost use Rattle.pass_elide_proof.specs.Match.{AreElided, is_given_mode, sides, was_given};
ghost use Rattle.pass_elide_proof.specs.Statement.{AreRelated};
ghost use Rattle.pass_elide_proof.specs.Stepping.{IsKnownStep, steps_of};
ghost use Rattle.pass_elide_proof.specs.pass_proofs.ir_base.declared.outcome.Outcome.{Outcome};
ghost use Rattle.pass_elide_proof.specs.pass_proofs.ir_model.Names.{position_of};
ghost use Rattle.pass_elide_proof.specs.pass_proofs.ir_model.declared.instr.Case.{Case};
ghost use Rattle.pass_elide_proof.specs.pass_proofs.ir_model.declared.instr.Terminator.{Terminator};
ghost use Rattle.pass_elide_proof.specs.pass_proofs.ir_model.declared.module.Function.{Function};
ghost use Rattle.pass_elide_proof.specs.pass_proofs.ir_model.declared.operand.Arg.{Arg};
ghost use Rattle.pass_elide_proof.specs.pass_proofs.run_agreement.Machines.{IsFine, iterate};
ghost use Rattle.pass_elide_proof.specs.pass_proofs.run_framed.Framed.{FramedGiven, framed_context, framed_step};
ghost use Rattle.pass_elide_proof.specs.pass_proofs.run_laws.changed.Changed.{Each};
ghost use Rattle.pass_elide_proof.specs.pass_proofs.run_source.State.{function_of, work_of};
ghost use Rattle.pass_elide_proof.specs.pass_proofs.run_source.declared.state.Activation.{Activation};
ghost use Rattle.pass_elide_proof.specs.pass_proofs.run_source.declared.state.Mode.{Mode};
ghost use Rattle.pass_elide_proof.specs.pass_proofs.run_source.declared.state.State.{State};
ghost use Rattle.pass_elide_proof.specs.pass_proofs.run_step.Step.{AtTerm, GoTo, fetch, term_action};
ghost use Rattle.std.specs.Prelude.{Bool, List, None, false, length, ◌+◌, ◌≡◌, ◌≢◌, ◌⊎◌, ℕ};

/// The framed run goes over an edge, and the activation of the other one stays in its block or takes an edge too. The
/// two are in blocks of their own then only as the relation says, as they were before.
pub fn edges_keep_apart()
    ensures { (e : Elision) (s t : State) (term : Terminator) (label block : ℕ) → AreRelated e s t
        → StandApart e (sides s t) s.top t.top → EntersAlone (function_in e s.top.func) (e.shape s.top.func)
        → s.outcome ≡ Outcome.Running → IsFine (framed_step (framed e) s).outcome
        → fetch (function_of (framed e).given s) s.top.block s.top.at ≡ AtTerm term
        → term_action (framed_context (framed e) s) (work_of s) term ≡ GoTo label
        → (block ≡ t.top.block)
        ⊎ ((other : ℕ) × (HasEdge (function_in e s.top.func) t.top.block other)
        × (block ≡ position_of (function_in e s.top.func) other))
        → ApartIn (function_in e s.top.func) (e.shape s.top.func) (is_given_mode t.top.mode)
        (was_given (sides s t) t.top) (position_of (function_in e s.top.func) label) block }
{}

/// Where a function is entered they are in no block of their own, nor at a label behind a suspend.
pub fn entries_keep_apart()
    ensures entry { (f : Function) (x : Shape) (ramp given : Bool) → EntersAlone f x
        → ApartIn f x ramp given 0 0 }
    ensures switch { (f : Function) (x : Shape) (given : Bool) (block label : ℕ) (edge : HasEdge f block label)
        (arg : Arg) (default : ℕ) (cases : List Case) → EntersAlone f x
        → edge.term ≡ Terminator.Switch arg default cases
        → ApartIn f x false given (position_of f label) (position_of f label) }
{}

/// A frame that is given behind a step was given before it, unless a ramp that was given it has just begun.
pub fn given_frames_were_given()
    ensures { (g : FramedGiven) (t : State) → HaveBlocks t → WereGiven t (framed_step g t) }
{}

/// What stands apart does so behind a step, where it stays and no other frame is given.
pub fn others_keep_apart()
    ensures { (e : Elision) (x y t u : State) (rows others : List Activation) → WereGiven t u
        → Each (IsKnownTo t.instances) others → StandAllApart e (sides y t) rows others
        → StandAllApart e (sides x u) rows others }
{}

/// Behind a step of a known kind all activations stand apart as they did. Both runs go on in their topmost
/// activations, which don't execute their allocas again; or both call a function; or both return.
pub fn known_steps_keep_apart()
    ensures goes_on { (e : Elision) (s t : State) (r : AreRelated e s t) (k : IsKnownStep e s t r.beside) → KeepsEnds e
        → ((func : ℕ) → EntersAlone (function_in e func) (e.shape func)) → EndsFramed e s → AllStandApart e s t
        → s.outcome ≡ Outcome.Running → IsFine (framed_step (framed e) s).outcome
        → AreElided e (framed_step (framed e) s) (iterate (framed_step (elided e)) (steps_of e s t r.beside k) t)
        → (framed_step (framed e) s).below ≡ s.below
        → ((from label : ℕ) → s.top.mode ≢ Mode.Entering from label)
        → AllStandApart e (framed_step (framed e) s)
        (iterate (framed_step (elided e)) (steps_of e s t r.beside k) t) }
    ensures calls { (e : Elision) (s t : State) (r : AreRelated e s t) (k : IsKnownStep e s t r.beside) → KeepsEnds e
        → ((func : ℕ) → EntersAlone (function_in e func) (e.shape func)) → EndsFramed e s → AllStandApart e s t
        → s.outcome ≡ Outcome.Running → IsFine (framed_step (framed e) s).outcome
        → AreElided e (framed_step (framed e) s) (iterate (framed_step (elided e)) (steps_of e s t r.beside k) t)
        → (framed_step (framed e) s).top.instance ≡ None
        → length (framed_step (framed e) s).below ≡ 1 + length s.below
        → AllStandApart e (framed_step (framed e) s)
        (iterate (framed_step (elided e)) (steps_of e s t r.beside k) t) }
    ensures returns { (e : Elision) (s t : State) (r : AreRelated e s t) (k : IsKnownStep e s t r.beside) → KeepsEnds e
        → ((func : ℕ) → EntersAlone (function_in e func) (e.shape func)) → EndsFramed e s → AllStandApart e s t
        → s.outcome ≡ Outcome.Running → IsFine (framed_step (framed e) s).outcome
        → AreElided e (framed_step (framed e) s) (iterate (framed_step (elided e)) (steps_of e s t r.beside k) t)
        → length s.below ≡ 1 + length (framed_step (framed e) s).below
        → AllStandApart e (framed_step (framed e) s)
        (iterate (framed_step (elided e)) (steps_of e s t r.beside k) t) }
{}
