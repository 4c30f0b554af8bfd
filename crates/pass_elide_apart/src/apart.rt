//! Behind each step of a known kind activations of both runs are in blocks of their own only as the relation says.

ghost use Rattle.pass_elide_apart.specs.Behind.{GoesBehind, KnowsBehind};
ghost use Rattle.pass_elide_edges.specs.Keeping.{EntersAlone, KeepsEnds};
ghost use Rattle.pass_elide_edges.specs.States.{AllStandApart, EndsFramed, StandApart};
ghost use Rattle.pass_elide_edges.specs.pass_elide_proof.Elision.{Elision, elided, framed, function_in};
ghost use Rattle.pass_elide_edges.specs.pass_elide_proof.Match.{AreActivations, AreElided, Sides};
ghost use Rattle.pass_elide_edges.specs.pass_elide_proof.Statement.{AreRelated};
ghost use Rattle.pass_elide_edges.specs.pass_elide_proof.Stepping.{IsKnownStep, steps_of};
ghost use Rattle.pass_elide_kept.specs.Modules.{KeepsHandlesAndEnds};
ghost use Rattle.pass_elide_edges.specs.pass_elide_proof.pass_proofs.ir_base.declared.outcome.Outcome.{Outcome};
ghost use Rattle.pass_elide_edges.specs.pass_elide_proof.pass_proofs.run_agreement.Machines.{IsFine, iterate};
ghost use Rattle.pass_elide_edges.specs.pass_elide_proof.pass_proofs.run_framed.Framed.{framed_step};
ghost use Rattle.pass_elide_edges.specs.pass_elide_proof.pass_proofs.run_laws.memory.Pointers.{Home};
ghost use Rattle.pass_elide_edges.specs.pass_elide_proof.pass_proofs.run_source.declared.state.Activation.{Activation};
ghost use Rattle.pass_elide_edges.specs.pass_elide_proof.pass_proofs.run_source.declared.state.State.{State};
ghost use Rattle.std.specs.Prelude.{Bool, List, ◌≡◌, ℕ};

/// Two activations that go on behind a suspend stand in one block: at an alloca of the entry block, or at a label to
/// which a switch leads. Neither is a block of its own, since those are entered from other blocks.
pub fn woken_activations_stand_apart()
    ensures { (e : Elision) (homes : List Home) (hides : ℕ → Bool) (d : Sides) (a c : Activation) → KeepsEnds e
        → KeepsHandlesAndEnds e → ((func : ℕ) → EntersAlone (function_in e func) (e.shape func))
        → AreActivations e homes hides d a c → GoesBehind e.code a → StandApart e d a c }
{}

/// Behind a step of any known kind all activations stand apart as they did: where both go on, call, return, wake an
/// instance or execute an alloca again.
pub fn all_known_steps_keep_apart()
    ensures { (e : Elision) (s t : State) (r : AreRelated e s t) (k : IsKnownStep e s t r.beside) → KeepsEnds e
        → KeepsHandlesAndEnds e → ((func : ℕ) → EntersAlone (function_in e func) (e.shape func)) → EndsFramed e s
        → KnowsBehind e.code s → AllStandApart e s t → s.outcome ≡ Outcome.Running
        → IsFine (framed_step (framed e) s).outcome
        → AreElided e (framed_step (framed e) s) (iterate (framed_step (elided e)) (steps_of e s t r.beside k) t)
        → AllStandApart e (framed_step (framed e) s)
        (iterate (framed_step (elided e)) (steps_of e s t r.beside k) t) }
{}
