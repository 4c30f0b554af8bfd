//! Runs that are over.

ghost use Rattle.std.specs.Prelude.{List, [], ◌≡◌, ℕ};
ghost use Rattle.pass_elide_proof.specs.Elision.{Elision, function_in, rooms};
ghost use Rattle.pass_elide_proof.specs.Match.{AreElided};
ghost use Rattle.pass_elide_proof.specs.Places.{allocas_ahead};
ghost use Rattle.pass_elide_proof.specs.Returning.{HaveReturned};
ghost use Rattle.pass_elide_proof.specs.Worked.{after, before, the_elision};
ghost use Rattle.pass_proofs.specs.ir_base.declared.outcome.Word.{Word};
ghost use Rattle.pass_proofs.specs.run_agreement.Machines.{IsReturned};
ghost use Rattle.pass_proofs.specs.run_framed.Framed.{FramedGiven, framed_state_at};
ghost use Rattle.pass_proofs.specs.run_source.declared.state.State.{State};

/// Behind its first place a function whose slots are dead has no new allocas, if the states are beside each other.
pub fn states_with_dead_slots_have_no_allocas()
    ensures { (e : Elision) (s t : State) → AreElided e s t → t.top.slots ≡ [] → (s.top.at ≡ 0 → ⊥)
        → allocas_ahead (rooms e s.top.func) (function_in e s.top.func) ≡ [] }
{}

/// The last states of a worked run, whose entry has a site, aren't beside each other. Both runs have returned there.
#[tactic(none)]
pub fn a_worked_run_is_over()
    ensures apart { AreElided the_elision (before 51) (after 49) → ⊥ }
    ensures over { HaveReturned (before 51) (after 49) }
{}

/// Where a framed run has returned, no activation is below its last one.
pub fn runs_return_from_their_last_activation()
    ensures { (g : FramedGiven) (entry : ℕ) (args : List Word) (n : ℕ)
        → IsReturned (framed_state_at g entry args n).outcome → (framed_state_at g entry args n).below ≡ [] }
{}
