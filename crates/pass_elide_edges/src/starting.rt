//! Where runs start, and in the worked module, what the ends of blocks ask holds.

ghost use Rattle.pass_elide_edges.specs.Keeping.{EntersAlone, KeepsEnds, KeepsFreeing};
ghost use Rattle.pass_elide_edges.specs.States.{AllStandApart, EndsElided, EndsFramed, EntersNoStart, StandApart, StartsBare};
ghost use Rattle.pass_elide_edges.specs.WorkedFreeing.{freeing_function, freeing_shape};
ghost use Rattle.pass_elide_proof.specs.EdgesFreeing.{FreesFrame};
ghost use Rattle.pass_elide_proof.specs.Elision.{Elision, elided, elided_code, framed, function_in};
ghost use Rattle.pass_elide_proof.specs.Match.{AreElided, sides};
ghost use Rattle.pass_elide_proof.specs.OwnSlots.{CountsSlots};
ghost use Rattle.pass_elide_proof.specs.Placing.{KeepsPlaces};
ghost use Rattle.pass_elide_proof.specs.PlacingStates.{BeginsInCoroutines, IsKnownState};
ghost use Rattle.pass_elide_proof.specs.Sound.{NestsNone};
ghost use Rattle.pass_elide_proof.specs.Stepping.{IsKnownStep, steps_of};
ghost use Rattle.pass_elide_proof.specs.Worked.{the_elision};
ghost use Rattle.pass_elide_proof.specs.pass_proofs.ir_base.declared.outcome.Outcome.{Outcome};
ghost use Rattle.pass_elide_proof.specs.pass_proofs.ir_base.declared.outcome.Word.{Word};
ghost use Rattle.pass_elide_proof.specs.pass_proofs.run_agreement.Machines.{IsFine, iterate};
ghost use Rattle.pass_elide_proof.specs.pass_proofs.run_framed.Framed.{FramedGiven, framed_state_at, framed_step};
ghost use Rattle.pass_elide_proof.specs.pass_proofs.run_source.Source.{first_state};
ghost use Rattle.pass_elide_proof.specs.pass_proofs.run_source.declared.state.State.{State};
ghost use Rattle.std.specs.Prelude.{List, false, ◌≡◌, ℕ};

/// The states in which both runs start have what ends of blocks ask of states. The entry is no coroutine, so it has no
/// block beside another one.
pub fn runs_start_at_known_ends()
    ensures framed { (e : Elision) (entry : ℕ) (args : List Word) → KeepsPlaces e
        → (function_in e entry).coroutine ≡ false → EndsFramed e (first_state e.code entry args) }
    ensures elided { (e : Elision) (entry : ℕ) (args : List Word) → KeepsPlaces e
        → (function_in e entry).coroutine ≡ false → EndsElided e (first_state (elided_code e) entry args) }
    ensures apart { (e : Elision) (entry : ℕ) (args : List Word) → KeepsPlaces e
        → (function_in e entry).coroutine ≡ false
        → StandApart e (sides (first_state e.code entry args) (first_state (elided_code e) entry args))
        (first_state e.code entry args).top (first_state (elided_code e) entry args).top }
{}

/// All pairs of activations stand apart there: there is one pair.
pub fn runs_start_apart()
    ensures { (e : Elision) (entry : ℕ) (args : List Word) → KeepsPlaces e → (function_in e entry).coroutine ≡ false
        → AllStandApart e (first_state e.code entry args) (first_state (elided_code e) entry args) }
{}

/// In each state of the framed run it holds too, where no frame has room for another one.
pub fn framed_runs_have_known_ends()
    ensures { (e : Elision) (entry : ℕ) (args : List Word) (n : ℕ) → KeepsPlaces e → NestsNone (framed e)
        → EndsFramed e (framed_state_at (framed e) entry args n) }
{}

/// In elided modules coro.begin stands in coroutines too. So in each state of the run that gives frames activations
/// have as many values as their functions have names.
pub fn elided_runs_are_known()
    ensures begins { (e : Elision) → KeepsPlaces e → BeginsInCoroutines (elided_code e) }
    ensures runs { (e : Elision) (entry : ℕ) (args : List Word) (n : ℕ) → KeepsPlaces e
        → IsKnownState (elided_code e) (framed_state_at (elided e) entry args n) }
{}

/// Behind a step of a known kind slots of the run that gives frames have blocks of their own still.
pub fn slots_stay_counted()
    ensures { (e : Elision) (s t : State) (r : AreElided e s t) (k : IsKnownStep e s t r) → CountsSlots t
        → CountsSlots (iterate (framed_step (elided e)) (steps_of e s t r k) t) }
{}

/// An activation of a function that is no coroutine has no slots at its first place, where no edge leads back. So it is
/// behind each step that isn't undefined. Elided functions have the edges that framed ones have.
pub fn activations_start_bare()
    ensures step { (g : FramedGiven) (s : State) → EntersNoStart g.given.code → IsKnownState g.given.code s
        → s.outcome ≡ Outcome.Running → IsFine (framed_step g s).outcome
        → StartsBare g.given.code (framed_step g s) }
    ensures runs { (g : FramedGiven) (entry : ℕ) (args : List Word) (n : ℕ) → EntersNoStart g.given.code
        → BeginsInCoroutines g.given.code → IsFine (framed_state_at g entry args n).outcome
        → StartsBare g.given.code (framed_state_at g entry args n) }
    ensures elided { (e : Elision) → EntersNoStart e.code → EntersNoStart (elided_code e) }
{}

/// The worked module keeps what ends of its blocks ask.
#[tactic(none)]
pub fn the_worked_module_keeps_ends()
    ensures ends { KeepsEnds the_elision }
    ensures alone { (func : ℕ) → EntersAlone (function_in the_elision func) (the_elision.shape func) }
{}

/// A worked function that tests what is to be freed for null keeps what is asked there. Behind the block that frees and
/// beside it stand blocks on edges.
#[tactic(none)]
pub fn the_worked_function_keeps_freeing()
    ensures { (q : FreesFrame freeing_function freeing_shape)
        × KeepsFreeing freeing_function freeing_shape q }
{}
