//! Steps and counts of allocator calls.

ghost use Rattle.std.specs.Prelude.{◌≡◌, ℕ};
ghost use Rattle.pass_elide_proof.specs.Counts.{counted_action, counted_state, counted_work};
ghost use Rattle.pass_proofs.specs.run_framed.Framed.{FramedGiven, framed_step};
ghost use Rattle.pass_proofs.specs.run_source.declared.state.State.{State};
ghost use Rattle.pass_proofs.specs.run_step.Step.{Context, Fetched, Work, action_of};

/// A step doesn't look at the count of allocator calls: with another count it does the same but for the count.
pub fn counts_are_not_looked_at()
    ensures ordinary { (n k : ℕ) (c : Context) (w : Work) (here : Fetched)
        → counted_action n (action_of c (counted_work k w) here) ≡ counted_action n (action_of c w here) }
    ensures framed { (g : FramedGiven) (n k : ℕ) (s : State)
        → counted_state n (framed_step g (counted_state k s)) ≡ counted_state n (framed_step g s) }
{}
