//! Step machines, what it means that two of their runs agree, and the laws of agreement.
//!
//! Agreement composes, and factors multiply (`agreement_composes`, `agreement_within_composes`). A greater bound is
//! weaker. The lockstep lemma with a measure is a lemma, for the proofs of the passes.
#![tactic(auto)]

ghost use Rattle.std.specs.Prelude.{ℕ, ◌+◌, ◌*◌, ◌≤◌};
ghost use Rattle.run_agreement.specs.Machines.{IsFine, Machine, Seen, at};
ghost use Rattle.run_agreement.specs.Agreements.{Agrees, AgreesWithin};
ghost use Rattle.run_agreement.specs.Costs.{AgreesBy, Any, Through, cost_at};

/// Agreement composes, and its factors multiply.
#[tactic(auto, using(crate::proofs::Compose::compose))]
pub fn agreement_composes()
    ensures { (j i k l : ℕ) (a b c : ℕ → Seen) → Agrees j i a b → Agrees k l b c → Agrees (j * k) (k * i + l) a c }
{}

/// Agreement within a number of steps for one composes, and the numbers multiply.
#[tactic(auto, using(crate::proofs::Compose::compose_within))]
pub fn agreement_within_composes()
    ensures { (j k : ℕ) (a b c : ℕ → Seen) → AgreesWithin j a b → AgreesWithin k b c → AgreesWithin (j * k) a c }
{}

/// Agreement holds with greater factors too.
#[tactic(auto, using(crate::proofs::Compose::weaken))]
pub fn agreement_weakens()
    ensures { (j i k l : ℕ) (a b : ℕ → Seen) → j ≤ k → i ≤ l → Agrees j i a b → Agrees k l a b }
{}

/// Relations between states of two runs: one at corresponding steps, and one in which all states of the second stand.
pub trait Keeps<S, T> {
    ghost corresponds: { S → T → Type 0 };

    ghost stands: { S → T → Type 0 };
}

/// Agreement by costs composes, and so do the relations: the prices of the steps in between are those that later passes need.
pub fn agreement_by_costs_composes<S, T, U, P: Keeps<S, T>, Q: Keeps<T, U>>()
    ensures { (a : Machine S) (price : S → ℕ) (b : Machine T) (cost : T → ℕ) (c : Machine U) (last : U → ℕ) → AgreesBy P.corresponds P.stands a price b cost → AgreesBy Q.corresponds Q.stands b cost c last → AgreesBy (Through P.corresponds Q.corresponds) (Through P.stands Q.stands) a price c last }
{}

/// Agreement by costs holds with weaker relations too, where the first run has no less and the second spends no more.
pub fn agreement_by_costs_weakens<S, T, P: Keeps<S, T>, Q: Keeps<S, T>>()
    ensures { (a : Machine S) (price given : S → ℕ) (b : Machine T) (cost spent : T → ℕ) → ((s : S) (t : T) → P.corresponds s t → Q.corresponds s t) → ((s : S) (t : T) → P.stands s t → Q.stands s t) → ((n : ℕ) → IsFine (at a n).outcome → cost_at a price n ≤ cost_at a given n) → ((m : ℕ) → cost_at b spent m ≤ cost_at b cost m) → AgreesBy P.corresponds P.stands a price b cost → AgreesBy Q.corresponds Q.stands a given b spent }
{}

/// Agreement by costs, where the first run has at most k for each of its steps and the second spends 1 or more, is agreement within k.
pub fn costs_bound_steps<S, T, P: Keeps<S, T>>()
    ensures { (a : Machine S) (price : S → ℕ) (b : Machine T) (cost : T → ℕ) (k : ℕ) → ((n : ℕ) → IsFine (at a n).outcome → cost_at a price n ≤ k * n) → ((m : ℕ) → m ≤ cost_at b cost m) → AgreesBy P.corresponds P.stands a price b cost → AgreesWithin k (at a) (at b) }
{}

/// Agreement within k is agreement by costs, where the second run spends at most w for each of its steps and the first has w times k.
pub fn steps_bound_costs<S, T>()
    ensures { (a : Machine S) (price : S → ℕ) (b : Machine T) (cost : T → ℕ) (k w : ℕ) → ((n : ℕ) → IsFine (at a n).outcome → (w * k) * n ≤ cost_at a price n) → ((m : ℕ) → cost_at b cost m ≤ w * m) → AgreesWithin k (at a) (at b) → AgreesBy Any Any a price b cost }
{}
