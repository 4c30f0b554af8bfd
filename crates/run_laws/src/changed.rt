//! What the ordinary step depends on: the same step in a changed module.
//!
//! Each ordinary step does the same, changed, in a module that is changed without touching types, callees and
//! operands' values (`ordinary_step_is_kept`).

ghost use Rattle.std.specs.Prelude.{◌≡◌};
ghost use Rattle.run_step.specs.Step.{Context, Fetched, Work, action_of};
ghost use Rattle.run_laws.specs.changed.Changed.{Change, IsKeptAt, IsLike, changed_action, changed_work};

/// Where a changed module leaves types, functions by their names and types, the operands' values and the declarations of
/// the callees as they are, each ordinary step does the same, changed.
#[tactic(auto, using(crate::proofs::changed::Kept::action_kept))]
pub fn ordinary_step_is_kept()
    ensures { (ch : Change) (c d : Context) (w : Work) (here : Fetched) → IsLike c d → IsKeptAt ch c d w.values here → action_of d (changed_work ch w) here ≡ changed_action ch (action_of c w here) }
{}
