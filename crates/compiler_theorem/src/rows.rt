//! The rows of the theorem as laws: from a source to its framed form, and from there to what is printed.

ghost use Rattle.std.specs.Prelude.{◌*◌, ◌≤◌, ℕ};
ghost use Rattle.compiler.specs.pass_proofs.kept.sources.Beside.{IsKeptOf, IsNearlyKeptOf};
ghost use Rattle.compiler.specs.run_agreement.Agreements.{AgreesWithin};
ghost use Rattle.compiler.specs.run_agreement.Costs.{AgreesBy, Through, cost_at};
ghost use Rattle.compiler.specs.run_agreement.Machines.{IsFine, at};
ghost use Rattle.compiler_theorem.specs.Calls.{KeepsFrames};
ghost use Rattle.compiler_theorem.specs.theorem.Anew.{Anew, IsAnewOf};
ghost use Rattle.compiler_theorem.specs.theorem.Built.{building};
ghost use Rattle.compiler_theorem.specs.theorem.Entries.{IsEntry, IsEntryCall, Run};
ghost use Rattle.compiler_theorem.specs.theorem.Lowered.{HasFewBytes, IsLowered, Lowered, early, framed_run, kept_run, plain_run, price_kept, printed_from, sizes_of, source_run};
ghost use Rattle.compiler_theorem.specs.theorem.Theorem.{AreMadeAnew, prices_of};
ghost use Rattle.pass_frames_meaning.specs.pass_frames_proof.Related.{AreBuiltOf, AreShownAlike};
ghost use Rattle.pass_frames_meaning.specs.pass_renewed_meaning.Followed.{AreAlike};
ghost use Rattle.pass_frames_prices.specs.FramePrices.{frames_factor};
ghost use Rattle.pass_frames_meaning.specs.run_types.States.{AreArguments};

/// From a source to where resumes hand on what is needed a step costs 4. From there to frames it costs its price, where slots
/// are made anew first. Both rows have their relations. The prices are at most 4 for each name of the function that
/// has most and each operand, and 4, on average over a run.
pub fn sources_agree_with_framed_forms()
    ensures kept { (l : Lowered) (low : IsLowered l) → HasFewBytes l → (a : Anew) → IsAnewOf (early l) a → (r : Run)
        → IsEntryCall l.source r → AgreesBy (IsKeptOf l.source (sizes_of l) r.answers)
        (IsNearlyKeptOf l.source (sizes_of l) r.entry r.args r.answers) (source_run l r) (λ s. 4) (kept_run l a r)
        (λ t. 1) }
    ensures framed { (l : Lowered) (low : IsLowered l) → HasFewBytes l → (a : Anew) → IsAnewOf (early l) a → (r : Run)
        → IsEntryCall l.source r → AgreesBy (Through (AreMadeAnew l a) (AreBuiltOf (building l low.is_framed r.answers)))
        (Through AreAlike (AreShownAlike (building l low.is_framed r.answers))) (kept_run l a r)
        (price_kept l a r (prices_of l low a)) (framed_run l l.framed r) (λ t. 1) }
    ensures paid { (l : Lowered) (low : IsLowered l) → HasFewBytes l → (a : Anew) → IsAnewOf (early l) a → (r : Run)
        → IsEntryCall l.source r → (n : ℕ) → IsFine (at (kept_run l a r) n).outcome
        → cost_at (kept_run l a r) (price_kept l a r (prices_of l low a)) n ≤ (4 * frames_factor l.source) * n }
{}

/// Runs of a source and of its framed form agree within 2 for the first pass, times 8 for each name and operand. Names are
/// those of the function that has most. In frames slots and values stand where they lie by the layouts.
pub fn framed_forms_keep_meaning()
    ensures { (l : Lowered) → IsLowered l → HasFewBytes l → (r : Run) → IsEntryCall l.source r → KeepsFrames l r }
{}

/// What is printed agrees within 4 with the framed form.
pub fn framed_forms_agree_with_what_is_printed()
    ensures { (l : Lowered) → IsLowered l → HasFewBytes l → (r : Run) (other : ℕ)
        → IsEntry l.source (printed_from l l.framed) r.entry other → AreArguments l.source r.entry r.args
        → AgreesWithin 4 (at (framed_run l l.framed r)) (at (plain_run (printed_from l l.framed) r other)) }
{}
