//! From a source to its framed form in which calls give frames.

ghost use Rattle.compiler_elided.specs.Elided.{AgreesElided, IsExactBeside, elision_of};
ghost use Rattle.compiler_theorem.specs.compiler.run_agreement.Agreements.{AgreesWithin};
ghost use Rattle.pass_frames_prices.specs.FramePrices.{frames_factor};
ghost use Rattle.compiler_theorem.specs.compiler.run_agreement.Machines.{at};
ghost use Rattle.compiler_theorem.specs.theorem.Entries.{IsEntryCall, Run};
ghost use Rattle.compiler_theorem.specs.theorem.Lowered.{HasFewBytes, IsLowered, Lowered, source_run};
ghost use Rattle.pass_elide_lacks.specs.Keeps.{KeepsAsked};
ghost use Rattle.pass_elide_theorem.specs.Exact.{CoversShapes, exact_run};
ghost use Rattle.pass_elide_theorem.specs.Ready.{IsElisionReady};
ghost use Rattle.compiler_theorem.specs.compiler.ir_base.declared.outcome.Place.{Place};
ghost use Rattle.pass_elide_apart.specs.pass_elide_proof.Elision.{Shape};
ghost use Rattle.std.specs.Prelude.{Bool, List, ◌*◌, ℕ};

use compiler_theorem::rows::sources_agree_with_framed_forms;
use compiler_theorem::theorem::sources_have_tables;
use pass_elide_framed::framed::plain_functions_stay;
use pass_elide_theorem::theorem::elided_entry_calls_keep_states;

/// The exact run of a framed form agrees with the source's, if the framed run is exact as far as the source's isn't
/// undefined.
pub fn exact_runs_agree_with_sources()
    ensures { (l : Lowered) (low : IsLowered l) → HasFewBytes l → (sites : List Place) (shape : ℕ → Shape)
        (callees : ℕ → Bool) (r : Run) → IsEntryCall l.source r → IsExactBeside l low sites shape callees r
        → AgreesWithin (4 * (4 * frames_factor l.source)) (at (source_run l r))
        (at (exact_run (elision_of l sites shape r.answers) callees r.entry r.args)) }
{
    sources_have_tables();
    sources_agree_with_framed_forms();
}

/// So does the run that gives frames, if the framed form has what elision asks of it.
pub fn elided_runs_agree_with_sources()
    ensures { (l : Lowered) (low : IsLowered l) → HasFewBytes l → (sites : List Place) (shape : ℕ → Shape)
        (callees : ℕ → Bool) (most : ℕ) (r : Run) → IsEntryCall l.source r
        → IsExactBeside l low sites shape callees r
        → IsElisionReady (elision_of l sites shape r.answers) l.source most
        → KeepsAsked (elision_of l sites shape r.answers)
        → CoversShapes (elision_of l sites shape r.answers) callees
        → AgreesElided l (elision_of l sites shape r.answers) most r }
{
    exact_runs_agree_with_sources();
    elided_entry_calls_keep_states();
    plain_functions_stay();
}
