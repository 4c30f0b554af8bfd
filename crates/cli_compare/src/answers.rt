//! Answers to comparisons.

ghost use Rattle.std.specs.Prelude.{◌≡◌, IfOk, slice_get};
ghost use Rattle.cli_compare.specs.Compared.{IsCompared, IsReported, IsReportedBy, IsReportedOf, counterpart as counterpart_of};
ghost use Rattle.run_compare.specs.Report.{AreFollowed};
ghost use Rattle.run_plain.specs.Machines.{run_of as plain_run_of};
ghost use Rattle.run_source.specs.Machines.{run_of};
ghost use Rattle.cli_compare.specs.Agreeing.{AreRunsFollowed, MayBeCompared};
ghost use Rattle.cli_runs.specs.Runs.{sizes_of as sizes_of_layouts};
ghost use Rattle.compiler_theorem.specs.theorem.Texts.{AgreeInRuns};

use crate::text::{report_text, report_verdict};
use cli_runs::cli_entries_library::{Answer, EntryCall, entry_call, not_callable, shown};
use cli_runs::run_whole_library::{start_plain, start_source};
use cli_runs::sizes_of;
use cli_words::RunWords;
use compiler::Lowered;
use ir_base::{FuncId, Items};
use ir_model::{Frame, Module};
use ir_tables::Names;
use run_compare::{Report, compare};
use run_plain::PlainMachine;
use run_source::SourceMachine;
use std::alloc::{AllocError, Global};

/// The function of the same name in the lowered module.
fn counterpart(
    alloc: Global,
    lowered: &Module,
    source: &Module,
    func: FuncId,
) -> Result<Option<FuncId>, AllocError>
    ensures { IfOk result (λ f. f ≡ counterpart_of lowered.now (slice_get source.now.functions func)) }
{
    match source.functions.get(func) {
        None => Ok(None),
        Some(function) => Ok(Names::new(alloc, lowered)?.function_named(&function.name)),
    }
}

/// The answer of two machines, which begin.
#[tactic(auto, using(crate::proofs::Reported::reported_of))]
fn compare_machines(
    alloc: Global,
    source: &mut SourceMachine,
    lowered: &mut PlainMachine,
    steps: u64,
) -> Result<Answer, AllocError>
    requires { AreFollowed (run_of source.old) (plain_run_of lowered.old) }
    ensures { IfOk result (λ a. IsReportedOf (run_of source.old) (plain_run_of lowered.old) steps a) }
{
    let report = compare(source, lowered, steps)?;
    let text = report_text(alloc, source.code(), &report)?;
    Ok(shown(alloc, report_verdict(report.outcome), Items::from_vec(text)))
}

/// The answer of both runs, which begin with the same arguments.
fn compare_runs(
    alloc: Global,
    source: Module,
    sizes: &[Frame],
    lowered: Module,
    words: &RunWords,
    call: &EntryCall,
    other: FuncId,
) -> Result<Answer, AllocError>
    requires { AreRunsFollowed source sizes.now lowered words.now.answers call.now other }
    ensures { IfOk result (λ a. IsReported source sizes.now lowered words.now call.now other a) }
{
    let args = call.args.as_slice();
    let answers = words.answers.as_slice();
    let mut first = start_source(alloc, source, sizes, call.func, args, answers)?;
    let mut second = start_plain(alloc, lowered, other, args, answers)?;
    compare_machines(alloc, &mut first.machine, &mut second.machine, words.steps)
}

/// The answer to a call of an entry of the source.
fn compare_call(
    alloc: Global,
    lowered: Lowered,
    words: &RunWords,
    call: &EntryCall,
) -> Result<Answer, AllocError>
    requires { MayBeCompared lowered words.now call.now }
    ensures { IfOk result (λ a. IsReportedBy lowered words.now call.now (counterpart_of lowered.«module» (slice_get lowered.source.functions call.now.func)) a) }
{
    let Lowered {
        module,
        source,
        layouts,
        ..
    } = lowered;
    match counterpart(alloc, &module, &source, call.func)? {
        None => not_callable(alloc, words.entry.as_bytes()),
        Some(other) => {
            let sizes = sizes_of(alloc, layouts.coroutines.as_slice())?;
            compare_runs(alloc, source, sizes.as_slice(), module, words, call, other)
        }
    }
}

/// Compares the runs of a source and of what it was lowered to, which agree.
#[tactic(auto, using(crate::proofs::Followed::may_be_compared))]
pub fn compare_lowered(
    alloc: Global,
    lowered: Lowered,
    words: &RunWords,
) -> Result<Answer, AllocError>
    requires { AgreeInRuns lowered.source (sizes_of_layouts lowered.layouts) lowered.«module» }
    ensures { IfOk result (λ a. IsCompared lowered words.now a) }
{
    let entry = words.entry.as_bytes();
    match entry_call(alloc, &lowered.source, entry, words.args.as_slice())? {
        None => not_callable(alloc, entry),
        Some(call) => compare_call(alloc, lowered, words, &call),
    }
}
