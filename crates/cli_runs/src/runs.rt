//! Runs of modules.

ghost use Rattle.std.specs.Prelude.{◌≡◌, IfOk, map};
ghost use Rattle.cli_runs.specs.Runs.{run_verdict, plain_shown, plain_answer, run_module, size_of, sizes_of, source_shown, source_answer, source_or, framed_shown, framed_answer, run_framed};
ghost use Rattle.cli_entries.specs.Entries.{entry_call};

use cli_entries::{Answer, EntryCall, Verdict, entry_call, not_callable, shown};
use cli_report::run_text;
use cli_words::RunWords;
use frame_layout::{Layout, Layouts};
use ir_base::{Items, Outcome};
use ir_model::{Frame, Module};
use run_whole::{
    FramedView, PlainView, SourceView, run_framed as whole_framed, run_plain as whole_plain,
    run_source as whole_source,
};
use std::alloc::{AllocError, Global};

fn run_verdict(outcome: Outcome) -> Verdict
    ensures { result ≡ run_verdict outcome }
{
    match outcome {
        Outcome::Returned(_) => Verdict::Done,
        Outcome::Running => Verdict::Unfinished,
        Outcome::Undefined(_, _) => Verdict::Undefined,
    }
}

/// The answer by what a module's machine shows.
fn plain_shown(alloc: Global, view: &PlainView) -> Result<Answer, AllocError>
    ensures { IfOk result (λ a. a ≡ plain_shown view.now) }
{
    let machine = &view.machine;
    let text = run_text(alloc, machine.code(), machine.events(), view.outcome)?;
    Ok(shown(alloc, run_verdict(view.outcome), Items::from_vec(text)))
}

/// What is seen of a run of a module without coroutines.
fn plain_answer(
    alloc: Global,
    code: Module,
    answers: &[i128],
    call: &EntryCall,
    steps: u64,
) -> Result<Answer, AllocError>
    ensures { IfOk result (λ a. a ≡ plain_answer code answers.now call.now steps) }
{
    let args = call.args.as_slice();
    let view = whole_plain(alloc, code, call.func, args, answers, steps)?;
    plain_shown(alloc, &view)
}

/// Calls an entry of a module without coroutines.
pub fn run_module(alloc: Global, code: Module, words: &RunWords) -> Result<Answer, AllocError>
    ensures { IfOk result (λ a. a ≡ run_module code words.now) }
{
    let entry = words.entry.as_bytes();
    match entry_call(alloc, &code, entry, words.args.as_slice())? {
        None => not_callable(alloc, entry),
        Some(call) => plain_answer(alloc, code, words.answers.as_slice(), &call, words.steps),
    }
}

/// The sizes of the frames.
pub fn sizes_of(alloc: Global, layouts: &[Layout]) -> Result<Items<Frame>, AllocError>
    ensures { IfOk result (λ sizes. sizes ≡ map size_of layouts.now) }
{
    let mut sizes = Items::new(alloc);
    for layout in layouts {
        sizes.push(Frame {
            coroutine: layout.coroutine,
            size: layout.size,
            align: layout.align,
        })?;
    }
    Ok(sizes)
}

/// The answer by what a source's machine shows.
fn source_shown(alloc: Global, view: &SourceView) -> Result<Answer, AllocError>
    ensures { IfOk result (λ a. a ≡ source_shown view.now) }
{
    let machine = &view.machine;
    let text = run_text(alloc, machine.code(), machine.events(), view.outcome)?;
    Ok(shown(alloc, run_verdict(view.outcome), Items::from_vec(text)))
}

/// What is seen of a run of a source.
fn source_answer(
    alloc: Global,
    source: Module,
    sizes: &[Frame],
    answers: &[i128],
    call: &EntryCall,
    steps: u64,
) -> Result<Answer, AllocError>
    ensures { IfOk result (λ a. a ≡ source_answer source sizes.now answers.now call.now steps) }
{
    let args = call.args.as_slice();
    let view = whole_source(alloc, source, sizes, call.func, args, answers, steps)?;
    source_shown(alloc, &view)
}

/// Calls an entry of a source whose coroutines have these layouts.
pub fn run_source(
    alloc: Global,
    source: Module,
    layouts: &Layouts,
    words: &RunWords,
) -> Result<Answer, AllocError>
    ensures { IfOk result (λ a. a ≡ source_or source (sizes_of layouts.now) words.now (entry_call source words.now.entry words.now.args)) }
{
    let entry = words.entry.as_bytes();
    match entry_call(alloc, &source, entry, words.args.as_slice())? {
        None => not_callable(alloc, entry),
        Some(call) => {
            let sizes = sizes_of(alloc, layouts.coroutines.as_slice())?;
            source_answer(
                alloc,
                source,
                sizes.as_slice(),
                words.answers.as_slice(),
                &call,
                words.steps,
            )
        }
    }
}

/// The answer by what a framed module's machine shows.
fn framed_shown(alloc: Global, view: &FramedView) -> Result<Answer, AllocError>
    ensures { IfOk result (λ a. a ≡ framed_shown view.now) }
{
    let machine = &view.machine;
    let text = run_text(alloc, machine.code(), machine.events(), view.outcome)?;
    Ok(shown(alloc, run_verdict(view.outcome), Items::from_vec(text)))
}

/// What is seen of a run of a framed module.
fn framed_answer(
    alloc: Global,
    framed: Module,
    layouts: &Layouts,
    answers: &[i128],
    call: &EntryCall,
    steps: u64,
) -> Result<Answer, AllocError>
    ensures { IfOk result (λ a. a ≡ framed_answer framed layouts.now answers.now call.now steps) }
{
    let args = call.args.as_slice();
    let view = whole_framed(alloc, framed, layouts, call.func, args, answers, steps)?;
    framed_shown(alloc, &view)
}

/// Calls an entry of a framed module with the layouts of its coroutines' frames.
pub fn run_framed(
    alloc: Global,
    framed: Module,
    layouts: &Layouts,
    words: &RunWords,
) -> Result<Answer, AllocError>
    ensures { IfOk result (λ a. a ≡ run_framed framed layouts.now words.now) }
{
    let entry = words.entry.as_bytes();
    match entry_call(alloc, &framed, entry, words.args.as_slice())? {
        None => not_callable(alloc, entry),
        Some(call) => framed_answer(
            alloc,
            framed,
            layouts,
            words.answers.as_slice(),
            &call,
            words.steps,
        ),
    }
}
