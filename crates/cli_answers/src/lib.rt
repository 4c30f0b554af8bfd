//! What the commands answer to the bytes of their input (`answer`).
//!
//! The answer to `check` is `ok` exactly where no rule is broken, else the first with its place. The answer to
//! `layout` is the text of the layouts. The answer to `gen`, for which nothing is read, is the text of the generated
//! module. The answer to `run` is the text of what is seen after so many steps, of the form that is asked for.
#![tactic(auto)]

ghost use Rattle.std.specs.Prelude.{◌≡◌, ◌≤◌, IfOk, not};
ghost use Rattle.cli_words.specs.declared.words.Form.{Form};
ghost use Rattle.cli_answers.specs.Answers.{lower_answer, checked_run, check_answer, IsTextAnswer, IsCheckAnswer, IsLayoutAnswer, IsMadeOfAcceptance, IsMadeOfRefusal, IsMadeOfRules, IsSourceAnswer, layout_answer, gen_answer, options_of, within, run_lowered, lowered_answer, run_laid_out, framed_form_answer, source_form_answer, IsRunAnswer, IsMadeOf, IsAnswer, AreAgreeing, IsComparedOf, IsComparison, IsInput};
ghost use Rattle.text_parser.specs.Parse.{read_module};

use cli_compare::cli_runs_library::cli_entries_library::{
    Answer, Verdict, entry_call, not_callable, refused, shown, syntax_fault,
};
use cli_compare::cli_runs_library::{run_framed, run_module, run_source};
use cli_compare::compare_lowered;
use cli_compare::compiler_library::{Lowered, Lowering, lower};
use cli_compare::frame_acceptance_library::{Acceptance, accept, refused_for};
use cli_gen::generate;
use cli_words::{Form, RunWords, Words};
use frame_contents::layout_text;
use ir_base::{Items, Options};
use ir_model::Module;
use rule_all::{Refusal, Stage, first_refusal};
use std::alloc::{AllocError, Global};
use text_parser::{Parsed, parse};

fn lower_answer(alloc: Global, lowering: Lowering) -> Result<Answer, AllocError>
    ensures { IfOk result (λ a. a ≡ lower_answer lowering) }
{
    match lowering {
        Lowering::Done(lowered) => Ok(shown(alloc, Verdict::Done, lowered.text)),
        Lowering::Syntax(items) => syntax_fault(alloc, items),
        Lowering::Refused(source, rule, place) => refused(alloc, &source, rule, place),
    }
}

/// Runs a plain module whose first broken rule is told.
fn run_unless(
    alloc: Global,
    source: Module,
    words: &RunWords,
    refusal: Option<Refusal>,
) -> Result<Answer, AllocError>
    ensures { IfOk result (λ a. a ≡ checked_run refusal source words.now) }
{
    match refusal {
        Some(refusal) => refused(alloc, &source, refusal.rule, refusal.place),
        None => run_module(alloc, source, words),
    }
}

#[tactic(auto, using(crate::proofs::Chosen::run_where_checked))]
fn checked_run(alloc: Global, source: Module, words: &RunWords) -> Result<Answer, AllocError>
    ensures { IfOk result (λ a. IsMadeOfRules Stage.Plain source (λ r. checked_run r source words.now) a) }
{
    let refusal = first_refusal(alloc, Stage::Plain, &source)?;
    run_unless(alloc, source, words, refusal)
}

fn text_answer(alloc: Global, parsed: Parsed, words: &RunWords) -> Result<Answer, AllocError>
    ensures { IfOk result (λ a. IsTextAnswer parsed words.now a) }
{
    match parsed {
        Parsed::Syntax { items } => syntax_fault(alloc, items),
        Parsed::Module(source) => checked_run(alloc, source, words),
    }
}

fn run_lowered(alloc: Global, lowered: Lowered, words: &RunWords) -> Result<Answer, AllocError>
    ensures { IfOk result (λ a. a ≡ run_lowered lowered words.now) }
{
    let entry = words.entry.as_bytes();
    let Lowered { module, source, .. } = lowered;
    match entry_call(alloc, &source, entry, words.args.as_slice())? {
        None => not_callable(alloc, entry),
        Some(_) => run_module(alloc, module, words),
    }
}

fn lowered_answer(alloc: Global, lowering: Lowering, words: &RunWords) -> Result<Answer, AllocError>
    ensures { IfOk result (λ a. a ≡ lowered_answer lowering words.now) }
{
    match lowering {
        Lowering::Done(lowered) => run_lowered(alloc, lowered, words),
        Lowering::Syntax(items) => syntax_fault(alloc, items),
        Lowering::Refused(source, rule, place) => refused(alloc, &source, rule, place),
    }
}

fn run_text_form(alloc: Global, bytes: &[u8], words: &RunWords) -> Result<Answer, AllocError>
    ensures { IfOk result (λ a. IsRunAnswer Form.Text bytes.now words.now a) }
{
    let parsed = parse(alloc, bytes)?;
    text_answer(alloc, parsed, words)
}

/// With `--plain` no bytes are shared, no call is elided, and no transfer is made.
fn options_of(plain: bool) -> Options
    ensures { result ≡ options_of plain }
{
    Options {
        share: !plain,
        elide: !plain,
        transfer: !plain,
    }
}

#[tactic(auto, using(crate::proofs::Chosen::made_by))]
fn run_lowered_form(alloc: Global, bytes: &[u8], words: &RunWords) -> Result<Answer, AllocError>
    ensures { IfOk result (λ a. IsRunAnswer Form.Lowered bytes.now words.now a) }
{
    let lowering = lower(alloc, bytes, options_of(words.plain))?;
    lowered_answer(alloc, lowering, words)
}

fn run_laid_out(alloc: Global, lowered: Lowered, words: &RunWords) -> Result<Answer, AllocError>
    ensures { IfOk result (λ a. a ≡ run_laid_out lowered words.now) }
{
    let entry = words.entry.as_bytes();
    let Lowered {
        framed,
        source,
        layouts,
        ..
    } = lowered;
    match entry_call(alloc, &source, entry, words.args.as_slice())? {
        None => not_callable(alloc, entry),
        Some(_) => run_framed(alloc, framed, &layouts, words),
    }
}

fn framed_form_answer(
    alloc: Global,
    lowering: Lowering,
    words: &RunWords,
) -> Result<Answer, AllocError>
    ensures { IfOk result (λ a. a ≡ framed_form_answer lowering words.now) }
{
    match lowering {
        Lowering::Done(lowered) => run_laid_out(alloc, lowered, words),
        Lowering::Syntax(items) => syntax_fault(alloc, items),
        Lowering::Refused(source, rule, place) => refused(alloc, &source, rule, place),
    }
}

#[tactic(auto, using(crate::proofs::Chosen::made_by))]
fn run_framed_form(alloc: Global, bytes: &[u8], words: &RunWords) -> Result<Answer, AllocError>
    ensures { IfOk result (λ a. IsRunAnswer Form.Framed bytes.now words.now a) }
{
    let lowering = lower(alloc, bytes, options_of(words.plain))?;
    framed_form_answer(alloc, lowering, words)
}

/// Runs a source that is looked at for all rules.
fn source_form_answer(
    alloc: Global,
    source: Module,
    acceptance: Acceptance,
    words: &RunWords,
) -> Result<Answer, AllocError>
    ensures { IfOk result (λ a. a ≡ source_form_answer source words.now acceptance) }
{
    match acceptance {
        Acceptance::Refused(refusal) => refused(alloc, &source, refusal.rule, refusal.place),
        Acceptance::Accepted(layouts) => run_source(alloc, source, &layouts, words),
    }
}

#[tactic(auto, using(crate::proofs::Chosen::accepted_by))]
fn accepted_run(alloc: Global, source: Module, words: &RunWords) -> Result<Answer, AllocError>
    ensures { IfOk result (λ a. IsMadeOfAcceptance source (not words.now.plain) (source_form_answer source words.now) a) }
{
    let acceptance = accept(alloc, &source, !words.plain)?;
    source_form_answer(alloc, source, acceptance, words)
}

fn source_answer(alloc: Global, parsed: Parsed, words: &RunWords) -> Result<Answer, AllocError>
    ensures { IfOk result (λ a. IsSourceAnswer parsed words.now a) }
{
    match parsed {
        Parsed::Syntax { items } => syntax_fault(alloc, items),
        Parsed::Module(source) => accepted_run(alloc, source, words),
    }
}

fn run_source_form(alloc: Global, bytes: &[u8], words: &RunWords) -> Result<Answer, AllocError>
    ensures { IfOk result (λ a. IsRunAnswer Form.Source bytes.now words.now a) }
{
    let parsed = parse(alloc, bytes)?;
    source_answer(alloc, parsed, words)
}

fn run_in(alloc: Global, bytes: &[u8], form: Form, words: &RunWords) -> Result<Answer, AllocError>
    ensures { IfOk result (λ a. IsRunAnswer form bytes.now words.now a) }
{
    match form {
        Form::Source => run_source_form(alloc, bytes, words),
        Form::Text => run_text_form(alloc, bytes, words),
        Form::Framed => run_framed_form(alloc, bytes, words),
        Form::Lowered => run_lowered_form(alloc, bytes, words),
    }
}

#[tactic(auto, using(crate::proofs::Chosen::made_by))]
fn lower_bytes(alloc: Global, bytes: &[u8], plain: bool) -> Result<Answer, AllocError>
    ensures { IfOk result (λ a. IsMadeOf plain bytes.now lower_answer a) }
{
    let lowering = lower(alloc, bytes, options_of(plain))?;
    lower_answer(alloc, lowering)
}

fn check_answer(
    alloc: Global,
    source: &Module,
    refusal: Option<Refusal>,
) -> Result<Answer, AllocError>
    ensures { IfOk result (λ a. a ≡ check_answer source.now refusal) }
{
    match refusal {
        Some(refusal) => refused(alloc, source, refusal.rule, refusal.place),
        None => Ok(shown(
            alloc,
            Verdict::Done,
            Items::from_vec(Vec::from_slice(alloc, b"ok\n")?),
        )),
    }
}

#[tactic(auto, using(crate::proofs::Chosen::checked_by))]
fn check_plain(alloc: Global, source: &Module) -> Result<Answer, AllocError>
    ensures { IfOk result (λ a. IsMadeOfRules Stage.Plain source.now (check_answer source.now) a) }
{
    let refusal = first_refusal(alloc, Stage::Plain, source)?;
    check_answer(alloc, source, refusal)
}

#[tactic(auto, using(crate::proofs::Chosen::refused_by))]
fn check_source(alloc: Global, source: &Module) -> Result<Answer, AllocError>
    ensures { IfOk result (λ a. IsMadeOfRefusal source.now (check_answer source.now) a) }
{
    let refusal = refused_for(alloc, source)?;
    check_answer(alloc, source, refusal)
}

fn check_bytes(alloc: Global, bytes: &[u8], lowered: bool) -> Result<Answer, AllocError>
    ensures { IfOk result (λ a. IsCheckAnswer lowered (read_module bytes.now) a) }
{
    match parse(alloc, bytes)? {
        Parsed::Syntax { items } => syntax_fault(alloc, items),
        Parsed::Module(source) => {
            if lowered {
                check_plain(alloc, &source)
            } else {
                check_source(alloc, &source)
            }
        }
    }
}

fn layout_answer(
    alloc: Global,
    source: &Module,
    acceptance: &Acceptance,
) -> Result<Answer, AllocError>
    ensures { IfOk result (λ a. a ≡ layout_answer source.now acceptance.now) }
{
    match acceptance {
        Acceptance::Refused(refusal) => refused(alloc, source, refusal.rule, refusal.place),
        Acceptance::Accepted(layouts) => {
            let text = layout_text(alloc, source, layouts)?;
            Ok(shown(alloc, Verdict::Done, Items::from_vec(text)))
        }
    }
}

#[tactic(auto, using(crate::proofs::Chosen::accepted_by))]
fn layout_module(alloc: Global, source: &Module, plain: bool) -> Result<Answer, AllocError>
    ensures { IfOk result (λ a. IsMadeOfAcceptance source.now (not plain) (layout_answer source.now) a) }
{
    let acceptance = accept(alloc, source, !plain)?;
    layout_answer(alloc, source, &acceptance)
}

fn layout_bytes(alloc: Global, bytes: &[u8], plain: bool) -> Result<Answer, AllocError>
    ensures { IfOk result (λ a. IsLayoutAnswer plain (read_module bytes.now) a) }
{
    match parse(alloc, bytes)? {
        Parsed::Syntax { items } => syntax_fault(alloc, items),
        Parsed::Module(source) => layout_module(alloc, &source, plain),
    }
}

/// The number within bounds.
fn within(low: u64, high: u64, number: u64) -> u64
    requires { low ≤ high }
    ensures value { result ≡ within low high number }
    ensures inside { (low ≤ result) × (result ≤ high) }
{
    number.max(low).min(high)
}

/// The canonical text of the generated module.
fn gen_answer(
    alloc: Global,
    seed: u64,
    coroutines: u64,
    suspends: u64,
) -> Result<Answer, AllocError>
    ensures { IfOk result (λ a. a ≡ gen_answer seed coroutines suspends) }
{
    let seed = within(0, 1000000, seed);
    let coroutines = within(1, 64, coroutines);
    let suspends = within(1, 64, suspends);
    let text = generate(alloc, seed, coroutines, suspends)?;
    Ok(shown(alloc, Verdict::Done, Items::from_vec(text)))
}

/// The report of the source's run and of the lowered one, which agree.
fn compare_lowering(
    alloc: Global,
    lowering: Lowering,
    words: &RunWords,
) -> Result<Answer, AllocError>
    requires { AreAgreeing lowering }
    ensures { IfOk result (λ a. IsComparedOf lowering words.now a) }
{
    match lowering {
        Lowering::Done(lowered) => compare_lowered(alloc, lowered, words),
        Lowering::Syntax(items) => syntax_fault(alloc, items),
        Lowering::Refused(source, rule, place) => refused(alloc, &source, rule, place),
    }
}

#[tactic(auto, using(crate::proofs::Agreeing::are_agreeing, crate::proofs::Agreeing::comparison_by))]
fn compare_bytes(alloc: Global, bytes: &[u8], words: &RunWords) -> Result<Answer, AllocError>
    requires { IsInput bytes.now }
    ensures { IfOk result (λ a. IsComparison bytes.now words.now a) }
{
    let lowering = lower(alloc, bytes, options_of(words.plain))?;
    compare_lowering(alloc, lowering, words)
}

/// What a command answers to the bytes of its input, of which there are none for `gen`.
#[tactic(auto, unfolding(crate::specs::Answers::IsAnswer))]
pub fn answer(alloc: Global, words: &Words, bytes: &[u8]) -> Result<Answer, AllocError>
    requires { IsInput bytes.now }
    ensures { IfOk result (λ a. IsAnswer words.now bytes.now a) }
{
    match words {
        Words::Lower { plain } => lower_bytes(alloc, bytes, *plain),
        Words::Check { lowered } => check_bytes(alloc, bytes, *lowered),
        Words::Layout { plain } => layout_bytes(alloc, bytes, *plain),
        Words::Run(form, words) => run_in(alloc, bytes, *form, words),
        Words::Compare(words) => compare_bytes(alloc, bytes, words),
        Words::Gen {
            seed,
            coroutines,
            suspends,
        } => gen_answer(alloc, *seed, *coroutines, *suspends),
    }
}
