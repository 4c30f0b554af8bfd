//! What was given to a command.

ghost use Rattle.std.specs.Prelude.{◌≡◌, List, ℕ, IfOk, codes, option_map};
ghost use Rattle.clap.specs.Words.{first_of, found_of, rows_of, subcommand_rows_of};
ghost use Rattle.cli_words.specs.Asked as spec;

use crate::list::read_list;
use crate::words::{CallReading, Form, Reading, RunWords, Words};
use clap::ArgMatches;
use ir_base::{Items, Text};
use std::alloc::{AllocError, Global};

const DEFAULT_STEPS: u64 = 1000000;

/// The first value of an option.
fn value_of<'a>(matches: &ArgMatches<'a>, name: &str) -> Option<&'a str>
    ensures { option_map (λ s. s.now) result ≡ first_of name.now (rows_of (found_of matches.now)) }
{
    matches.get_str(name)
}

fn has_flag(matches: &ArgMatches<'_>, name: &str) -> bool
    ensures { result ≡ spec.has_flag name.now (rows_of (found_of matches.now)) }
{
    match value_of(matches, name) {
        Some(value) => value == "true",
        None => false,
    }
}

fn form_named(name: &str) -> Option<Form>
    ensures { result ≡ spec.form_named name.now }
{
    if name == "source" {
        Some(Form::Source)
    } else if name == "framed" {
        Some(Form::Framed)
    } else if name == "lowered" {
        Some(Form::Lowered)
    } else if name == "text" {
        Some(Form::Text)
    } else {
        None
    }
}

fn form(matches: &ArgMatches<'_>) -> Option<Form>
    ensures { result ≡ spec.form (rows_of (found_of matches.now)) }
{
    match value_of(matches, "form") {
        Some(name) => form_named(name),
        None => None,
    }
}

/// The number that a word writes, or another where it is none.
fn number_or(other: u64, text: &str) -> u64
    ensures { result ≡ spec.number_or other text.now }
{
    match text.parse() {
        Ok(number) => number,
        Err(_) => other,
    }
}

/// The number of an argument, or another where there is none.
fn number_at(matches: &ArgMatches<'_>, name: &str, other: u64) -> u64
    ensures { result ≡ spec.number_at name.now other (rows_of (found_of matches.now)) }
{
    match value_of(matches, name) {
        Some(text) => number_or(other, text),
        None => other,
    }
}

fn steps(matches: &ArgMatches<'_>) -> u64
    ensures { result ≡ spec.steps (rows_of (found_of matches.now)) }
{
    number_at(matches, "steps", DEFAULT_STEPS)
}

/// The list of an option, where its word is one.
fn list_at(
    alloc: Global,
    matches: &ArgMatches<'_>,
    name: &str,
) -> Result<Option<Items<i128>>, AllocError>
    ensures { IfOk result (λ r. r ≡ spec.list_at name.now (rows_of (found_of matches.now))) }
{
    let Some(word) = value_of(matches, name) else {
        return Ok(Some(Items::new(alloc)));
    };
    match read_list(alloc, word)? {
        Some(numbers) => Ok(Some(Items::from_vec(numbers))),
        None => Ok(None),
    }
}

/// The word of an option.
fn word_at(alloc: Global, matches: &ArgMatches<'_>, name: &str) -> Result<Text, AllocError>
    ensures { IfOk result (λ r. r ≡ spec.word_at name.now (rows_of (found_of matches.now))) }
{
    match value_of(matches, name) {
        Some(word) => Text::from_bytes(alloc, word.as_bytes()),
        None => Text::from_bytes(alloc, b""),
    }
}

/// The words of a call, but for a list that isn't one; `--args` before `--answers`.
fn call_read(
    alloc: Global,
    matches: &ArgMatches<'_>,
    entry: Text,
) -> Result<CallReading, AllocError>
    ensures { IfOk result (λ r. r ≡ spec.call_read entry (rows_of (found_of matches.now))) }
{
    let Some(args) = list_at(alloc, matches, "args")? else {
        return Ok(CallReading::BadList(word_at(alloc, matches, "args")?));
    };
    let Some(answers) = list_at(alloc, matches, "answers")? else {
        return Ok(CallReading::BadList(word_at(alloc, matches, "answers")?));
    };
    Ok(CallReading::Read(RunWords {
        plain: has_flag(matches, "plain"),
        entry,
        args,
        answers,
        steps: steps(matches),
    }))
}

fn run_by(form: Form, call: CallReading) -> Reading
    ensures { result ≡ spec.run_by form call }
{
    match call {
        CallReading::BadList(word) => Reading::BadList(word),
        CallReading::Read(words) => Reading::Read(Words::Run(form, words)),
    }
}

fn run_read(alloc: Global, matches: &ArgMatches<'_>) -> Result<Reading, AllocError>
    ensures { IfOk result (λ r. r ≡ spec.run_read (rows_of (found_of matches.now))) }
{
    let Some(form) = form(matches) else {
        return Ok(Reading::Refused);
    };
    let Some(entry) = value_of(matches, "entry") else {
        return Ok(Reading::Refused);
    };
    let entry = Text::from_bytes(alloc, entry.as_bytes())?;
    Ok(run_by(form, call_read(alloc, matches, entry)?))
}

fn compare_by(call: CallReading) -> Reading
    ensures { result ≡ spec.compare_by call }
{
    match call {
        CallReading::BadList(word) => Reading::BadList(word),
        CallReading::Read(words) => Reading::Read(Words::Compare(words)),
    }
}

fn compare_read(alloc: Global, matches: &ArgMatches<'_>) -> Result<Reading, AllocError>
    ensures { IfOk result (λ r. r ≡ spec.compare_read (rows_of (found_of matches.now))) }
{
    let Some(entry) = value_of(matches, "entry") else {
        return Ok(Reading::Refused);
    };
    let entry = Text::from_bytes(alloc, entry.as_bytes())?;
    Ok(compare_by(call_read(alloc, matches, entry)?))
}

fn gen_read(matches: &ArgMatches<'_>) -> Reading
    ensures { result ≡ spec.gen_read (rows_of (found_of matches.now)) }
{
    Reading::Read(Words::Gen {
        seed: number_at(matches, "SEED", 0),
        coroutines: number_at(matches, "COROUTINES", 0),
        suspends: number_at(matches, "SUSPENDS", 0),
    })
}

/// What a command line comes to that clap takes.
pub fn command_read(alloc: Global, matches: &ArgMatches<'_>) -> Result<Reading, AllocError>
    ensures { IfOk result (λ r. r ≡ spec.command_read (subcommand_rows_of matches.now)) }
{
    let Some((name, given)) = matches.subcommand() else {
        return Ok(Reading::Refused);
    };
    if name == "lower" {
        let plain = has_flag(given, "plain");
        Ok(Reading::Read(Words::Lower { plain }))
    } else if name == "check" {
        let lowered = has_flag(given, "lowered");
        Ok(Reading::Read(Words::Check { lowered }))
    } else if name == "layout" {
        let plain = has_flag(given, "plain");
        Ok(Reading::Read(Words::Layout { plain }))
    } else if name == "run" {
        run_read(alloc, given)
    } else if name == "compare" {
        compare_read(alloc, given)
    } else if name == "gen" {
        Ok(gen_read(given))
    } else {
        Ok(Reading::Refused)
    }
}
