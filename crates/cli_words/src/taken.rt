//! Which words are taken.

ghost use Rattle.std.specs.Prelude.{◌≡◌, ◌≢◌, IfOk, IfErr, map, codes, string_bytes, take, true, false};
ghost use Rattle.std.specs.List.{list_any};
ghost use Rattle.clap.specs.Words.{app_of, kind_of};
ghost use Rattle.cli_words.specs.App.{the_app};
ghost use Rattle.cli_words.specs.Asked as spec;
ghost use Rattle.cli_words.specs.Told.{Tells, wants_help};

use crate::answer::Taken;
use crate::command::command;
use crate::matched::command_read;
use crate::words::Reading;
use clap::Command;
use clap::error::{Error, ErrorKind};
use std::alloc::{AllocError, Global};

/// Whether a word may ask for help.
fn asks_help(word: &str) -> bool
    ensures { result ≡ spec.asks_help word.now }
{
    word == "help" || word == "--help" || word.starts_with("-h")
}

fn ask_help(words: &[String]) -> bool
    ensures { result ≡ list_any (λ word. spec.asks_help (string_bytes word)) words.now }
{
    words.iter().any(|word| asks_help(word.as_str()))
}

/// What the words come to, or why clap refuses them.
fn read_words<'a>(
    alloc: Global,
    command: &mut Command<'a>,
    words: &'a [String],
) -> Result<Reading, Error>
    requires { app_of command.old ≡ the_app }
    ensures read { IfOk result (λ r. spec.asked (map string_bytes words.entry.now) ≡ r) }
    ensures free { IfOk result (λ r. wants_help (map string_bytes words.entry.now) ≡ false) }
    ensures refused { IfErr result (λ e. kind_of e ≢ ErrorKind.OutOfMemory → spec.asked (map string_bytes words.entry.now) ≡ Reading.Refused) }
    ensures helps { IfErr result (λ e. kind_of e ≢ ErrorKind.OutOfMemory → wants_help (map string_bytes words.entry.now) ≡ true → kind_of e ≡ ErrorKind.DisplayHelp) }
{
    let matches = command.try_get_matches_from_mut(words)?;
    Ok(command_read(alloc, &matches)?)
}

/// What is answered to words that are refused: help where that is all that they want, and else clap's complaint.
fn told(alloc: Global, words: &[String], error: &Error) -> Result<Taken, AllocError>
    ensures { IfOk result (λ t. spec.asked (map string_bytes words.now) ≡ Reading.Refused
        → (wants_help (map string_bytes words.now) ≡ true → kind_of error.now ≡ ErrorKind.DisplayHelp)
        → Tells t (map string_bytes words.now)) }
{
    let text = format!(in alloc; "{error}")?;
    if !error.use_stderr() && ask_help(words) {
        Ok(Taken::Help(text))
    } else {
        Ok(Taken::Usage(text))
    }
}

/// What the words after the program's name ask for.
pub fn take_words(alloc: Global, words: &[String]) -> Result<Taken, AllocError>
    ensures { IfOk result (λ t. Tells t (map string_bytes words.now)) }
{
    let mut command = command(alloc)?;
    match read_words(alloc, &mut command, words) {
        Ok(Reading::Read(asked)) => Ok(Taken::Words(asked)),
        Ok(Reading::BadList(word)) => Ok(Taken::BadList(word)),
        Ok(Reading::Refused) => {
            let message = "the form is 'source', 'framed', 'lowered' or 'text'";
            told(
                alloc,
                words,
                &command.error(ErrorKind::InvalidValue, message)?,
            )
        }
        Err(error) => {
            if error.kind() == ErrorKind::OutOfMemory {
                return Err(AllocError);
            }
            told(alloc, words, &error)
        }
    }
}
