//! The top call.

ghost use Rattle.std.specs.Prelude.{◌≡◌, ◌≢◌, ◌≤◌, codes, map, string_bytes, Bool, List, [], ℕ};
ghost use Rattle.cli_words.specs.Asked.{asked};
ghost use Rattle.cli_words.specs.declared.words.Reading.{Reading};
ghost use Rattle.cli_words.specs.declared.words.Words.{Words as TheWords};
ghost use Rattle.cli_drive.specs.Endings.{EndsBy, EndsRead, IsAnswered, IsEnding, IsWritten, TellsBadList, reads_input as reads_input_of, stream};
ghost use Rattle.cli_drive.specs.Headline.{IsLoweredWhole};
ghost use Rattle.cli_answers.specs.Answers.{IsInput};

use cli_answers::answer;
use cli_io::{ReadAllError, Sink, Source, read_all, write_all};
use cli_report::bad_list_text;
use cli_words::{Taken, Words, take_words};
use ir_base::Status;
use std::alloc::Global;
use text_canonical::grammar::text_is_bytes;

/// The most bytes that an input may have.
const LIMIT: usize = 16777216;

/// Writes the text to standard output, then what is told to standard error, and gives the status. A write fault to
/// standard output is told instead.
fn write_both<O: Sink, E: Sink>(
    out: &mut O,
    err: &mut E,
    text: &[u8],
    told: &[u8],
    status: Status,
) -> Status
    ensures { IsWritten (stream O.held O.faults out.old out.new) (stream E.held E.faults err.old err.new) text.now told.now status result }
{
    if write_all(out, text).is_err() {
        let _told = write_all(err, b"write fault\n");
        return Status::WriteFault;
    }
    match write_all(err, told) {
        Ok(()) => status,
        Err(_) => Status::WriteFault,
    }
}

/// Tells a text on standard error, where nothing goes to standard output. It gives the status, or
/// [`Status::WriteFault`] where a write failed.
pub fn tell<O: Sink, E: Sink>(out: &mut O, err: &mut E, told: &[u8], status: Status) -> Status
    ensures { IsWritten (stream O.held O.faults out.old out.new) (stream E.held E.faults err.old err.new) [] told.now status result }
{
    write_both(out, err, &[], told, status)
}

/// Answers to the bytes of the input.
fn drive_bytes<O: Sink, E: Sink>(
    alloc: Global,
    words: &Words,
    bytes: &[u8],
    out: &mut O,
    err: &mut E,
) -> Status
    requires { IsInput bytes.now }
    ensures { IsAnswered words.now bytes.now (stream O.held O.faults out.old out.new) (stream E.held E.faults err.old err.new) result }
{
    match answer(alloc, words, bytes) {
        Err(_) => tell(out, err, b"out of memory\n", Status::OutOfMemory),
        Ok(answer) => write_both(
            out,
            err,
            answer.out.as_slice(),
            answer.err.as_slice(),
            answer.verdict.status(),
        ),
    }
}

/// Reads the input and answers to it.
fn drive_input<S: Source, O: Sink, E: Sink>(
    alloc: Global,
    words: &Words,
    input: &mut S,
    out: &mut O,
    err: &mut E,
) -> Status
    ensures ends { EndsRead words.now (stream S.left S.faults input.old input.new) (stream O.held O.faults out.old out.new) (stream E.held E.faults err.old err.new) result }
    ensures sure { S.IsSure input.old → result ≢ Status.ReadFault }
{
    match read_all(alloc, input, LIMIT) {
        Ok(bytes) => {
            text_is_bytes(&bytes);
            drive_bytes(alloc, words, &bytes, out, err)
        }
        Err(ReadAllError::OutOfMemory) => tell(out, err, b"out of memory\n", Status::OutOfMemory),
        Err(ReadAllError::ReadFault) => tell(out, err, b"read fault\n", Status::ReadFault),
        Err(ReadAllError::TooLong) => {
            tell(out, err, b"input above 16777216 bytes\n", Status::TooLong)
        }
    }
}

/// Whether the command reads the input.
fn reads_input(words: &Words) -> bool
    ensures { result ≡ reads_input_of words.now }
{
    !matches!(words, Words::Gen { .. })
}

/// Reads the input, where the command reads it, and answers.
fn drive_words<S: Source, O: Sink, E: Sink>(
    alloc: Global,
    words: &Words,
    input: &mut S,
    out: &mut O,
    err: &mut E,
) -> Status
    ensures ends { EndsBy (reads_input_of words.now) words.now (stream S.left S.faults input.old input.new) (stream O.held O.faults out.old out.new) (stream E.held E.faults err.old err.new) result }
    ensures sure { S.IsSure input.old → result ≢ Status.ReadFault }
{
    if reads_input(words) {
        drive_input(alloc, words, input, out, err)
    } else {
        drive_bytes(alloc, words, &[], out, err)
    }
}

/// Tells that a word isn't a list.
fn drive_bad_list<O: Sink, E: Sink>(alloc: Global, word: &[u8], out: &mut O, err: &mut E) -> Status
    ensures { TellsBadList word.now (stream O.held O.faults out.old out.new) (stream E.held E.faults err.old err.new) result }
{
    match bad_list_text(alloc, word) {
        Err(_) => tell(out, err, b"out of memory\n", Status::OutOfMemory),
        Ok(text) => tell(out, err, &text, Status::Words),
    }
}

/// Does what the words ask for.
fn drive_all<S: Source, O: Sink, E: Sink>(
    alloc: Global,
    words: &[String],
    input: &mut S,
    out: &mut O,
    err: &mut E,
) -> Status
    ensures ends { IsEnding (map string_bytes words.entry.now) (stream S.left S.faults input.old input.new) (stream O.held O.faults out.old out.new) (stream E.held E.faults err.old err.new) result }
    ensures sure { S.IsSure input.old → result ≢ Status.ReadFault }
{
    match take_words(alloc, words) {
        Err(_) => tell(out, err, b"out of memory\n", Status::OutOfMemory),
        Ok(Taken::Help(text)) => write_both(out, err, text.as_bytes(), &[], Status::Done),
        Ok(Taken::Usage(text)) => tell(out, err, text.as_bytes(), Status::Words),
        Ok(Taken::BadList(word)) => drive_bad_list(alloc, word.as_bytes(), out, err),
        Ok(Taken::Words(words)) => drive_words(alloc, &words, input, out, err),
    }
}

/// Does all that the program does. `words` are those after the program's name; the input is read only where they are words
/// of the command set, and at most 2^24 + 1 bytes of it. Nothing is written to `out` before the whole text is made.
pub fn drive<S: Source, O: Sink, E: Sink>(
    alloc: Global,
    words: &[String],
    input: &mut S,
    out: &mut O,
    err: &mut E,
) -> Status
    // The headline: with `lower` and status 0 what was written keeps the meaning of what was read.
    ensures headline { (plain : Bool) → asked (map string_bytes words.entry.now) ≡ Reading.Read (TheWords.Lower plain)
        → result ≡ Status.Done
        → IsLoweredWhole (stream S.left S.faults input.old input.new) (stream O.held O.faults out.old out.new) }
    // What was read, what both outputs got, and the status.
    ensures ends { IsEnding (map string_bytes words.entry.now) (stream S.left S.faults input.old input.new) (stream O.held O.faults out.old out.new) (stream E.held E.faults err.old err.new) result }
    // No read fault is answered where no read fails.
    ensures sure { S.IsSure input.old → result ≢ Status.ReadFault }
{
    drive_all(alloc, words, input, out, err)
}
