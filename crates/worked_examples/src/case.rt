//! The cases of worked examples as a text of lines.
//!
//! A case begins with a line `> WORDS < FILE`. Lines `out TEXT` and `err TEXT` follow, of which standard output and standard
//! error are made; a line `more` where standard output goes on behind them, and `last TEXT` for its last line then; and a line
//! `status N`, which ends the case.
//! `> again < FILE` asks that the module of the file is printed and read again as the same module, and `> lower then WORDS < FILE`
//! gives the words what `lower` writes of the file (`> lower --plain then WORDS < FILE` what it writes with plain frames).
//! `> forms WORDS < FILE` asks for the same answer of `run` with these words in all forms, with plain frames and with those that
//! share bytes, that what `lower` writes is accepted by `check --lowered`, and that `compare` tells this outcome and as many
//! events. Empty lines and those that begin with `#` say nothing.

use crate::again::is_read_again;
use crate::answer::{Answer, ask};
use anyhow::{Result, bail};
use std::alloc::{AllocError, Global};
use std::fs;

/// Words and a module, and what the program answers to them.
#[derive(Drop)]
pub struct Case {
    words: String,
    file: String,
    out: String,
    err: String,
    last: String,
    goes_on: bool,
    code: u8,
}

/// The cases read so far: the one of which lines are still to come.
#[derive(Drop)]
pub struct Cases {
    open_case: Option<Case>,
}

/// The case that a line begins, where it begins one.
fn begun(alloc: Global, line: &str) -> Result<Option<Case>, AllocError> {
    let Some(call) = line.strip_prefix("> ") else {
        return Ok(None);
    };
    let Some((words, file)) = call.split_once(" < ") else {
        return Ok(None);
    };
    Ok(Some(Case {
        words: String::from_str(alloc, words)?,
        file: String::from_str(alloc, file)?,
        out: String::new(alloc),
        err: String::new(alloc),
        last: String::new(alloc),
        goes_on: false,
        code: 0,
    }))
}

/// Adds a line to a text.
fn add(text: &mut String, line: &str) -> Result<(), AllocError> {
    text.push_str(line)?;
    text.push('\n')
}

/// What the program answers to the words and a text, or to the words behind `lower then` and what it writes of the text.
fn answered(alloc: Global, words: &str, text: &[u8]) -> Result<Answer, AllocError> {
    if let Some(words) = words.strip_prefix("lower then ") {
        let lowered = ask(alloc, "lower", text)?;
        ask(alloc, words, &lowered.out)
    } else if let Some(words) = words.strip_prefix("lower --plain then ") {
        let lowered = ask(alloc, "lower --plain", text)?;
        ask(alloc, words, &lowered.out)
    } else {
        ask(alloc, words, text)
    }
}

/// Whether what `lower` writes of a text, in these words, is accepted as a module without coroutines.
fn is_lowered(alloc: Global, words: &str, text: &[u8]) -> Result<bool, AllocError> {
    let given = answered(alloc, words, text)?;
    Ok(given.code == 0 && given.out.as_slice() == b"ok\n".as_slice())
}

impl Case {
    /// Adds what a line says of the case.
    fn say(&mut self, line: &str) -> Result<()> {
        if let Some(text) = line.strip_prefix("out ") {
            add(&mut self.out, text)?;
        } else if let Some(text) = line.strip_prefix("err ") {
            add(&mut self.err, text)?;
        } else if let Some(text) = line.strip_prefix("last ") {
            add(&mut self.last, text)?;
        } else if line == "more" {
            self.goes_on = true;
        } else if !line.is_empty() && !line.starts_with("#") {
            bail!("a line that says nothing: {line}");
        }
        Ok(())
    }

    /// Whether these bytes are what standard output is to hold.
    fn is_out(&self, out: &[u8]) -> bool {
        if self.goes_on {
            out.starts_with(self.out.as_bytes()) && out.ends_with(self.last.as_bytes())
        } else {
            out == self.out.as_bytes()
        }
    }

    /// Whether the words are answered as it is told.
    fn is_answered(&self, alloc: Global, words: &str, text: &[u8]) -> Result<bool, AllocError> {
        let given = answered(alloc, words, text)?;
        Ok(
            given.code == self.code
                && self.is_out(&given.out)
                && given.err.as_slice() == self.err.as_bytes(),
        )
    }

    /// Whether `run` in the form is answered as it is told, with plain frames and with those that share bytes.
    fn is_run(
        &self,
        alloc: Global,
        form: &str,
        words: &str,
        text: &[u8],
    ) -> Result<bool, AllocError> {
        let shared = format!(in alloc; "run --form {form} {words}")?;
        let plain = format!(in alloc; "run --plain --form {form} {words}")?;
        Ok(
            self.is_answered(alloc, shared.as_str(), text)?
                && self.is_answered(alloc, plain.as_str(), text)?,
        )
    }

    /// Whether what `lower` writes is accepted, and run as it is told.
    fn is_text(&self, alloc: Global, words: &str, text: &[u8]) -> Result<bool, AllocError> {
        let shared = format!(in alloc; "lower then run --form text {words}")?;
        let plain = format!(in alloc; "lower --plain then run --form text {words}")?;
        Ok(
            self.is_answered(alloc, shared.as_str(), text)?
                && self.is_answered(alloc, plain.as_str(), text)?
                && is_lowered(alloc, "lower then check --lowered", text)?
                && is_lowered(alloc, "lower --plain then check --lowered", text)?,
        )
    }

    /// The lines that `compare` begins with, where `run` is answered as it is told.
    fn comparison(&self, alloc: Global) -> Result<String, AllocError> {
        let mut last = String::new(alloc);
        let mut lines = 0u64;
        for line in self.out.as_str().lines() {
            last = String::from_str(alloc, line)?;
            lines = lines.saturating_add(1);
        }
        let events = lines.saturating_sub(1);
        format!(in alloc; "outcome {last}\nevents {events}\nsteps source ")
    }

    /// Whether `compare` tells the same, where the case tells all events.
    fn is_compared(&self, alloc: Global, words: &str, text: &[u8]) -> Result<bool, AllocError> {
        let given = answered(alloc, words, text)?;
        let begins = self.comparison(alloc)?;
        Ok(
            given.code == 0
                && given.err.is_empty()
                && (self.goes_on || given.out.starts_with(begins.as_bytes())),
        )
    }

    /// Whether `compare` tells the same, with plain frames and with those that share bytes.
    fn is_compared_by_both(
        &self,
        alloc: Global,
        words: &str,
        text: &[u8],
    ) -> Result<bool, AllocError> {
        let shared = format!(in alloc; "compare {words}")?;
        let plain = format!(in alloc; "compare --plain {words}")?;
        Ok(
            self.is_compared(alloc, shared.as_str(), text)?
                && self.is_compared(alloc, plain.as_str(), text)?,
        )
    }

    /// Whether `run` is answered as it is told in all forms.
    fn is_in_all_forms(&self, alloc: Global, words: &str, text: &[u8]) -> Result<bool, AllocError> {
        Ok(
            self.is_run(alloc, "source", words, text)?
                && self.is_run(alloc, "framed", words, text)?
                && self.is_run(alloc, "lowered", words, text)?
                && self.is_text(alloc, words, text)?
                && self.is_compared_by_both(alloc, words, text)?,
        )
    }

    /// Whether the case is answered as it is told.
    fn is_so(&self, alloc: Global, text: &[u8]) -> Result<bool, AllocError> {
        let words = self.words.as_str();
        if words == "again" {
            is_read_again(alloc, text)
        } else if let Some(words) = words.strip_prefix("forms ") {
            self.is_in_all_forms(alloc, words, text)
        } else {
            self.is_answered(alloc, words, text)
        }
    }

    /// Runs the case, and writes where it answers otherwise.
    pub fn run(&self, rt: &HostRuntime) -> Result<()> {
        let text = fs::read(rt, self.file.as_str())?;
        let is_so = self.is_so(rt.alloc(), &text)?;
        if !is_so {
            println!(rt; "{} < {}: otherwise", self.words, self.file)?;
        }
        Ok(())
    }
}

impl Cases {
    /// No case so far.
    pub fn new(_alloc: Global) -> Self {
        Cases { open_case: None }
    }

    /// The case that ends with this line, where one does.
    pub fn take(&mut self, alloc: Global, line: &str) -> Result<Option<Case>> {
        if let Some(case) = begun(alloc, line)? {
            self.open_case = Some(case);
            return Ok(None);
        }
        let Some(mut case) = self.open_case.take() else {
            return Ok(None);
        };
        if let Some(code) = line.strip_prefix("status ") {
            case.code = code.parse::<u8>()?;
            return Ok(Some(case));
        }
        case.say(line)?;
        self.open_case = Some(case);
        Ok(None)
    }
}
