//! Runs the worked examples: the cases of the file `cases`, each words, a module and what the program answers to them, the
//! one-line modules of the file `refusals`, those that the file `limits` describes, the public calls of the file `calls`, and
//! the words of the file `faults` with failing reads and writes, the modules of the file `cuts`, cut behind each token, and the
//! lines of the file `streams`. Writes which are answered otherwise, and how many there were.
#![tactic(auto)]

mod again;
mod answer;
mod call;
mod case;
mod cut;
mod fault;
mod limit;
mod refusal;
mod sight;
mod stream;

use crate::case::Cases;
use anyhow::Result;
use std::fs;

/// Runs the cases of the file `cases`, and gives how many there were.
fn worked_cases(rt: &HostRuntime) -> Result<usize> {
    let text = fs::read_to_string(rt, "cases")?;
    let mut count = 0usize;
    let mut cases = Cases::new(rt.alloc());
    for line in text.lines() {
        if let Some(case) = cases.take(rt.alloc(), line)? {
            case.run(rt)?;
            count = count.saturating_add(1);
        }
    }
    Ok(count)
}

/// Runs the lines of the file `refusals`, and gives how many had a module.
fn refused_lines(rt: &HostRuntime) -> Result<usize> {
    let text = fs::read_to_string(rt, "refusals")?;
    let mut count = 0usize;
    for line in text.lines() {
        if refusal::run(rt, line)? {
            count = count.saturating_add(1);
        }
    }
    Ok(count)
}

/// Runs the lines of the file `limits`, and gives how many had a module.
fn limits(rt: &HostRuntime) -> Result<usize> {
    let text = fs::read_to_string(rt, "limits")?;
    let mut count = 0usize;
    for line in text.lines() {
        if limit::run(rt, line)? {
            count = count.saturating_add(1);
        }
    }
    Ok(count)
}

/// Makes the calls of the file `calls`, and gives how many there were.
fn calls(rt: &HostRuntime) -> Result<usize> {
    let text = fs::read_to_string(rt, "calls")?;
    let mut count = 0usize;
    for line in text.lines() {
        if call::run(rt, line)? {
            count = count.saturating_add(1);
        }
    }
    Ok(count)
}

/// Runs the words of the file `faults` with failing reads and writes, and gives how many there were.
fn faults(rt: &HostRuntime) -> Result<usize> {
    let text = fs::read_to_string(rt, "faults")?;
    let mut count = 0usize;
    for line in text.lines() {
        if fault::run(rt, line)? {
            count = count.saturating_add(1);
        }
    }
    Ok(count)
}

/// Runs the lines of the file `streams`, and gives how many there were.
fn streams(rt: &HostRuntime) -> Result<usize> {
    let text = fs::read_to_string(rt, "streams")?;
    let mut count = 0usize;
    for line in text.lines() {
        if stream::run(rt, line)? {
            count = count.saturating_add(1);
        }
    }
    Ok(count)
}

/// Cuts the modules that the file `cuts` names, and gives how many there were.
fn cuts(rt: &HostRuntime) -> Result<usize> {
    let text = fs::read_to_string(rt, "cuts")?;
    let mut count = 0usize;
    for line in text.lines() {
        if cut::run(rt, line)? {
            count = count.saturating_add(1);
        }
    }
    Ok(count)
}

fn main(rt: HostRuntime) -> Result<()> {
    let cases = worked_cases(&rt)?;
    let lines = refused_lines(&rt)?;
    let limits = limits(&rt)?;
    let calls = calls(&rt)?;
    let faults = faults(&rt)?;
    let cuts = cuts(&rt)?;
    let streams = streams(&rt)?;
    println!(rt; "{cases} cases, {lines} modules of a line, {limits} at or above a limit")?;
    println!(rt; "{calls} calls, {faults} with faults, {cuts} cut behind each token")?;
    println!(rt; "{streams} with full outputs, the longest inputs, or help")?;
    Ok(())
}
