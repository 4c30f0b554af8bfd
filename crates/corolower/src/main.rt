//! `corolower`: lowers LLVM's switched-resume coroutines, and runs what it lowered.
#![tactic(auto)]

use cli_drive::{drive, tell};
use cli_io::{ReadSource, WriteSink};
use ir_base::Status;
use std::process::ExitCode;
use std::{env, io};

/// The words after the program's name. One that isn't UTF-8 is an error.
fn words_of(rt: &HostRuntime) -> io::Result<Vec<String>> {
    let mut words = Vec::new(rt.alloc());
    for word in env::args(rt)?.skip(1) {
        words.push(word)?;
    }
    Ok(words)
}

fn main(rt: HostRuntime) -> ExitCode {
    let mut input = ReadSource::new(rt.stdin());
    let mut out = WriteSink::new(rt.stdout());
    let mut err = WriteSink::new(rt.stderr());
    let status = match words_of(&rt) {
        Ok(words) => drive(rt.alloc(), &words, &mut input, &mut out, &mut err),
        Err(fault) => {
            if fault.kind() == io::ErrorKind::OutOfMemory {
                tell(&mut out, &mut err, b"out of memory\n", Status::OutOfMemory)
            } else {
                tell(&mut out, &mut err, b"bad word\n", Status::Words)
            }
        }
    };
    ExitCode::from(status.code())
}
