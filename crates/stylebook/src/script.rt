// Running a script: each line is read, its command carried out, and the answer printed.
use crate::answer::respond;
use crate::sets::Sets;
use commands::command::parse;
use commands::error::LineError;
use commands::line::{command_part, words};
use std::alloc::AllocError;
use std::io::BufRead;
use std::rt::Files;
use std::{fmt, io};

// The run failed, and standard error says why.
#[derive(Clone, Copy, Debug)]
pub struct Failed;

// Says on standard error why the run ends.
pub fn fail<D: fmt::Display + Drop>(rt: &HostRuntime, message: D) -> Failed {
    let _ = eprintln!(rt; "stylebook: {message}");
    Failed
}

// Prints text in one write.
pub fn print(rt: &HostRuntime, text: &str) -> Result<(), Failed> {
    rt.write_all(text.as_bytes())
        .map_err(|error| fail(rt, format_args!("standard output: {error}")))
}

// Carries out a line, and gives the line to print; none where the line has no command.
fn answered<'a>(
    files: &(impl Files + Alloc),
    sets: &mut Sets,
    line: &'a [u8],
) -> Result<Option<String>, LineError<'a>> {
    let heap = sets.heap;
    let found = words(heap, command_part(line))?;
    match found.as_slice() {
        [] => Ok(None),
        [word, operands @ ..] => {
            let answer = respond(files, sets, parse(word, operands)?)?;
            Ok(Some(format!(in heap; "{answer}\n")?))
        }
    }
}

// Carries out the line of a number, and prints its answer.
fn step(rt: &HostRuntime, sets: &mut Sets, number: u64, line: &[u8]) -> Result<(), Failed> {
    match answered(rt, sets, line) {
        Ok(None) => Ok(()),
        Ok(Some(text)) => print(rt, text.as_str()),
        Err(error) => Err(fail(rt, format_args!("line {number}: {error}"))),
    }
}

// Why the line of a number could not be read.
fn unread(rt: &HostRuntime, source: &str, number: u64, error: io::Error) -> Failed {
    match error.kind() {
        io::ErrorKind::OutOfMemory => fail(
            rt,
            format_args!("line {number}: {}", LineError::from(AllocError)),
        ),
        _ => fail(rt, format_args!("{source}: {error}")),
    }
}

// Runs the script that is read from `input`, which messages call `source`.
pub fn run<R: BufRead + Drop>(rt: &HostRuntime, source: &str, mut input: R) -> Result<(), Failed> {
    let mut sets = Sets::new(rt.alloc());
    let mut line = Vec::new(rt.alloc());
    // a count of lines, since input may never end; one buffer for all of them
    for number in 1..u64::MAX {
        line.clear();
        match input.read_until(b'\n', &mut line) {
            Ok(0) => break,
            Ok(_) => step(rt, &mut sets, number, line.as_slice())?,
            Err(error) => return Err(unread(rt, source, number, error)),
        }
    }
    Ok(())
}
