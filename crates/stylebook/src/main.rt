// Checks the styles of a book by the commands of a script.
#![tactic(auto)]

mod answer;
mod help;
mod loaded;
mod packed;
mod refusal;
mod script;
mod sets;

use help::Help;
use script::{Failed, fail};
use std::env;
use std::fs::File;
use std::io::{BufReader, Read};
use std::process::ExitCode;

// Runs the script that is read from `input`, which messages call `source`.
fn run_script<R: Read + Drop>(rt: &HostRuntime, source: &str, input: R) -> Result<(), Failed> {
    let lines = BufReader::new(rt.alloc(), input).map_err(|_| fail(rt, "out of memory"))?;
    script::run(rt, source, lines)
}

// Runs the script in a file.
fn run_file(rt: &HostRuntime, path: &str) -> Result<(), Failed> {
    let file = File::open(rt, path).map_err(|error| fail(rt, format_args!("{path}: {error}")))?;
    run_script(rt, path, file)
}

// Prints how the program is called.
fn print_help(rt: &HostRuntime) -> Result<(), Failed> {
    let text = format!(in rt.alloc(); "{Help}").map_err(|_| fail(rt, "out of memory"))?;
    script::print(rt, text.as_str())
}

// Does what the one argument asks for.
fn run_argument(rt: &HostRuntime, argument: &str) -> Result<(), Failed> {
    match argument {
        "--help" => print_help(rt),
        option if option.starts_with("--") => {
            Err(fail(rt, format_args!("unknown option '{option}'")))
        }
        path => run_file(rt, path),
    }
}

// Runs the script that the arguments name, or the one on standard input.
fn run_arguments(rt: &HostRuntime) -> Result<(), Failed> {
    let mut arguments = env::args(rt)
        .map_err(|error| fail(rt, format_args!("arguments: {error}")))?
        .skip(1);
    match (arguments.next(), arguments.next()) {
        (None, _) => run_script(rt, "standard input", rt.stdin()),
        (Some(argument), None) => run_argument(rt, argument.as_str()),
        (Some(_), Some(extra)) => Err(fail(rt, format_args!("more than one argument: '{extra}'"))),
    }
}

// Status 1 where the run failed: standard error has said why, and nothing is added to it.
fn main(rt: HostRuntime) -> ExitCode {
    match run_arguments(&rt) {
        Ok(()) => ExitCode::SUCCESS,
        Err(Failed) => ExitCode::FAILURE,
    }
}
