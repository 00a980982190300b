//! Cases of lines, events, sources and images as data, and a program to check them.
//!
//! The program executes each case by the library functions that the other programs call, and
//! compares the output with the expected one.
//!
//! # What is proved
//!
//! - Each line of a case has the form that it is parsed as. A vector's streams have the bytes of
//!   its lines, in order. The vector has the last status that a line gives, or else `Done`.
//! - An allowed output has the vector's status and standard output. Its standard error is the
//!   vector's, or begins with the vector's up to `..` at the end. If the vector has none, standard
//!   error is empty exactly if the status is `Done`.
//! - It isn't proved that every vector is executed. The stored run shows this, and includes a case
//!   that differs.
//!
//! By the contracts of `line::parse`, `case::lines_of`, `vector_of`, `Output::allows`.
#![tactic(auto)]

mod case;
mod files;
mod line;
mod running;
mod stage;

use case::{CaseError, lines_of};
use clap::{ArgAction, Command, Error};
use fc_cli::Status;
use fc_cli::argument::positional;
use fc_cli::command_line::{VERSION, parse, run_main};
use files::{all_paths, suite_of};
use running::{Difference, check_case};
use std::alloc::Global;
use std::io::{BufWriter, Write};
use std::process::ExitCode;
use std::rt::Runtime;
use std::sync::Wait;
use std::thread::Threads;
use std::{fs, io};

// Returns the description of the program's command line, for `parse`.
fn command<'a>(alloc: Global) -> Result<Command<'a>, Error> {
    let cases = positional(
        alloc,
        "case",
        "CASE",
        "The files of cases; those in play, events and asm where none is given",
    )
    .action(ArgAction::Append);
    Ok(
        Command::new(alloc, "fcvectors")
            .version(VERSION)
            .about("Carry out cases, and say of each whether that comes of it which it says")
            .arg(cases)?,
    )
}

// Executes the cases that the command line names, or all cases if it names none. Returns the status
// of `check_files`. If the command line doesn't match, nothing is executed, and the status is that
// of `parse`, which has printed why.
fn obey<R: Runtime + AllocGlobal + Threads + Wait + Sync, E: Write>(
    rt: &R,
    err: &mut E,
    words: &[String],
) -> anyhow::Result<Status> {
    let matches = match parse(rt, command(rt.alloc())?, words)? {
        Ok(matches) => matches,
        Err(status) => return Ok(status),
    };
    let mut out = BufWriter::new(rt.alloc(), io::writer(rt))?;
    let status = match matches.get_strs("case") {
        Some(paths) => check_files(rt, &mut out, err, paths)?,
        None => {
            let paths = all_paths(rt)?;
            let paths: Vec<&str> = paths.iter().map(|path| path.as_str()).collect(rt.alloc())?;
            check_files(rt, &mut out, err, &paths)?
        }
    };
    out.flush()?;
    Ok(status)
}

// Executes the cases in these files, up to the first case that can't be executed, and returns that
// case's status. If all are executed, returns `Refused` if one of them differs, and else `Done`.
fn check_files<R: Runtime + AllocGlobal + Threads + Wait + Sync, W: Write, E: Write>(
    rt: &R,
    out: &mut W,
    err: &mut E,
    paths: &[&str],
) -> anyhow::Result<Status> {
    let mut status = Status::Done;
    for path in paths.iter().copied() {
        match check_file(rt, out, err, path)? {
            Status::Done => {}
            Status::Refused => status = Status::Refused,
            ended => return Ok(ended),
        }
    }
    Ok(status)
}

// Executes the case in this file, and prints whether the output is as expected. Returns `Done` if
// the output is, `Refused` if it differs, and `Bad` or `Failed` if the case can't be executed.
// Returns an error if reading or printing fails.
fn check_file<R: Runtime + AllocGlobal + Threads + Wait + Sync, W: Write, E: Write>(
    rt: &R,
    out: &mut W,
    err: &mut E,
    path: &str,
) -> anyhow::Result<Status> {
    match suite_of(path) {
        Some((suite, name)) => {
            let text = fs::read(rt, path)?;
            tell_found(out, err, name, check_text(rt, &text, suite.command))
        }
        None => tell_misnamed(err, path),
    }
}

// Prints to `err` that no suite has a file of this name. Returns `Bad`.
fn tell_misnamed<E: Write>(err: &mut E, path: &str) -> anyhow::Result<Status> {
    writeln!(err, "{path}: no name of a case")?;
    Ok(Status::Bad)
}

// Prints the result of a case, and returns the status for that result.
fn tell_found<W: Write, E: Write>(
    out: &mut W,
    err: &mut E,
    name: &str,
    found: Result<Option<Difference>, CaseError>,
) -> anyhow::Result<Status> {
    match found {
        Ok(None) => print_agreement(out, name),
        Ok(Some(difference)) => tell_difference(out, err, name, &difference),
        Err(error) => explain(err, name, &error),
    }
}

// Prints to `out` that the output of the case is as expected. Returns `Done`.
fn print_agreement<W: Write>(out: &mut W, name: &str) -> anyhow::Result<Status> {
    writeln!(out, "ok {name}")?;
    Ok(Status::Done)
}

// Prints to `out` the line of the vector that differs, and to `err` the actual output. Returns
// `Refused`.
fn tell_difference<W: Write, E: Write>(
    out: &mut W,
    err: &mut E,
    name: &str,
    difference: &Difference,
) -> anyhow::Result<Status> {
    writeln!(out, "differs {name}: line {}", difference.line)?;
    difference.tell(err, name)?;
    Ok(Status::Refused)
}

// Executes the case of this text. `command` is the command of vectors that name none. Returns the
// first difference, or `None` if there is none.
fn check_text<R: Runtime + AllocGlobal + Threads + Wait + Sync>(
    rt: &R,
    text: &[u8],
    command: &[u8],
) -> Result<Option<Difference>, CaseError> {
    let lines = lines_of(rt.alloc(), text)?;
    check_case(rt, &lines, command)
}

// Prints to `err` why a case can't be executed. Returns `Failed` if memory couldn't be allocated,
// and else `Bad`.
fn explain<E: Write>(err: &mut E, name: &str, error: &CaseError) -> anyhow::Result<Status> {
    match error {
        CaseError::Memory(_) => {
            writeln!(err, "{error}")?;
            Ok(Status::Failed)
        }
        CaseError::BadLine(_) | CaseError::BadCommand(_) => {
            writeln!(err, "{name}: {error}")?;
            Ok(Status::Bad)
        }
    }
}

fn main(rt: HostRuntime) -> ExitCode {
    run_main(&rt, &mut rt.stderr(), |err, words| obey(&rt, err, words))
}
