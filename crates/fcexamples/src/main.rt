//! The worked programs of docs/PROGRAMS.md, and a program that runs them.
//!
//! The program assembles and checks each of them, installs it in slot 0 of a server, and sends
//! requests to that slot.
#![tactic(auto)]

use clap::{Command, Error};
use fc_cli::Status;
use fc_cli::argument::positional;
use fc_cli::command_line::{VERSION, parse, run_main};
use fc_isa::ImageVersion;
use fc_server::DEFAULT_BEGIN;
use fc_service::play::play;
use fc_tools::assemble::image_of;
use fc_tools::check::check;
use std::alloc::Global;
use std::io::{BufWriter, Write};
use std::process::ExitCode;
use std::rt::Files;
use std::{fs, io};

/// A worked program: the file of its source, its limits, and its requests.
///
/// The limits are the size of the program's variables in bytes, and the budget of steps. The
/// requests are lines of `fcd play` to slot 0.
struct Example {
    file: &'static str,
    vars_size: u16,
    budget: u32,
    requests: &'static str,
}

/// The worked programs, each below a comment on its requests.
static EXAMPLES: [Example; 3] = [
    // Two POSTs, and a GET.
    Example {
        file: "counter.s",
        vars_size: 8,
        budget: 15,
        requests: "1 1 40020002b1720130\n1 1 40020003b1720130\n1 1 40010004b1720130\n",
    },
    // GETs with the payloads 101 and 100, and with none.
    Example {
        file: "threshold.s",
        vars_size: 0,
        budget: 13,
        requests: "1 1 40010002b1720130ff65\n1 1 40010003b1720130ff64\n1 1 40010004b1720130\n",
    },
    // A POST of 101, and a GET.
    Example {
        file: "level.s",
        vars_size: 8,
        budget: 39,
        requests: "1 1 40020002b1720130ff65\n1 1 40010003b1720130\n",
    },
];

// Returns the description of the program's command line, for `parse`.
fn command<'a>(alloc: Global) -> Result<Command<'a>, Error> {
    let folder = positional(
        alloc,
        "folder",
        "FOLDER",
        "Where the texts of the programs lie; the current folder where it isn't given",
    );
    Ok(
        Command::new(alloc, "fcexamples")
            .version(VERSION)
            .about("Assemble the worked programs, check them, and play them")
            .arg(folder)?,
    )
}

// Runs the worked programs in the folder that the command line names, or in the current folder.
// Returns the status of the last program that was run. If the command line doesn't match, nothing
// is run, and the status is that of `parse`, which has printed why. Returns an error if reading,
// printing or an allocation fails.
fn obey<E: Write>(rt: &HostRuntime, err: &mut E, words: &[String]) -> anyhow::Result<Status> {
    let matches = match parse(rt, command(rt.alloc())?, words)? {
        Ok(matches) => matches,
        Err(status) => return Ok(status),
    };
    show_all(rt, err, matches.get_str("folder").unwrap_or("."))
}

// Runs the worked programs in order, up to the first that isn't accepted or can't be played.
// Returns the status of the last program that was run.
fn show_all<E: Write>(rt: &HostRuntime, err: &mut E, folder: &str) -> anyhow::Result<Status> {
    let mut out = BufWriter::new(rt.alloc(), io::writer(rt))?;
    for example in &EXAMPLES {
        let status = show(rt, &mut out, err, folder, example)?;
        if status != Status::Done {
            return Ok(status);
        }
    }
    out.flush()?;
    Ok(Status::Done)
}

// Prints the verdict on a program. If it is accepted, prints the lines that install the program and
// send requests to it, and the output of these lines. Returns the status of the verdict, or, if
// that is `Done`, the status of playing the lines.
fn show<R: Files + AllocGlobal, W: Write, E: Write>(
    rt: &R,
    out: &mut W,
    err: &mut E,
    folder: &str,
    example: &Example,
) -> anyhow::Result<Status> {
    let alloc = rt.alloc();
    let text = fs::read(rt, format!(in alloc; "{folder}/{}", example.file)?)?;
    let image = image_of(
        alloc,
        &text,
        example.vars_size,
        example.budget,
        ImageVersion::One,
    )?;
    write!(out, "{}: ", example.file)?;
    let judged = check(alloc, &mut image.as_slice(), out, err);
    if judged != Status::Done {
        return Ok(judged);
    }
    let digits = hex::encode(alloc, &image)?;
    let lines = format!(in alloc; "0 1 40030001b1700130ff{digits}\n{}", example.requests)?;
    writeln!(out, "\n{lines}")?;
    let played = play(alloc, lines.as_bytes(), out, err, DEFAULT_BEGIN);
    writeln!(out)?;
    Ok(played)
}

fn main(rt: HostRuntime) -> ExitCode {
    run_main(&rt, &mut rt.stderr(), |err, words| obey(&rt, err, words))
}
