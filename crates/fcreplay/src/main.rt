//! A program that replays lists of events, with their emissions and final slots.
#![tactic(auto)]

use clap::Command;
use fc_cli::Status;
use fc_cli::command_line::{VERSION, parse, run_main};
use fc_replay::replay::replay;
use std::alloc::Global;
use std::io;
use std::io::{BufReader, BufWriter, Write};
use std::process::ExitCode;
use std::rt::Runtime;

/// The part of `--help` on the events, on the output, and on the end of a replay.
const EVENTS: &str = "\
An event is its name and its parts in any order, parted by single spaces:

  Deliver now=0 ep=1 data=40000001
  Take job=0 memory=1
  Commit job=0 now=5

A Take may have `readings=` with 128 hex digits, what its program reads of the device; else they
are zeros.

A first line `Begin serial=S id=I` has empty slots begin at serial S, 0 to 2^63 - 1, and the
server draw message id I, 0 to 65535, first; else both are 0. Jobs are numbered from 0 in the
order of their coming; moments are in milliseconds. For each event `none` is printed, or the
datagram that it sends as `peer hex`; then each slot whose serial is above 0. Of a list
without events nothing is printed.

Exit status: 0 where all is printed; 2 where a line or the command line is bad, and nothing
is carried out; 3 where reading or writing failed, or memory was refused.";

// Returns the description of the program's command line, for `parse`.
fn command<'a>(alloc: Global) -> Command<'a> {
    Command::new(alloc, "fcreplay")
        .version(VERSION)
        .about("Carry out the events of standard input, one a line, and print what each emits")
        .after_help(EVENTS)
}

// Replays standard input to standard output, and returns the status. If the command line doesn't
// match or asks for help, nothing is replayed, and the status is that of `parse`. Returns an error
// if printing fails, or if memory can't be allocated.
fn obey<R: Runtime + AllocGlobal, E: Write>(
    rt: &R,
    err: &mut E,
    words: &[String],
) -> anyhow::Result<Status> {
    let alloc = rt.alloc();
    if let Err(status) = parse(rt, command(alloc), words)? {
        return Ok(status);
    }
    let mut input = BufReader::new(alloc, rt.reader())?;
    let mut out = BufWriter::new(alloc, io::writer(rt))?;
    Ok(replay(alloc, &mut input, &mut out, err))
}

fn main(rt: HostRuntime) -> ExitCode {
    run_main(&rt, &mut rt.stderr(), |err, words| obey(&rt, err, words))
}
