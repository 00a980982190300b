//! A program that traces the calls of a pool under eight clients, and replays them.
//!
//! It runs a server with locks, three workers and a driver. It writes each call as an event, in the
//! order of the calls. Then it replays the events, and compares the emission of each event and the
//! final slots with those of the pool.
//!
//! # What is proved
//!
//! - Each logged call of the traced backend is one call of the pool's backend, with the same
//!   arguments and result.
//! - It isn't proved that the trace has the right lines, nor that the replay equals the trace. Each
//!   run of the program tries both.
//!
//! By the contracts of `TracedBench`.
#![tactic(auto)]

mod call_trace;
mod clients;
mod comparison;
mod driver;
mod refusing_store;
mod threads;
mod traced_bench;
mod traced_pool;
mod traced_run;
mod traffic;

use crate::comparison::{Outcome, outcome_of};
use crate::traced_pool::run_traced;
use clap::{Command, Error};
use fc_cli::Status;
use fc_cli::argument::positional;
use fc_cli::command_line::{VERSION, parse, run_main};
use fc_workers::Offload;
use std::alloc::Global;
use std::io;
use std::io::Write;
use std::process::ExitCode;
use std::rt::Runtime;
use std::sync::Wait;
use std::thread::Threads;
use std::time::Clock;

/// A dispatch policy, with its name.
struct Trial {
    name: &'static str,
    offload: Offload,
}

/// The policies under which a pool is traced.
static TRIALS: [Trial; 2] = [
    Trial {
        name: "all jobs to workers",
        offload: Offload::Every,
    },
    Trial {
        name: "expensive jobs to workers",
        offload: Offload::Expensive(6_000),
    },
];

/// The names of events, each with the space after it.
static EVENTS: [&str; 18] = [
    "Deliver ",
    "Fire ",
    "Peek ",
    "Take ",
    "Commit ",
    "Install ",
    "Remove ",
    "Refuse ",
    "Receipt ",
    "Raise ",
    "Answer ",
    "Due ",
    "Fresh ",
    "Note ",
    "GiveUp ",
    "Signal ",
    "Tick ",
    "ShardTick ",
];

// Returns the description of the program's command line, for `parse`.
fn command<'a>(alloc: Global) -> Result<Command<'a>, Error> {
    let requests = positional(
        alloc,
        "requests",
        "REQUESTS",
        "The number of requests in each trial, 2000 if it isn't given",
    );
    Ok(
        Command::new(alloc, "fctrace")
            .version(VERSION)
            .about("Trace the calls of a pool under eight clients, and replay them")
            .arg(requests)?,
    )
}

// Runs each trial with the number of requests that the command line gives.
fn obey<R: Runtime + AllocGlobal + Threads + Wait + Clock + Sync, E: Write>(
    rt: &R,
    err: &mut E,
    words: &[String],
) -> anyhow::Result<Status> {
    match requests_of(rt, err, words)? {
        Ok(requests) => try_all(rt, err, requests),
        Err(status) => Ok(status),
    }
}

// Returns the number of requests that the command line gives, or the status that ends the program.
fn requests_of<R: Runtime + AllocGlobal, E: Write>(
    rt: &R,
    err: &mut E,
    words: &[String],
) -> anyhow::Result<Result<u32, Status>> {
    let matches = match parse(rt, command(rt.alloc())?, words)? {
        Ok(matches) => matches,
        Err(status) => return Ok(Err(status)),
    };
    match matches.get_str("requests").unwrap_or("2000").parse::<u32>() {
        Ok(requests) => Ok(Ok(requests)),
        Err(_) => {
            writeln!(err, "error: REQUESTS isn't a number below 2^32")?;
            Ok(Err(Status::Bad))
        }
    }
}

// Runs each trial. Returns `Refused` if a line of a replay differs, or if the control finds no
// difference.
fn try_all<R: Runtime + AllocGlobal + Threads + Wait + Clock + Sync, E: Write>(
    rt: &R,
    err: &mut E,
    requests: u32,
) -> anyhow::Result<Status> {
    let mut status = Status::Done;
    for trial in &TRIALS {
        let outcome = try_out(rt, requests, trial.offload)?;
        if !tell(rt, err, trial.name, requests, &outcome)? {
            status = Status::Refused;
        }
    }
    Ok(status)
}

// Runs a trial with this policy, and returns its outcome.
fn try_out<R: Runtime + AllocGlobal + Threads + Wait + Clock + Sync>(
    rt: &R,
    requests: u32,
    offload: Offload,
) -> anyhow::Result<Outcome> {
    let traced = run_traced(rt, rt.alloc(), requests, offload)?;
    Ok(outcome_of(rt.alloc(), &traced)?)
}

// Prints the outcome of a trial. Returns whether no line of the replay differs, and lines of the
// control do.
fn tell<R: Runtime, E: Write>(
    rt: &R,
    err: &mut E,
    name: &str,
    requests: u32,
    outcome: &Outcome,
) -> io::Result<bool> {
    tell_counts(err, name, outcome)?;
    let (differing, control) = (outcome.differing, outcome.control);
    let mut out = io::writer(rt);
    write!(
        out,
        "{name}: {requests} requests, {differing} lines differ; "
    )?;
    if control > 0 {
        writeln!(out, "with two commits swapped some do")?;
    } else {
        writeln!(out, "with two commits swapped none does")?;
    }
    Ok(differing == 0 && control > 0)
}

// Writes to `err` the number of lines, the number of differing ones in the control, the number of
// conflicts, and the number of events with each name. Returns the writer's error.
fn tell_counts<E: Write>(err: &mut E, name: &str, outcome: &Outcome) -> io::Result<()> {
    let (lines, conflicts) = (outcome.lines, outcome.conflicts);
    let control = outcome.control;
    write!(err, "{name}: {lines} lines, control {control}, ")?;
    write!(err, "conflicts {conflicts};")?;
    for event in &EVENTS {
        let count = outcome.count(event);
        write!(err, " {event}{count}")?;
    }
    writeln!(err)
}

fn main(rt: HostRuntime) -> ExitCode {
    run_main(&rt, &mut rt.stderr(), |err, words| obey(&rt, err, words))
}
