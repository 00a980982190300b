//! The server's `main`, which parses its command line and calls the service.
#![tactic(auto)]

use clap::ArgMatches;
use fc_cli::Status;
use fc_cli::command_line::{parse, run_main};
use fc_cli::message_id::random_id;
use fc_config::command::command;
use fc_config::every::{BadTimer, timers_in};
use fc_config::options::{BadOption, ServeConfig};
use fc_config::policy::policy_in;
use fc_front::Policy;
use fc_host::sensors::{FileSensors, NoSensors};
use fc_host::timer::Timer;
use fc_lines::LineLimit;
use fc_receive::reports::Reports;
use fc_record::{LoggedChanges, LoggedReports, Recorder, Reporter};
use fc_registry::StartError;
use fc_server::Begin;
use fc_service::play::play;
use fc_service::serials::unix_milliseconds;
use fc_service::serve::{Records, Service, serve};
use fc_service::slots::Slots;
use fc_service::workers::play_by_workers;
use fc_sql::{FileOfSlots, OpenError, SqlStore, open};
use fc_store::{Store, copy_slots};
use log::sink::Console;
use log::{LevelFilter, Log, Logged};
use sqlite::Alter;
use std::io;
use std::io::{BufReader, BufWriter, Write};
use std::net::Net;
use std::process::ExitCode;
use std::random::RandomSource;
use std::rt::Runtime;
use std::sync::Wait;
use std::thread::Threads;
use std::time::Clock;
use thiserror::Error;

/// Serial of the empty slots at the start of `fcd play`.
const FIRST_SERIAL: u64 = 0;

/// Message ID that the server draws first in `fcd play`.
const FIRST_ID: u16 = 0;

/// The reason why a server can't use a store.
#[derive(Debug, Drop, Error)]
enum BadStore {
    /// The store can't be opened.
    #[error("{0}")]
    Open(OpenError),
    /// A slot can't be restored, or memory for the slots can't be allocated.
    #[error("{0}")]
    Start(StartError),
}

// Runs the command that the words name, and returns its status. If the words don't match, the
// status is that of `parse`. Returns an error if a message can't be written, if memory can't be
// allocated, or if the time or the random bytes can't be read. `files` is the same runtime as `rt`:
// several threads read files with it, which is proved for `HostRuntime` only.
fn obey<R: Runtime + AllocGlobal + Threads + Wait + Net + RandomSource + Sync, E: Write>(
    rt: &R,
    files: &HostRuntime,
    err: &mut E,
    words: &[String],
) -> anyhow::Result<Status> {
    let matches = match parse(rt, command(rt.alloc())?, words)? {
        Ok(matches) => matches,
        Err(status) => return Ok(status),
    };
    match matches.subcommand() {
        Some(("play", matches)) => {
            let workers = matches.get_one::<u8>("workers");
            match policy_in(matches) {
                Some(policy) => play_input(rt, err, workers, policy),
                None => tell_bad(err, BadOption::Managers),
            }
        }
        Some(("serve", matches)) => serve_socket(rt, files, err, matches),
        _ => Ok(Status::Bad),
    }
}

// Plays standard input to standard output, and returns the status. `workers` is the number of
// workers, or `None` to play on this thread alone. Returns an error if memory for the buffers can't
// be allocated.
fn play_input<R: Runtime + AllocGlobal + Threads + Wait + Net + Sync, E: Write>(
    rt: &R,
    err: &mut E,
    workers: Option<u8>,
    policy: Policy,
) -> anyhow::Result<Status> {
    let alloc = rt.alloc();
    let input = BufReader::new(alloc, LineLimit::new(rt.reader()))?;
    let mut out = BufWriter::new(alloc, io::writer(rt))?;
    let begin = Begin {
        serial: FIRST_SERIAL,
        id: FIRST_ID,
        policy,
    };
    Ok(match workers {
        None => play(alloc, input, &mut out, err, begin),
        Some(count) => play_by_workers(rt, alloc, input, &mut out, err, count, begin),
    })
}

// Serves at the address and port of the command line. Returns `Bad` if an option is refused, or
// `Failed` if memory for the timers can't be allocated; the reason is written to `err`. Returns an
// error if that can't be written, or if `serve_logged` returns an error.
fn serve_socket<R: Runtime + AllocGlobal + Threads + Wait + Net + RandomSource + Sync, E: Write>(
    rt: &R,
    files: &HostRuntime,
    err: &mut E,
    matches: &ArgMatches<'_>,
) -> anyhow::Result<Status> {
    let config = match ServeConfig::from_matches(matches) {
        Ok(config) => config,
        Err(bad) => return tell_bad(err, bad),
    };
    let alloc = rt.alloc();
    let timers = match timers_in(alloc, matches) {
        Ok(timers) => timers,
        Err(bad) => return tell_bad_timer(err, &bad),
    };
    let end = Logged::new(rt, level_if(config.logs.info), Console(rt));
    let changes = Logged::new(rt, level_if(config.logs.changes), Console(rt));
    let counts = Logged::new(rt, LevelFilter::Info, Console(rt));
    serve_logged(
        rt,
        files,
        err,
        config,
        timers,
        &end,
        &LoggedChanges { logger: &changes },
        &LoggedReports::new(&counts),
    )
}

// Serves with this configuration and these timers. Returns the status of `serve`, or `Failed` if
// the store can't be used. `files` opens the files that the configuration names. `err` gets the
// listening address, or the reason of a failure. `end` logs the end of the server, `changes`
// records the changes of programs, and `reporter` reports the counts. Returns an error if the time
// or the random bytes can't be read, or if memory for the slots can't be allocated. Returns one too
// if a message about the store can't be written.
fn serve_logged<
    R: Runtime + AllocGlobal + Threads + Wait + Net + RandomSource + Sync,
    E: Write,
    L: Log,
    C: Recorder + Sync,
    Q: Reporter + Sync,
>(
    rt: &R,
    files: &HostRuntime,
    err: &mut E,
    config: ServeConfig<'_>,
    timers: Vec<Timer>,
    end: &L,
    changes: &C,
    reporter: &Q,
) -> anyhow::Result<Status> {
    let records = Records {
        end,
        changes,
        reports: Reports {
            every: config.logs.report,
            reporter,
        },
    };
    let start = read_start(rt)?;
    let Some(path) = config.store else {
        let slots = Slots::empty(rt.alloc(), start.at, start.id, &config.policy)?;
        return Ok(serve_slots(rt, files, err, &config, timers, &records, slots));
    };
    match stored_slots(files, path, start, &config.policy) {
        Ok((slots, is_saved)) => {
            if !is_saved {
                tell_unsaved(err, path)?;
            }
            Ok(serve_stored(rt, files, err, &config, timers, &records, slots))
        }
        Err(bad) => tell_bad_store(err, path, &bad),
    }
}

/// The start of a server.
///
/// It has the time in milliseconds since 1970, and the first message ID that the server draws.
#[derive(Clone, Copy)]
struct Start {
    at: u64,
    id: u16,
}

// Reads the system's clock and random bytes for the start of a server. Returns an error if either
// can't be read.
fn read_start<R: Clock + RandomSource>(rt: &R) -> anyhow::Result<Start> {
    let at = unix_milliseconds(rt).map_err(|error| anyhow::anyhow!("clock: {error}"))?;
    let id = random_id(rt).map_err(|error| anyhow::anyhow!("random bytes: {error}"))?;
    Ok(Start { at, id })
}

// Opens the store at `path`, restores its slots for a server with this start, and saves the serial
// of the start. Returns the slots, and whether the serial is saved. Otherwise returns
// why the store can't be opened, or why its slots can't be restored.
fn stored_slots(
    files: &HostRuntime,
    path: &str,
    start: Start,
    policy: &Policy,
) -> Result<(Slots<FileOfSlots>, bool), BadStore> {
    let store = match open(files, path) {
        Ok(store) => store,
        Err(error) => return Err(BadStore::Open(error)),
    };
    let alloc = files.alloc();
    let Ok(stored) = copy_slots(alloc, store.slots()) else {
        return Err(BadStore::Start(StartError::Memory));
    };
    Slots::restored(alloc, store, &stored, start.at, start.id, policy).map_err(BadStore::Start)
}

// Serves as `serve_slots` does, with the slots of a database. The database's own type is left open
// here: at the type of a file, the proof that the store may go to a thread computes too long.
fn serve_stored<
    R: Runtime + AllocGlobal + Threads + Wait + Net + RandomSource + Sync,
    E: Write,
    L: Log,
    C: Recorder + Sync,
    Q: Reporter + Sync,
    A: Alter + Send + Drop,
>(
    rt: &R,
    files: &HostRuntime,
    err: &mut E,
    config: &ServeConfig<'_>,
    timers: Vec<Timer>,
    records: &Records<'_, L, C, Q>,
    slots: Slots<SqlStore<A>>,
) -> Status {
    serve_slots(rt, files, err, config, timers, records, slots)
}

// Serves with this configuration, these timers and these slots, and returns the status of `serve`.
// `files` opens the sensors' file, if the configuration names one.
fn serve_slots<
    R: Runtime + AllocGlobal + Threads + Wait + Net + RandomSource + Sync,
    E: Write,
    L: Log,
    C: Recorder + Sync,
    Q: Reporter + Sync,
    P: Store + Send + Drop,
>(
    rt: &R,
    files: &HostRuntime,
    err: &mut E,
    config: &ServeConfig<'_>,
    timers: Vec<Timer>,
    records: &Records<'_, L, C, Q>,
    slots: Slots<P>,
) -> Status {
    match config.readings {
        Some(path) => {
            let sensors = FileSensors::new(files, path);
            let service = Service {
                alloc: rt.alloc(),
                records,
                sensors: &sensors,
                timers,
                extent: config.extent,
            };
            serve(rt, err, service, slots, config.listening)
        }
        None => {
            let service = Service {
                alloc: rt.alloc(),
                records,
                sensors: &NoSensors,
                timers,
                extent: config.extent,
            };
            serve(rt, err, service, slots, config.listening)
        }
    }
}

// Returns the filter of a logger, which keeps records of level info if `is_asked`, or else none.
fn level_if(is_asked: bool) -> LevelFilter {
    if is_asked {
        LevelFilter::Info
    } else {
        LevelFilter::Off
    }
}

// Writes to `err` why an option is refused. Returns `Bad`, or an error if writing fails.
fn tell_bad<E: Write>(err: &mut E, bad: BadOption) -> anyhow::Result<Status> {
    writeln!(err, "{bad}")?;
    Ok(Status::Bad)
}

// Writes to `err` that the store at `path` hasn't saved the serial of the start. Returns an error
// if writing fails.
fn tell_unsaved<E: Write>(err: &mut E, path: &str) -> io::Result<()> {
    writeln!(err, "store {path}: the serial of the start isn't saved")
}

// Writes to `err` why the store at `path` can't be used. Returns `Failed`, or an error if writing
// fails.
fn tell_bad_store<E: Write>(err: &mut E, path: &str, bad: &BadStore) -> anyhow::Result<Status> {
    writeln!(err, "error: store {path}: {bad}")?;
    Ok(Status::Failed)
}

// Writes to `err` why the timers of `--every` can't be made. Returns `Failed` if memory can't be
// allocated, else `Bad`. Returns an error if writing fails.
fn tell_bad_timer<E: Write>(err: &mut E, bad: &BadTimer) -> anyhow::Result<Status> {
    writeln!(err, "{bad}")?;
    Ok(match bad {
        BadTimer::Memory(_) => Status::Failed,
        BadTimer::Form => Status::Bad,
    })
}

fn main(rt: HostRuntime) -> ExitCode {
    run_main(
        &rt,
        &mut rt.stderr(),
        |err, words| obey(&rt, &rt, err, words),
    )
}
