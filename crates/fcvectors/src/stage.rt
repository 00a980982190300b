//! The stages of a command: each is a library function that a program calls.
use crate::case::Output;
use coap_dedup::{EXCHANGES, MOST_EXCHANGES};
use fc_cli::Status;
use fc_cli::status::tell;
use fc_front::Policy;
use fc_help::Method;
use fc_lines::policy::{DEFAULT_SECONDS, policy};
use fc_replay::replay::replay;
use fc_server::Begin;
use fc_service::play::play;
use fc_service::workers::play_by_workers;
use fc_tools::assemble::image;
use fc_tools::budget::Budget;
use fc_tools::check::check;
use fc_tools::expand::expand;
use fc_tools::list::list;
use fc_tools::run::run;
use fc_tools::run_options::{Asked, AskedError};
use fc_tools::version::version_named;
use hex::FromHexError;
use std::alloc::{AllocError, Global};
use std::mem;
use std::sync::Wait;
use std::thread::Threads;

/// The greatest serial.
const LAST_SERIAL: u64 = 9_223_372_036_854_775_807;

/// The number of bytes that a line of hex digits represents: one slot of an image.
const LINE: usize = 8;

/// Executes a command on an input.
///
/// The command's stages are separated by `|`. The first stage reads `input`, and each later one the
/// output of the stage before. No stage runs after one that doesn't end with `Done`. `workers` is
/// the number of workers that play lines, or `None` for this thread alone.
///
/// Returns `None` if the command isn't UTF-8, or if a stage that is to run is unknown or has an
/// unknown or malformed option.
///
/// # Errors
/// Returns `AllocError` if memory for the data between stages can't be allocated.
pub(crate) fn output_of<R: AllocGlobal + Threads + Wait + Sync>(
    rt: &R,
    workers: Option<u8>,
    command: &[u8],
    input: &[u8],
) -> Result<Option<Output>, AllocError> {
    let alloc = rt.alloc();
    let Ok(command) = str::from_utf8(command) else {
        return Ok(None);
    };
    let mut output = Output {
        status: Status::Done,
        stdout: Vec::from_slice(alloc, input)?,
        stderr: Vec::new(alloc),
    };
    for stage in command.split('|') {
        if output.status == Status::Done {
            let input = mem::replace(&mut output.stdout, Vec::new(alloc));
            match run_stage(rt, workers, stage.trim(), &input, &mut output) {
                Some(status) => output.status = status,
                None => return Ok(None),
            }
        }
    }
    Ok(Some(output))
}

/// Returns whether the last stage of a command plays lines.
pub(crate) fn is_play(command: &[u8]) -> bool {
    let start = command
        .iter()
        .rposition(|byte| *byte == b'|')
        .map_or(0, |at| at + 1);
    command[start..].trim_ascii_start().starts_with(b"play")
}

// Runs a stage, given by name and options, on `input`, and writes to `output`. Returns the stage's
// status, or `None` if the name or an option is unknown or malformed.
fn run_stage<R: AllocGlobal + Threads + Wait + Sync>(
    rt: &R,
    workers: Option<u8>,
    stage: &str,
    input: &[u8],
    output: &mut Output,
) -> Option<Status> {
    let alloc = rt.alloc();
    let (name, options) = stage.split_once(' ').unwrap_or((stage, ""));
    match name {
        "play" => play_from(rt, workers, options, input, output),
        "image" => write_image(alloc, options, input, output),
        "list" => write_listing(alloc, options, input, output),
        "run" => run_asked(alloc, options, input, output),
        _ if options.is_empty() => run_plain(alloc, name, input, output),
        _ => None,
    }
}

// Runs a stage that has no options. Returns the stage's status, or `None` if the name is unknown or
// the input of `unhex` isn't hex digits.
fn run_plain(alloc: Global, name: &str, mut input: &[u8], output: &mut Output) -> Option<Status> {
    let Output { stdout, stderr, .. } = output;
    match name {
        "replay" => Some(replay(alloc, &mut input, stdout, stderr)),
        "expand" => Some(expand(alloc, &mut input, stdout, stderr)),
        "check" => Some(check(alloc, &mut input, stdout, stderr)),
        "hex" => Some(ending(write_digits(alloc, input, stdout))),
        "unhex" => write_bytes(alloc, input, stdout),
        _ => None,
    }
}

// Returns the status of a stage that only writes: `Done`, or `Failed` if memory couldn't be
// allocated.
fn ending(writing: Result<(), AllocError>) -> Status {
    match writing {
        Ok(()) => Status::Done,
        Err(AllocError) => Status::Failed,
    }
}

// Plays lines on a server with the first serial, first message ID and policy in the options. The
// serial and the message ID are 0 if they aren't given. Returns the status of playing, or `None` if
// an option is unknown or malformed.
fn play_from<R: AllocGlobal + Threads + Wait + Sync>(
    rt: &R,
    workers: Option<u8>,
    options: &str,
    input: &[u8],
    output: &mut Output,
) -> Option<Status> {
    if !are_options(
        options,
        &[
            "--serial",
            "--id",
            "--managers",
            "--exchanges",
            "--share",
            "--confirm-after",
        ],
    ) {
        return None;
    }
    let serial = option(options, "--serial")
        .unwrap_or("0")
        .parse::<u64>()
        .ok()?;
    let id = option(options, "--id").unwrap_or("0").parse::<u16>().ok()?;
    if serial > LAST_SERIAL {
        return None;
    }
    let alloc = rt.alloc();
    let begin = Begin {
        serial,
        id,
        policy: policy_in(alloc, options)?,
    };
    let Output { stdout, stderr, .. } = output;
    Some(match workers {
        None => play(alloc, input, stdout, stderr, begin),
        Some(count) => { play_by_workers(rt, alloc, input, stdout, stderr, count, begin) }
    })
}

// Returns the policy in the options. Networks are separated by commas, and an option that isn't
// given has its default. Returns `None` if an option is malformed, or if memory can't be allocated.
fn policy_in(alloc: Global, options: &str) -> Option<Policy> {
    let networks = option(options, "--managers").unwrap_or("0.0.0.0/0");
    let networks = networks.split(',').collect::<Vec<_>>(alloc).ok()?;
    policy(
        &networks,
        limit(options, "--exchanges", EXCHANGES)?,
        limit(options, "--share", MOST_EXCHANGES)?,
        number_in(options, "--confirm-after", DEFAULT_SECONDS)?,
    )
}

// Returns the limit in the option with this name, or `default` if the option isn't given. Returns
// `None` if the option isn't a number.
fn limit(options: &str, name: &str, default: usize) -> Option<usize> {
    usize::try_from(number_in(options, name, default as u64)?).ok()
}

// Returns the number in the option with this name, or `default` if the option isn't given. Returns
// `None` if the option isn't a number.
fn number_in(options: &str, name: &str, default: u64) -> Option<u64> {
    match option(options, name) {
        Some(text) => text.parse::<u64>().ok(),
        None => Some(default),
    }
}

// Assembles a source to an image, as `fcasm image` does, and returns the status. Returns `None` if
// an option is unknown or malformed, or if a required one is missing.
fn write_image(
    alloc: Global,
    options: &str,
    mut input: &[u8],
    output: &mut Output,
) -> Option<Status> {
    if !are_options(options, &["--vars", "--budget", "--format"]) {
        return None;
    }
    let vars = option(options, "--vars")?.parse::<u16>().ok()?;
    let budget = option(options, "--budget")?.parse::<Budget>().ok()?;
    let version = version_named(option(options, "--format"))?;
    let Output { stdout, stderr, .. } = output;
    Some(image(alloc, &mut input, stdout, stderr, vars, budget, version))
}

// Lists an image, as `fcasm list` does, and returns the status. Returns `None` if an option is
// unknown.
fn write_listing(
    alloc: Global,
    options: &str,
    mut input: &[u8],
    output: &mut Output,
) -> Option<Status> {
    if !are_options(options, &["--slots"]) {
        return None;
    }
    let Output { stdout, stderr, .. } = output;
    Some(list(alloc, &mut input, stdout, stderr, !options.is_empty()))
}

// Runs a program on the request in the options, as `fcasm run` does, and returns the status.
// Returns `None` if an option or the method is unknown.
fn run_asked(
    alloc: Global,
    options: &str,
    mut input: &[u8],
    output: &mut Output,
) -> Option<Status> {
    if !are_options(
        options,
        &["--method", "--payload", "--query", "--vars", "--readings"],
    ) {
        return None;
    }
    let Output { stdout, stderr, .. } = output;
    match asked_by(alloc, options)? {
        Ok(asked) => Some(run(alloc, &mut input, stdout, stderr, &asked)),
        Err(error) => Some(tell(stderr, &error, error.status())),
    }
}

// Returns the request that the options describe, or the error that `fcasm run` reports. The options
// are those of `fcasm run`. Returns `None` if the method is unknown.
fn asked_by(alloc: Global, options: &str) -> Option<Result<Asked, AskedError>> {
    let method = match option(options, "--method") {
        None | Some("get") => Method::Get,
        Some("post") => Method::Post,
        Some(_) => return None,
    };
    let payload = option(options, "--payload").unwrap_or("");
    let query = option(options, "--query").unwrap_or("");
    let vars = option(options, "--vars");
    let readings = option(options, "--readings").unwrap_or("");
    Some(match Asked::new(alloc, method, payload, query, vars) {
        Ok(asked) => asked.with_readings(alloc, readings),
        Err(error) => Err(error),
    })
}

// Returns the word after an option's name, or `None` if the name or that word is missing.
fn option<'a>(options: &'a str, name: &str) -> Option<&'a str> {
    let mut words = options.split_whitespace();
    words.find(|word| *word == name)?;
    words.next()
}

// Returns whether each word that begins with two dashes is one of these names. If one isn't, the
// stage has an unknown option.
fn are_options(options: &str, names: &[&str]) -> bool {
    let mut words = options.split_whitespace();
    words.all(|word| !word.starts_with("--") || names.iter().any(|name| *name == word))
}

// Appends bytes to `out` as lines of hex digits, each with the eight bytes of a slot. Returns an
// error if memory can't be allocated.
fn write_digits(alloc: Global, bytes: &[u8], out: &mut Vec<u8>) -> Result<(), AllocError> {
    for slot in bytes.chunks(LINE) {
        let digits = hex::encode(alloc, slot)?;
        out.extend_from_slice(digits.as_bytes())?;
        out.push(b'\n')?;
    }
    Ok(())
}

// Replaces `out` by the bytes that lines of hex digits represent, and returns `Done`. Returns
// `Failed` if memory can't be allocated, and `None` if the lines aren't an even number of hex
// digits.
fn write_bytes(alloc: Global, lines: &[u8], out: &mut Vec<u8>) -> Option<Status> {
    let digits = lines.iter().copied().filter(|byte| *byte != b'\n');
    let Ok(digits) = digits.collect::<Vec<u8>>(alloc) else {
        return Some(Status::Failed);
    };
    match hex::decode(alloc, &digits) {
        Ok(bytes) => {
            *out = bytes;
            Some(Status::Done)
        }
        Err(FromHexError::OutOfMemory) => Some(Status::Failed),
        Err(_) => None,
    }
}
