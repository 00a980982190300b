//! The assembler's `main`, which parses its command line and calls the tools.
#![tactic(auto)]

use clap::{Arg, ArgMatches, Command, value_parser};
use fc_cli::Status;
use fc_cli::argument::{flag, option, positional};
use fc_cli::command_line::{VERSION, parse, run_main};
use fc_cli::status::tell;
use fc_help::Method;
use fc_tools::assemble::image;
use fc_tools::budget::Budget;
use fc_tools::check::check;
use fc_tools::digest::digest;
use fc_tools::expand::expand;
use fc_tools::list::list;
use fc_tools::run::run;
use fc_tools::run_options::{Asked, AskedError};
use fc_tools::streams::image_bytes;
use fc_tools::version::version_named;
use std::alloc::{AllocError, Global};
use std::io::{BufReader, BufWriter, Read, Write};
use std::process::ExitCode;
use std::rt::Runtime;
use std::{fs, io};

/// The help on the commands and exit statuses.
const STATUSES: &str = "\
Example: a text with the lines `mov64 r0, 0` and `exit`

  fcasm image --vars 0 --budget auto < program.txt > program.img
  fcasm check program.img

Exit status: 0 where the work is done; 1 where a text or an image is refused; 2 where the
command line is bad; 3 where reading or writing failed, or memory was refused.";

fn image_command<'a>(alloc: Global) -> Result<Command<'a>, AllocError> {
    let format = option(
        alloc,
        "format",
        "F",
        "The version of the image; 1 where it is not given",
    )
    .value_parser(["1", "2"].as_slice());
    Command::new(alloc, "image")
        .about("Assemble a text to an image")
        .arg(
            option(
                alloc,
                "vars",
                "V",
                "The size of the variables: 0 to 256 bytes, a multiple of 8",
            )
            .required(true)
            .value_parser(value_parser!(u16)),
        )?
        .arg(option(
            alloc,
            "budget",
            "B",
            "The most steps that a run may take: 1 to 65536, or `auto`, the program's cost",
        )
        .required(true))?
        .arg(format)
}

// Defines a command on an image, which is read from a file or from standard input. Returns
// `AllocError` if memory can't be allocated.
fn on_image<'a>(
    alloc: Global,
    name: &'static str,
    about: &'static str,
) -> Result<Command<'a>, AllocError> {
    let image = positional(
        alloc,
        "image",
        "IMAGE",
        "The image's file; standard input if it is `-` or not given",
    );
    Command::new(alloc, name).about(about).arg(image)
}

fn list_command<'a>(alloc: Global) -> Result<Command<'a>, AllocError> {
    on_image(alloc, "list", "List the program of an image")?.arg(flag(
        alloc,
        "slots",
        "Put the number of its slot in front of each line",
    ))
}

fn run_command<'a>(alloc: Global) -> Result<Command<'a>, AllocError> {
    let method = option(
        alloc,
        "method",
        "METHOD",
        "What is asked; get where it is not given",
    )
    .value_parser(["get", "post"].as_slice());
    on_image(
        alloc,
        "run",
        "Run an image's program once, and tell what it answers",
    )?
    .after_help(
        "The reply is sent with a success alone; variables and notice count for a POST with a success alone.",
    )
    .arg(method)?
    .arg(hex_bytes(
        alloc,
        "payload",
        "The request's payload in hex, 1024 bytes at most; none where it is not given",
    ))?
    .arg(hex_bytes(
        alloc,
        "query",
        "The request's query in hex, 64 bytes at most; none where it is not given",
    ))?
    .arg(hex_bytes(
        alloc,
        "vars",
        "The variables in hex, as many bytes as the image says; zeros where they are not given",
    ))?
    .arg(hex_bytes(
        alloc,
        "readings",
        "The device's readings in hex, 64 bytes at most; zeros after them",
    ))
}

// Defines an option with bytes in hex.
fn hex_bytes<'a>(alloc: Global, name: &'a str, help: &'a str) -> Arg<'a> {
    option(alloc, name, "HEX", help)
}

fn command<'a>(alloc: Global) -> Result<Command<'a>, AllocError> {
    Command::new(alloc, "fcasm")
        .version(VERSION)
        .about("Assemble, list, check, run and identify resource programs")
        .after_help(STATUSES)
        .subcommand_required(true)
        .subcommand(image_command(alloc)?)?
        .subcommand(Command::new(alloc, "expand").about(
            "Write a text as `image` assembles it: without labels, hexadecimal numbers, characters and texts",
        ))?
        .subcommand(list_command(alloc)?)?
        .subcommand(on_image(alloc, "check", "Say whether an image is accepted")?)?
        .subcommand(on_image(alloc, "digest", "Print the SHA-256 of an image, in hex")?)?
        .subcommand(run_command(alloc)?)
}

// Runs the command that the words name, and returns its status.
//
// If the words name no command, or ask for help, the status is that of `parse`. Returns an error if
// memory can't be allocated, or if a message can't be written.
fn obey<R: Runtime + AllocGlobal, E: Write>(
    rt: &R,
    err: &mut E,
    words: &[String],
) -> anyhow::Result<Status> {
    let alloc = rt.alloc();
    let matches = match parse(rt, command(alloc)?, words)? {
        Ok(matches) => matches,
        Err(status) => return Ok(status),
    };
    let mut input = BufReader::new(alloc, rt.reader())?;
    let mut out = BufWriter::new(alloc, io::writer(rt))?;
    carry_out(rt, &mut input, &mut out, err, &matches)
}

// Runs the command that the parsed command line names, and returns its status.
//
// The commands on images read the file that the command line names, or `input` if it names none or
// `-`. If the file can't be read, writes the reason to `err` and returns `Failed`. Returns an error
// if the reason can't be written.
fn carry_out<R: Runtime + AllocGlobal, I: Read, W: Write, E: Write>(
    rt: &R,
    input: &mut I,
    out: &mut W,
    err: &mut E,
    matches: &ArgMatches<'_>,
) -> anyhow::Result<Status> {
    let alloc = rt.alloc();
    match matches.subcommand() {
        Some(("image", numbers)) => Ok(write_image(alloc, input, out, err, numbers)),
        Some(("expand", _)) => Ok(expand(alloc, input, out, err)),
        Some((command, words)) => match words.get_str("image") {
            None | Some("-") => Ok(use_image(alloc, input, out, err, command, words)),
            Some(path) => match file_bytes(rt, path) {
                Ok(image) => {
                    Ok(use_image(alloc, &mut image.as_slice(), out, err, command, words))
                }
                Err(error) => {
                    writeln!(err, "{path}: {error}")?;
                    Ok(Status::Failed)
                }
            },
        },
        None => Ok(Status::Bad),
    }
}

// Runs a command on the image in `input`, and returns its status.
//
// Returns `Bad` if no command on images has this name.
fn use_image<I: Read, W: Write, E: Write>(
    alloc: Global,
    input: &mut I,
    out: &mut W,
    err: &mut E,
    command: &str,
    words: &ArgMatches<'_>,
) -> Status {
    match command {
        "list" => list(alloc, input, out, err, words.get_flag("slots")),
        "check" => check(alloc, input, out, err),
        "digest" => digest(alloc, input, out, err),
        "run" => match asked_by(alloc, words) {
            Ok(asked) => run(alloc, input, out, err, &asked),
            Err(error) => tell(err, &error, error.status()),
        },
        _ => Status::Bad,
    }
}

// Assembles `input` to an image with the command line's numbers, and writes the image to `out`.
//
// Returns `Bad` if one of the numbers is missing or malformed, and else the status of `image`.
fn write_image<R: Read, W: Write, E: Write>(
    alloc: Global,
    input: &mut R,
    out: &mut W,
    err: &mut E,
    numbers: &ArgMatches<'_>,
) -> Status {
    let version = version_named(numbers.get_str("format"));
    match (
        version,
        numbers.get_one::<u16>("vars"),
        numbers.get_str("budget"),
    ) {
        (Some(version), Some(vars), Some(budget)) => match budget.parse::<Budget>() {
            Ok(budget) => image(alloc, input, out, err, vars, budget, version),
            Err(error) => tell(err, &error, Status::Bad),
        },
        _ => Status::Bad,
    }
}

// Returns the request, variables and readings that the command line gives, or why they are refused.
fn asked_by(alloc: Global, words: &ArgMatches<'_>) -> Result<Asked, AskedError> {
    let method = match words.get_str("method") {
        Some("post") => Method::Post,
        _ => Method::Get,
    };
    let payload = words.get_str("payload").unwrap_or("");
    let query = words.get_str("query").unwrap_or("");
    let readings = words.get_str("readings").unwrap_or("");
    Asked::new(alloc, method, payload, query, words.get_str("vars"))?.with_readings(alloc, readings)
}

// Reads the image in the file at `path`, at most one byte more than the longest image. Returns an
// error if the file can't be opened or read, or if memory can't be allocated.
fn file_bytes<R: Runtime + AllocGlobal>(rt: &R, path: &str) -> io::Result<Vec<u8>> {
    let mut file = fs::open(rt, path)?;
    image_bytes(rt.alloc(), &mut file)
}

fn main(rt: HostRuntime) -> ExitCode {
    run_main(&rt, &mut rt.stderr(), |err, words| obey(&rt, err, words))
}
