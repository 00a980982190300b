//! The client's `main`, which parses the command line and runs its operation.
#![tactic(auto)]

use clap::{Arg, Command, Error, value_parser};
use fc_cli::Status;
use fc_cli::argument::{flag, option, positional};
use fc_cli::command_line::{VERSION, parse, run_main};
use fc_fetch::asking::ask_by;
use fc_fetch::operation::{OBSERVE, Operation, PING, operation_of};
use fc_fetch::ping::ping;
use fc_fetch::{Asking, Console, Observing, System, observe};
use std::alloc::Global;
use std::fs::File;
use std::io;
use std::io::{BufWriter, IsTerminal, Write};
use std::net::Net;
use std::process::ExitCode;
use std::random::RandomSource;
use std::rt::Runtime;

/// The help on requests, output and exit statuses.
const ASKING: &str = "\
TARGET is a path, a slash before each of its segments of 1 to 255 bytes, at `--port P` of
127.0.0.1; or a URI, coap://HOST:PORT/path?query, whose host is an IPv4 address or localhost, and
whose port is 5683 where it says none. A path may have a query, /r/1?a=1&b; in it `%` stands for
itself. The request's body is read from standard input to its end, but for a GET or a DELETE if
standard input is a terminal; or it is TEXT or FILE, or with `-n` there is none. Printed are the
answer's code and, where it has bytes, these in hex on a line of their own.

  fcreq --port 5683 put /p/1 -f program.img
  fcreq --text -n get coap://127.0.0.1:5683/.well-known/core
  fcreq -e 20 -t text/plain post 'coap://127.0.0.1/r/1?unit=C'

A request is sent again after 2, 4, 8 and 16 seconds without an answer, and given up after 32
more. Where the server acknowledges it and answers later, the answer is waited for 93 seconds. The
body of a PUT goes in blocks where it has more than 1,024 bytes, and so does an answer; where the
server names a smaller size, in blocks of that.

`ping` asks whether a server is there: coap://HOST:PORT, or `--port P` of 127.0.0.1, or port 5683.
It prints nothing, and ends with 0 where the server answers.

  fcreq ping coap://127.0.0.1:5683

`observe` prints what a GET is answered, and then each newer state that it is notified of, in a
line: the code, a space and the bytes, with `--text` as text where that has no line feed. A state
of several blocks is fetched; where that fails, standard error says why. It reads no body. It ends
after N lines, or S seconds after the first answer, and deregisters.

  fcreq --text --count 3 observe coap://127.0.0.1/r/1

Exit status: 0 where the code is of class 2; 1 where it is another, or the server notifies no
more; 2 where the command line is bad, or the request has no room in a datagram; 3 where no answer
came, or one with a critical option that isn't known, or blocks that don't fit; nobody listens at
the port, the socket, reading or writing failed, or memory was refused.";

/// A file to open in place of a closed standard stream.
const NULL: &str = "/dev/null";

// Defines the command line. `operation_of` reads its options by the names given here. Returns an
// error if memory can't be allocated.
fn command<'a>(alloc: Global) -> Result<Command<'a>, Error> {
    let method = positional(
        alloc,
        "method",
        "METHOD",
        "What is asked; or `observe`, for a GET and the changes behind it; or `ping`",
    )
    .required(true)
    .value_parser(["get", "post", "put", "delete", OBSERVE, PING].as_slice());
    let target = positional(
        alloc,
        "target",
        "TARGET",
        "Of which resource: /r/1, or coap://127.0.0.1:5683/r/1; `ping` needs none",
    );
    Ok(
        Command::new(alloc, "fcreq")
            .version(VERSION)
            .about("Ask a CoAP server")
            .after_help(ASKING)
            .arg(port(alloc))?
            .arg(flag(
                alloc,
                "non",
                "Ask by a non-confirmable request: once, and wait 32 seconds",
            )
            .short('N'))?
            .arg(flag(
                alloc,
                "text",
                "Print the answer's bytes as text, where they are text",
            ))?
            .arg(flag(alloc, "no-body", "Send no body, and read nothing").short('n'))?
            .arg(option(alloc, "body", "TEXT", "Send this text as the body").short('e'))?
            .arg(option(
                alloc,
                "file",
                "FILE",
                "Read the request's body from this file",
            )
            .short('f'))?
            .arg(option(
                alloc,
                "format",
                "FORMAT",
                "The body's Content-Format: a number, or a name as text/plain",
            )
            .short('t'))?
            .arg(option(
                alloc,
                "output",
                "FILE",
                "Write the bytes of a success to this file, and print its code alone",
            )
            .short('o'))?
            .arg(limit(
                alloc,
                "count",
                "N",
                "With `observe`: after how many lines it ends",
            ))?
            .arg(limit(
                alloc,
                "seconds",
                "S",
                "With `observe`: how many seconds after the first answer it ends",
            ))?
            .arg(method)?
            .arg(target)?,
    )
}

// Defines the option `--port`.
fn port<'a>(alloc: Global) -> Arg<'a> {
    option(
        alloc,
        "port",
        "P",
        "The port of the server at 127.0.0.1, 1 to 65535: with a path",
    )
    .value_parser(value_parser!(u16).range(1..))
}

// Defines a limit of an observation, of at least 1.
fn limit<'a>(alloc: Global, name: &'a str, value: &'a str, help: &'a str) -> Arg<'a> {
    option(alloc, name, value, help).value_parser(value_parser!(u32).range(1..))
}

// Runs the operation that the words name, and returns its status. `terminal` says whether standard
// input is a terminal. If the words don't match the command line, the status is that of `parse`. If
// the operation is refused, the reason is written to `err`, and the status is `Bad`. Returns an
// error if memory can't be allocated, if a message can't be written, or if `observe_by` fails.
fn obey<R: Runtime + AllocGlobal + Net + RandomSource, E: Write>(
    rt: &R,
    err: &mut E,
    terminal: bool,
    words: &[String],
) -> anyhow::Result<Status> {
    let matches = match parse(rt, command(rt.alloc())?, words)? {
        Ok(matches) => matches,
        Err(status) => return Ok(status),
    };
    match operation_of(&matches) {
        Ok(Operation::Fetch(asking)) => ask(rt, err, &asking.at_terminal(terminal)),
        Ok(Operation::Observe(observing)) => observe_by(rt, err, &observing),
        Ok(Operation::Ping(pinging)) => Ok(ping(rt, rt.alloc(), err, &pinging)),
        Err(why) => {
            writeln!(err, "error: {why}")?;
            Ok(Status::Bad)
        }
    }
}

// Sends the request of the command line, prints or stores the response, and returns the status.
// Returns an error if memory can't be allocated for the output's buffer.
fn ask<R: Runtime + AllocGlobal + Net + RandomSource, E: Write>(
    rt: &R,
    err: &mut E,
    asking: &Asking<'_>,
) -> anyhow::Result<Status> {
    let alloc = rt.alloc();
    let mut console = Console {
        alloc,
        out: BufWriter::new(alloc, io::writer(rt))?,
        err,
    };
    let mut input = rt.reader();
    Ok(ask_by(&System { rt }, rt, &mut input, &mut console, asking))
}

// Observes the target of the command line, and returns the status. The socket is open while lines
// are printed. Three files are opened before it, so that they, and not the socket, get the
// descriptors of standard streams that are closed. Returns an error if a file can't be opened, or
// if memory can't be allocated for the output's buffer.
fn observe_by<R: Runtime + AllocGlobal + Net + RandomSource, E: Write>(
    rt: &R,
    err: &mut E,
    observing: &Observing<'_>,
) -> anyhow::Result<Status> {
    let alloc = rt.alloc();
    let mut console = Console {
        alloc,
        out: BufWriter::new(alloc, io::writer(rt))?,
        err,
    };
    let _first = File::open(rt, NULL)?;
    let _second = File::open(rt, NULL)?;
    let _third = File::open(rt, NULL)?;
    Ok(observe(rt, &mut console, observing))
}

fn main(rt: HostRuntime) -> ExitCode {
    let terminal = rt.stdin().is_terminal();
    run_main(
        &rt,
        &mut rt.stderr(),
        |err, words| obey(&rt, err, terminal, words),
    )
}
