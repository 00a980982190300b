//! The command line of `fcd`, and the help text of `fcd play`.
//!
//! A module that reads an option also makes it, with its help text, its range and its default.
use crate::options::serve_command;
use crate::policy::{confirm_after, exchanges, managers, share};
use clap::{Command, Error, value_parser};
use fc_cli::argument::option;
use fc_cli::command_line::VERSION;
use std::alloc::Global;

/// The `--help` text on the lines of `fcd play` and on its exit status.
pub const LINES: &str = "\
A line is `now peer hex`, parted by single spaces: the moment in milliseconds, the last
number of the peer's address 127.0.0.peer (0 to 255), and the datagram in hex digits.
A line `now - -` says that time passes, and `now dev hex`, with 128 digits, what programs read of
the device from then on. Each datagram that is sent is printed as `peer hex`. The line `0 1 40000001` is answered by `1 70000001`.

After each line observers are notified of changes, and notifications that weren't acknowledged
are sent again.

With `--workers W` the job of each line is worked off by one of W threads, before the next
line is read; without, by the one thread there is. What is printed is the same.

Exit status: 0 at the end of the input; 2 where a line or the command line is bad; 3 where
reading or writing failed, or memory was refused.";

/// Describes the command line of `fcd`.
///
/// # Errors
/// Returns an error if memory for the description can't be allocated.
pub fn command<'a>(alloc: Global) -> Result<Command<'a>, Error> {
    Ok(
        Command::new(alloc, "fcd")
            .version(VERSION)
            .about("A CoAP server whose resources are answered by small programs")
            .after_help(LINES)
            .subcommand_required(true)
            .subcommand(play_command(alloc)?)?
            .subcommand(serve_command(alloc)?)?,
    )
}

// Describes the command line of `fcd play`. Returns an error if memory can't be allocated.
fn play_command<'a>(alloc: Global) -> Result<Command<'a>, Error> {
    let workers = option(
        alloc,
        "workers",
        "W",
        "How many threads work jobs off: 1 to 16",
    )
    .value_parser(value_parser!(u8).range(1..17));
    Ok(
        Command::new(alloc, "play")
            .about("Play the lines of standard input")
            .after_help(LINES)
            .arg(workers)?
            .arg(managers(alloc))?
            .arg(exchanges(alloc))?
            .arg(share(alloc))?
            .arg(confirm_after(alloc))?,
    )
}
