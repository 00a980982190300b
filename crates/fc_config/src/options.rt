//! The options of `fcd serve`: their help texts and defaults, and the configuration that they give.
ghost use Rattle.std.specs.Prelude.{◌≡◌, ℕ, IfOk, IfSome, List, Some, codes};
ghost use Rattle.std.specs.Net.Grammar.{IsIpv4Text};
ghost use Rattle.clap.specs.Matches.{first_value, found_of};
ghost use Rattle.fc_config.specs.Options.{HasNumber, IsServeConfig};

use crate::every::every;
use crate::logging::{LogOptions, log, logs_in};
use crate::policy::{confirm_after, exchanges, managers, policy_in, share};
use clap::{Arg, ArgMatches, Command, Error, value_parser};
use fc_cli::argument::option;
use fc_front::Policy;
use fc_lines::line::number;
use std::alloc::Global;
use std::net::{Ipv4Addr, SocketAddrV4};
use thiserror::Error;

/// The `--help` text of `fcd serve`, with its exit status.
pub const SERVING: &str = "\
The server speaks CoAP on UDP, at 127.0.0.1, so that this host alone reaches it, or at the
address that `--bind` names; 0.0.0.0 is each of this host's. Whoever reaches it may upload
programs and remove them.

`--every MS:N` runs the program of slot N each MS milliseconds, as for a POST without a payload
whose response nobody gets: it can look at the readings and notify its observers. A beat that was
missed isn't made up for, and one at which the last run is still at a worker is skipped.

One thread receives datagrams, and runs the programs that take less than 6,000 steps; W others
run those that may take more. With `--workers 1` and without `--store` there are no others: the
one thread runs all. After each datagram observers are notified. Programs of the second version
read the milliseconds since the start, in eight bytes, the least first, and behind these 56 bytes
of the file of `--readings`, which is read again before a run; zeros where there are none.

With `--store FILE` the server saves each change of a slot to FILE, an SQLite database, before
the change is made and answered; the next start restores programs and variables from FILE. If a
save is refused, its change is refused too, with 5.03.

After N datagrams the server ends, where N isn't 0. With `--log info` standard error gets
`listening on ADDRESS:PORT` once it receives, and at its end `sent S failed F`, how many replies
went out and how many didn't. With `--log changes` it gets a line for each request to install or
remove a program that reaches its slot, with the sender, the response and the image's SHA-256.
With `--log report:60` it gets a line each minute, 1 to 86400 seconds, with counts since the start:
the datagrams received, the immediate responses with 4.03 and with 5.03, the notifications, those
sent again, the observers removed for silence, and the datagrams that couldn't be sent.

  fcd serve --port 5683
  fcd serve --port 5683 --bind 0.0.0.0 --log info
  fcd serve --port 5683 --store slots.db

Exit status: 0 after N datagrams; 2 where the command line is bad; 3 where the port couldn't
be had, FILE isn't a store that can be opened, or memory was refused at the start.";

/// The extent of a server.
///
/// It has the number of workers, 1 to 16, and the number of datagrams after which the server ends;
/// 0 is never.
#[derive(Clone, Copy)]
pub struct Extent {
    pub workers: u8,
    pub limit: u32,
}

/// Two workers and no limit, as the defaults of `--workers` and `--limit`.
pub const DEFAULT_EXTENT: Extent = Extent {
    workers: 2,
    limit: 0,
};

/// The listening address of a server, and whether the server reports it.
#[derive(Clone, Copy)]
pub struct Listening {
    pub address: SocketAddrV4,
    pub told: bool,
}

/// The configuration of `fcd serve`, without the timers.
///
/// `readings` is the path of the sensor file, and `store` that of the store of slots. The server
/// reports its listening address if `logs` has `info`.
#[derive(Clone, Copy)]
pub struct ServeConfig<'a> {
    pub listening: Listening,
    pub extent: Extent,
    pub policy: Policy,
    pub readings: Option<&'a str>,
    pub store: Option<&'a str>,
    pub logs: LogOptions,
}

/// The reason why the options of `fcd serve` are refused.
#[derive(Clone, Copy, Debug, Error)]
pub enum BadOption {
    /// The value of `--bind` isn't an address.
    #[error("error: `--bind` is to be an IPv4 address, as 127.0.0.1")]
    Bind,
    /// A value of `--managers` isn't a network, or there are more than four values.
    ///
    /// `Managers` is also the reason if `--exchanges`, `--share` or `--confirm-after` is out of its
    /// range. The command line's parser refuses such a number earlier.
    #[error("error: `--managers` takes an address and a number of bits, for example 192.0.2.0/24, at most four times")]
    Managers,
    /// A value of `--log` names no record, or its seconds aren't 1 to 86,400.
    #[error("error: `--log` takes off, info, changes, or report: and 1 to 86400 seconds, for example report:60")]
    Log,
    /// An option is missing, or its value isn't a number in its range.
    ///
    /// The command line's parser refuses both earlier.
    #[error("error: `{0}` takes a number")]
    Number(&'static str),
}

impl<'a> ServeConfig<'a> {
    /// Reads the options of `fcd serve`.
    ///
    /// # Errors
    /// Returns the first of these reasons that applies:
    ///
    /// - `Bind` if `--bind` isn't an IPv4 address.
    /// - `Number` if `--port` isn't given or isn't a number below 2^16.
    /// - `Log` if a value of `--log` names no record, or its seconds aren't 1 to 86,400.
    /// - `Number` if `--workers` isn't given or isn't a number below 2^8.
    /// - `Number` if `--limit` isn't given or isn't a number below 2^32.
    /// - `Managers` if the options give no policy (see [`policy_in`]).
    pub fn from_matches(matches: &ArgMatches<'a>) -> Result<ServeConfig<'a>, BadOption>
        ensures { IfOk result (IsServeConfig (found_of matches.now)) }
    {
        let ip = address_in(matches).ok_or(BadOption::Bind)?;
        let port = port_in(matches).ok_or(BadOption::Number("--port"))?;
        let logs = logs_in(matches).ok_or(BadOption::Log)?;
        Ok(ServeConfig {
            listening: Listening {
                address: SocketAddrV4::new(ip, port),
                told: logs.info,
            },
            extent: Extent {
                workers: workers_in(matches).ok_or(BadOption::Number("--workers"))?,
                limit: limit_in(matches).ok_or(BadOption::Number("--limit"))?,
            },
            policy: policy_in(matches).ok_or(BadOption::Managers)?,
            readings: matches.get_str("readings"),
            store: matches.get_str("store"),
            logs,
        })
    }
}

// Describes the command line of `fcd serve`. Returns an error if memory can't be allocated.
pub(crate) fn serve_command<'a>(alloc: Global) -> Result<Command<'a>, Error> {
    Ok(
        Command::new(alloc, "serve")
            .about("Serve on UDP")
            .after_help(SERVING)
            .arg(port(alloc))?
            .arg(bind(alloc))?
            .arg(expensive_workers(alloc))?
            .arg(managers(alloc))?
            .arg(exchanges(alloc))?
            .arg(share(alloc))?
            .arg(confirm_after(alloc))?
            .arg(readings(alloc))?
            .arg(store(alloc))?
            .arg(every(alloc))?
            .arg(limit(alloc))?
            .arg(log(alloc))?,
    )
}

// Makes `--port`, the option for the server's port, which is required.
fn port<'a>(alloc: Global) -> Arg<'a> {
    option(alloc, "port", "P", "The port, 1 to 65535")
        .required(true)
        .value_parser(value_parser!(u16).range(1..))
}

// Makes `--bind`, the option for the server's address, by default 127.0.0.1.
fn bind<'a>(alloc: Global) -> Arg<'a> {
    option(
        alloc,
        "bind",
        "A.B.C.D",
        "The IPv4 address of this host that it listens at",
    )
    .default_value("127.0.0.1")
}

// Makes the option for the number of workers of `fcd serve`. They run expensive jobs only: long
// programs, and, with `--store`, changes that are saved.
fn expensive_workers<'a>(alloc: Global) -> Arg<'a> {
    option(
        alloc,
        "workers",
        "W",
        "How many threads run long programs, and save changes with `--store`: 1 to 16",
    )
    .value_parser(value_parser!(u8).range(1..17))
    .default_value("2")
}

// Makes `--readings`, the option for the path of the sensor file.
fn readings<'a>(alloc: Global) -> Arg<'a> {
    option(
        alloc,
        "readings",
        "FILE",
        "What programs read behind the clock: the file's first 56 bytes",
    )
}

// Makes `--store`, the option for the path of the store of slots.
fn store<'a>(alloc: Global) -> Arg<'a> {
    option(
        alloc,
        "store",
        "FILE",
        "Where changes of slots are saved; without it they are lost when the server ends",
    )
}

// Makes `--limit`, the option for the number of datagrams, by default 0, which is no limit.
fn limit<'a>(alloc: Global) -> Arg<'a> {
    option(
        alloc,
        "limit",
        "N",
        "After how many datagrams it ends; 0 is never",
    )
    .value_parser(value_parser!(u32))
    .default_value("0")
}

// Returns the address of `--bind`, or `None` if its value isn't an IPv4 address.
fn address_in(matches: &ArgMatches<'_>) -> Option<Ipv4Addr>
    ensures { IfSome result (λ ip. (text : List ℕ) × (first_value (found_of matches.now) (codes "bind") ≡ Some text) × IsIpv4Text text ip) }
{
    matches.get_str("bind")?.parse::<Ipv4Addr>().ok()
}

// Returns the number of `--port`, or `None` if it isn't given or isn't a number below 2^16.
fn port_in(matches: &ArgMatches<'_>) -> Option<u16>
    ensures { IfSome result (HasNumber (first_value (found_of matches.now) (codes "port"))) }
{
    u16::try_from(number_in(matches, "port")?).ok()
}

// Returns the number of `--workers`, or `None` if it isn't given or isn't a number below 2^8.
fn workers_in(matches: &ArgMatches<'_>) -> Option<u8>
    ensures { IfSome result (HasNumber (first_value (found_of matches.now) (codes "workers"))) }
{
    u8::try_from(number_in(matches, "workers")?).ok()
}

// Returns the number of `--limit`, or `None` if it isn't given or isn't a number below 2^32.
fn limit_in(matches: &ArgMatches<'_>) -> Option<u32>
    ensures { IfSome result (HasNumber (first_value (found_of matches.now) (codes "limit"))) }
{
    u32::try_from(number_in(matches, "limit")?).ok()
}

// Returns the number of an option, or `None` if it isn't given or isn't a number below 2^64.
fn number_in(matches: &ArgMatches<'_>, name: &str) -> Option<u64>
    ensures { IfSome result (HasNumber (first_value (found_of matches.now) name.now)) }
{
    number(matches.get_str(name)?.as_bytes())
}
