//! The options that give the policy of `fcd play` and `fcd serve`.
ghost use Rattle.std.specs.Prelude.{MatchOption};
ghost use Rattle.clap.specs.Matches.{first_value, found_of};
ghost use Rattle.fc_config.specs.Policies.{IsNoPolicyIn, IsNoValueOr, IsPolicyIn, IsValueOr};

use clap::{Arg, ArgAction, ArgMatches, value_parser};
use coap_dedup::{EXCHANGES, MOST_EXCHANGES};
use fc_cli::argument::option;
use fc_front::Policy;
use fc_lines::line::number;
use fc_lines::policy::{DEFAULT_SECONDS, policy};
use std::alloc::Global;

// Makes `--managers`, the option for the networks that may change programs, by default all.
pub(crate) fn managers<'a>(alloc: Global) -> Arg<'a> {
    option(
        alloc,
        "managers",
        "A.B.C.D/BITS",
        "Addresses that may upload and remove programs; up to four times",
    )
    .action(ArgAction::Append)
    .default_value("0.0.0.0/0")
}

// Makes `--exchanges`, the option for the maximum number of stored exchanges, by default 1,024.
pub(crate) fn exchanges<'a>(alloc: Global) -> Arg<'a> {
    option(
        alloc,
        "exchanges",
        "N",
        "How many requests are remembered for 247 s: 1 to 65536",
    )
    .value_parser(value_parser!(u32).range(1..65_537))
    .default_value("1024")
}

// Makes `--share`, the option for the maximum number of stored exchanges of one IP address.
pub(crate) fn share<'a>(alloc: Global) -> Arg<'a> {
    option(
        alloc,
        "share",
        "N",
        "How many of these may be of one address: 1 to 65536",
    )
    .value_parser(value_parser!(u32).range(1..65_537))
}

// Makes `--confirm-after`, the option for the seconds after which a notification is confirmable.
pub(crate) fn confirm_after<'a>(alloc: Global) -> Arg<'a> {
    option(
        alloc,
        "confirm-after",
        "SECONDS",
        "After how many seconds a notification is confirmable: 1 to 86400, the default",
    )
    .value_parser(value_parser!(u32).range(1..86_401))
}

/// Returns the policy that the options give, or `None` if they give none.
///
/// The result is `None` exactly in these cases:
///
/// - `--managers` has no value, a value that isn't a network, or more than four values.
/// - `--exchanges` isn't 1 to 65,536.
/// - `--share` is 0.
/// - `--confirm-after` isn't 1 to 86,400.
/// - `--exchanges`, `--share` or `--confirm-after` isn't a number below 2^64.
pub fn policy_in(matches: &ArgMatches<'_>) -> Option<Policy>
    ensures { let found = found_of matches.now in MatchOption result (IsNoPolicyIn found) (IsPolicyIn found) }
{
    policy(
        matches.get_strs("managers")?,
        value(matches, "exchanges", EXCHANGES as u64)? as usize,
        value(matches, "share", MOST_EXCHANGES as u64)? as usize,
        value(matches, "confirm-after", DEFAULT_SECONDS)?,
    )
}

// Returns the number of an option, or `default` if the option isn't given. Returns `None` if the
// option's value isn't a number below 2^64.
fn value(matches: &ArgMatches<'_>, name: &str, default: u64) -> Option<u64>
    ensures { let text = first_value (found_of matches.now) name.now in
        MatchOption result (IsNoValueOr text) (IsValueOr default text) }
{
    match matches.get_str(name) {
        Some(text) => number(text.as_bytes()),
        None => Some(default),
    }
}
