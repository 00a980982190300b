//! The option `--log` of `fcd serve`, and its values.
//!
//! Each value is `off`, `info`, `changes` or `report:SECONDS`. There can be any number of values.
ghost use Rattle.std.specs.Prelude.{◌≡◌, IfSome, None, map};
ghost use Rattle.std.specs.List.{list_any};
ghost use Rattle.std.specs.Str.{bytes_eq};
ghost use Rattle.clap.specs.Matches.{found_of};
ghost use Rattle.fc_config.specs.Logs.{ArePeriods, AreLogsIn, IsPeriodAfter, IsReportText, has_text, log_texts};

use clap::{Arg, ArgAction, ArgMatches};
use fc_cli::argument::option;
use fc_lines::line::number;
use std::alloc::Global;

/// The longest period of reports, in seconds; it is a day.
pub const LONGEST_REPORT: u64 = 86_400;

/// The records that a server logs.
#[derive(Clone, Copy, Debug, PartialEq, Eq)]
pub struct LogOptions {
    /// The listening address, and, at the server's end, the number of replies sent.
    pub info: bool,
    /// Each request to change a program, if a job answers the request.
    pub changes: bool,
    /// The period of reports of the counts, in milliseconds, or `None` for no reports.
    pub report: Option<u64>,
}

// Makes `--log`, the option for the records that the server logs, by default none.
pub(crate) fn log<'a>(alloc: Global) -> Arg<'a> {
    option(
        alloc,
        "log",
        "L",
        "What it logs: off, info, changes or report:SECONDS; may be repeated",
    )
    .action(ArgAction::Append)
    .default_value("off")
}

/// Reads the values of `--log`.
///
/// Of several values `report:SECONDS`, the last one counts. Returns `None` if a value is none of
/// `off`, `info`, `changes` and `report:SECONDS`, or if the seconds aren't 1 to 86,400.
pub(crate) fn logs_in(matches: &ArgMatches<'_>) -> Option<LogOptions>
    ensures { IfSome result (AreLogsIn (found_of matches.now)) }
{
    Some(LogOptions {
        info: is_logged(matches, "info"),
        changes: is_logged(matches, "changes"),
        report: period_in(matches)?,
    })
}

// Reads the period of reports, in milliseconds. Returns `Some(None)` if no value gives a period.
// Returns `None` if a value of `--log` is refused, as by `logs_in`.
fn period_in(matches: &ArgMatches<'_>) -> Option<Option<u64>>
    ensures { IfSome result (ArePeriods (log_texts (found_of matches.now)) None) }
{
    match matches.get_strs("log") {
        Some(texts) => period_among(texts),
        None => Some(None),
    }
}

// Returns the period of the last text `report:SECONDS`, in milliseconds. Returns `Some(None)` if no
// text gives a period, and `None` if a text is refused.
fn period_among(texts: &[&str]) -> Option<Option<u64>>
    ensures { IfSome result (ArePeriods (map (λ text. text.now) texts.now) None) }
{
    let mut period = None;
    for text in texts {
        period = period_after(text, period)?;
    }
    Some(period)
}

// Returns the period that the text gives, or `period` if the text is `off`, `info` or `changes`.
// Returns `None` if the text is refused.
fn period_after(text: &str, period: Option<u64>) -> Option<Option<u64>>
    ensures { IfSome result (IsPeriodAfter text.now period) }
{
    match text {
        "off" | "info" | "changes" => Some(period),
        _ => Some(Some(report_period(text)?)),
    }
}

// Reads the period of reports in milliseconds, from a text such as `report:60`. Returns `None` if
// the text has another form, or its seconds aren't 1 to 86,400.
fn report_period(text: &str) -> Option<u64>
    ensures { IfSome result (IsReportText text.now) }
{
    let (word, seconds) = text.split_once(':')?;
    let seconds = number(seconds.as_bytes())?;
    if word != "report" || seconds == 0 || seconds > LONGEST_REPORT {
        return None;
    }
    Some(1_000 * seconds)
}

// Returns whether `--log` has this value.
#[tactic(auto, using(crate::proofs::Among::any_map))]
fn is_logged(matches: &ArgMatches<'_>, value: &str) -> bool
    ensures { result ≡ has_text (log_texts (found_of matches.now)) value.now }
{
    match matches.get_strs("log") {
        Some(texts) => is_among(texts, value),
        None => false,
    }
}

// Returns whether `value` is one of `texts`.
fn is_among(texts: &[&str], value: &str) -> bool
    ensures { result ≡ list_any (λ text. bytes_eq text.now value.now) texts.now }
{
    texts.iter().any(|text| is_text(text, value))
}

// Returns whether two texts are equal.
fn is_text(text: &str, value: &str) -> bool
    ensures { result ≡ bytes_eq text.now value.now }
{
    text == value
}
