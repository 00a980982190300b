//! The timers of `fcd serve --every`: `1000:7` runs the program of slot 7 each second.
ghost use Rattle.std.specs.Prelude.{IfErr, IfOk, MatchOption, MatchResult, codes, map};
ghost use Rattle.clap.specs.Matches.{found_of};
ghost use Rattle.fc_config.specs.Every.{AreRefusedBy, AreTimers, IsNoTimerText, IsRefusedBy, IsTimerText, Pushes, texts_of};

use clap::{Arg, ArgAction, ArgMatches};
use fc_cli::argument::option;
use fc_host::timer::{Period, Timer};
use fc_lines::line::{byte, number};
use fc_ticket::{SLOTS, SlotNumber};
use std::alloc::{AllocError, Global};
use thiserror::Error;

/// The longest period in milliseconds: a day.
pub const LONGEST: u64 = 86_400_000;

/// The reason why `--every` gives no timers.
#[derive(Debug, Drop, Error)]
pub enum BadTimer {
    /// A value isn't a period and a slot.
    #[error("error: `--every` takes a period of 1 to 86400000 ms and a slot of 0 to 63, for example 1000:7")]
    Form,
    /// Memory for the timers couldn't be allocated.
    #[error("{0}")]
    Memory(#[from] AllocError),
}

// Makes `--every`, the option for a timer, which may be repeated.
pub(crate) fn every<'a>(alloc: Global) -> Arg<'a> {
    option(
        alloc,
        "every",
        "MS:N",
        "Runs the program of slot N each MS milliseconds; may be repeated",
    )
    .action(ArgAction::Append)
}

/// Reads the timers that the options of `fcd serve` give.
///
/// There are none if `--every` isn't given.
///
/// # Errors
/// Returns the error of the first value that is refused:
///
/// - `Form`: it is no period of 1 to 86,400,000 ms, a colon, and a slot of 0 to 63.
/// - `Memory`: memory for the timers can't be allocated.
pub fn timers_in(alloc: Global, matches: &ArgMatches<'_>) -> Result<Vec<Timer>, BadTimer>
    ensures timers { IfOk result (λ v. AreTimers (texts_of (found_of matches.now)) v.items) }
    ensures refused { IfErr result (AreRefusedBy (texts_of (found_of matches.now))) }
{
    match matches.get_strs("every") {
        Some(texts) => timers_of(alloc, texts),
        None => Ok(Vec::new(alloc)),
    }
}

// Reads the timers of `texts`. Returns the error of the first text that is refused: `Form` if it
// gives no timer, or `Memory` if memory can't be allocated.
fn timers_of(alloc: Global, texts: &[&str]) -> Result<Vec<Timer>, BadTimer>
    ensures timers { IfOk result (λ v. AreTimers (map (λ text. text.now) texts.now) v.items) }
    ensures refused { IfErr result (AreRefusedBy (map (λ text. text.now) texts.now)) }
{
    let mut timers = Vec::new(alloc);
    for text in texts {
        push_timer(text, &mut timers)?;
    }
    Ok(timers)
}

// Reads the timer of `text`, and adds it to `timers`. Returns `Form` if the text gives no timer, or
// `Memory` if memory can't be allocated.
fn push_timer(text: &str, timers: &mut Vec<Timer>) -> Result<(), BadTimer>
    ensures { MatchResult result (λ done. Pushes text.now timers.old.items timers.new.items) (IsRefusedBy text.now) }
{
    let timer = timer_of(text).ok_or(BadTimer::Form)?;
    match timers.push(timer) {
        Ok(()) => Ok(()),
        Err(refused) => Err(BadTimer::Memory(AllocError::from(refused))),
    }
}

// Reads a timer, such as `1000:7`. Returns `None` if the text isn't a period and a slot in their
// ranges.
fn timer_of(text: &str) -> Option<Timer>
    ensures { MatchOption result (IsNoTimerText text.now) (IsTimerText text.now) }
{
    let (period, slot) = text.split_once(':')?;
    let every = number(period.as_bytes())?;
    let slot = byte(slot.as_bytes())?;
    if every > LONGEST || slot >= SLOTS {
        return None;
    }
    Some(Timer::new(Period::new(every)?, SlotNumber::new(slot)))
}
