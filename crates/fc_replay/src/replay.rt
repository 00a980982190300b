//! Replays of lists of events.
ghost use Rattle.std.specs.Prelude.{◌≡◌, ◌≤◌, flat_map, map, IfOk, IfSome, OnOk};
ghost use Rattle.std.specs.Io.KnownBytes.{Appends};
ghost use Rattle.fc_registry.specs.Shards.{AreShards};
ghost use Rattle.fc_server.specs.States.{CanBegin};
ghost use Rattle.fc_cli.specs.declared.status.Status.TheVariants.{Done};
ghost use Rattle.fc_replay.specs.Listed.{line_words};
ghost use Rattle.fc_replay.specs.Printed.{emitted_line};
ghost use Rattle.fc_replay.specs.Replayed.{AreEvents, AreReplayed, HasBeginning, IsFirstLine, IsReplayed, IsText, listed_lines, told_of_all};

use crate::parser::{ListedEvent, begin_in};
use crate::printer::{print_emitted, print_slot, slot_line};
use coap_msg::Emission;
use fc_cli::status::{Status, tell};
use fc_cli::stop::Stop;
use fc_lines::line::LineError;
use fc_registry::Shard;
use fc_server::{Begin, DEFAULT_BEGIN};
use fc_ticket::{SLOTS, SlotNumber};
use fc_world::{Event, run_world_from};
use std::alloc::{AllocError, Global};
use std::io::{Read, Write};

/// Replays a list of events, one a line, and prints the results.
///
/// The server begins with empty slots at serial 0. A first line `Begin serial=S id=I` gives another
/// serial, 0 to 2^63 - 1, and the first message ID that the server draws. The output has a line for
/// each event, the event's emission as `peer hex` or `none`. Then it has a line for each slot whose
/// serial is above 0. The result is:
///
/// - `Done` if everything is printed;
/// - `Bad` if a line is bad: `err` gets the line's number, counted from 1. No event is executed;
/// - `Failed` if reading or writing failed, or memory couldn't be allocated: `err` gets a message.
pub fn replay<R: Read, W: Write, E: Write>(
    alloc: Global,
    input: &mut R,
    out: &mut W,
    err: &mut E,
) -> Status
    ensures { result ≡ Done → IsReplayed (R.remaining input.old) (W.contents out.old) (W.contents out.new) }
{
    match replay_list(alloc, input, out) {
        Ok(()) => Status::Done,
        Err(stop) => tell(err, &stop, stop.status()),
    }
}

// Replays the list in `input`, and prints the results to `out`. Returns the reason if the replay
// stops before the end of the list.
fn replay_list<R: Read, W: Write>(alloc: Global, input: &mut R, out: &mut W) -> Result<(), Stop>
    ensures { OnOk result (IsReplayed (R.remaining input.old) (W.contents out.old) (W.contents out.new)) }
{
    let text = read_text(alloc, input)?;
    let (begin, rest) = begun(alloc, &text)?;
    if rest.is_empty() {
        return Ok(());
    }
    let before = u64::from(rest.len() < text.len());
    replay_lines(alloc, &begin, list_of(rest), before, out)?;
    out.flush()?;
    Ok(())
}

// Returns the server's initial state, and the text of the events. If the first line isn't an
// initial state, the state is the default one, and the events are all of `text`. Returns an error
// if memory can't be allocated.
fn begun(alloc: Global, text: &[u8]) -> Result<(Begin, &[u8]), AllocError>
    ensures begun { IfOk result (λ r. HasBeginning text.now r.0 r.1.now) }
    ensures can_begin { IfOk result (λ r. CanBegin r.0) }
{
    let (line, rest) = first_line(text);
    match begin_in(alloc, line)? {
        Some(begin) => Ok((begin, rest)),
        None => Ok((DEFAULT_BEGIN, text)),
    }
}

// Returns the first line of a text, without its line feed, and the text after the line feed.
// Without a line feed the first line is the whole text, and no text follows.
fn first_line(text: &[u8]) -> (&[u8], &[u8])
    ensures { IsFirstLine text.now result.0.now result.1.now }
{
    match text.iter().position(|byte| *byte == b'\n') {
        Some(at) => (&text[..at], &text[at + 1..]),
        None => (text, &[]),
    }
}

// Returns all bytes of a reader, or `Input` with the reader's error.
fn read_text<R: Read>(alloc: Global, input: &mut R) -> Result<Vec<u8>, Stop>
    ensures { IfOk result (λ text. IfSome (R.remaining input.old) (λ bytes. text.items ≡ bytes)) }
{
    let mut text = Vec::new(alloc);
    match input.read_to_end(&mut text) {
        Ok(_) => Ok(text),
        Err(error) => Err(Stop::Input(error)),
    }
}

// Returns the list of a text: the text without the line feed at its end, if there is one.
fn list_of(text: &[u8]) -> &[u8]
    ensures { IsText text.now result.now }
{
    match text {
        [list @ .., b'\n'] => list,
        _ => text,
    }
}

// Replays a list that follows `before` lines, and prints the results. Returns `BadLine` with the
// line's number if a line is bad; then no event is executed. Returns `Output` if printing fails,
// and `Memory` if memory can't be allocated.
fn replay_lines<W: Write>(
    alloc: Global,
    begin: &Begin,
    list: &[u8],
    before: u64,
    out: &mut W,
) -> Result<(), Stop>
    requires { CanBegin begin.now }
    ensures { OnOk result (AreReplayed begin.now list.now (W.contents out.old) (W.contents out.new)) }
{
    let lines = lines(alloc, list, before)?;
    let events = events(alloc, &lines, before)?;
    let world = run_world_from(alloc, begin, events.as_slice())?;
    print_emissions(out, world.emissions.as_slice())?;
    print_slots(alloc, out, world.shards.as_slice())?;
    Ok(())
}

// Prints a line for each event: its emission, or `none`. Returns `Output` if printing fails.
fn print_emissions<W: Write>(out: &mut W, emissions: &[Option<Emission>]) -> Result<(), Stop>
    ensures { OnOk result (Appends (W.contents out.old) (W.contents out.new) (flat_map emitted_line emissions.now)) }
{
    for emitted in emissions {
        print_emitted(out, emitted)?;
    }
    Ok(())
}

// Returns the lines of a list, each of which is an event. The list follows `before` lines. Returns
// `BadLine` with the number of the first line that is no event, or `Memory` if memory can't be
// allocated.
fn lines(alloc: Global, list: &[u8], before: u64) -> Result<Vec<ListedEvent<'_>>, Stop>
    ensures { IfOk result (λ v. map (λ l. l.words) v.items ≡ map line_words (listed_lines list.now)) }
{
    let mut lines = Vec::new(alloc);
    let mut number = before;
    for line in list.split(|byte| *byte == b'\n') {
        number = number.saturating_add(1);
        match ListedEvent::read(alloc, line) {
            Ok(line) => lines.push(line).map_err(AllocError::from)?,
            Err(LineError::Bad) => return Err(Stop::BadLine(number)),
            Err(LineError::NoMemory) => return Err(Stop::Memory(AllocError)),
        }
    }
    Ok(lines)
}

// Returns the event of each line. `lines` follow `before` other lines. Returns `BadLine` with the
// number of the first line that is no event, or `Memory` if memory can't be allocated.
fn events<'a>(
    alloc: Global,
    lines: &'a [ListedEvent<'_>],
    before: u64,
) -> Result<Vec<Event<'a>>, Stop>
    ensures { IfOk result (λ v. AreEvents (map (λ l. l.words) lines.entry.now) v.items) }
{
    let mut events = Vec::new(alloc);
    let mut number = before;
    for line in lines {
        number = number.saturating_add(1);
        match line.event() {
            Some(event) => events.push(event).map_err(AllocError::from)?,
            None => return Err(Stop::BadLine(number)),
        }
    }
    Ok(events)
}

// Prints each slot whose serial is above 0, in the order of the slots' numbers. Returns `Output` if
// printing fails, or `Memory` if memory for a slot's digits can't be allocated.
fn print_slots<W: Write>(alloc: Global, out: &mut W, shards: &[Shard]) -> Result<(), Stop>
    requires { AreShards shards.now }
    ensures { OnOk result (Appends (W.contents out.old) (W.contents out.new) (told_of_all shards.now)) }
{
    for number in 0..SLOTS {
        let slot = SlotNumber::new(number);
        let shard = &shards[slot.shard()];
        print_slot(alloc, out, number, slot_line(shard, slot))?;
    }
    Ok(())
}
