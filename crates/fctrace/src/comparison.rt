//! The replay of a trace, and its comparison with what the pool emitted.
use crate::call_trace::CallTrace;
use crate::traced_pool::{BEGIN_LINE, Traced};
use fc_cli::Status;
use fc_cli::stop::Stop;
use fc_replay::printer::{print_slot, slot_line};
use fc_replay::replay::replay;
use fc_ticket::{SLOTS, SlotNumber};
use std::alloc::{AllocError, Global};

/// What the replay of a trace found.
#[derive(Drop)]
pub(crate) struct Outcome {
    /// The list of events.
    pub(crate) events: Vec<u8>,
    /// The number of conflicts that the workers counted.
    pub(crate) conflicts: u64,
    /// The number of lines that the replay has to print.
    pub(crate) lines: usize,
    /// The number of printed lines that aren't the expected ones.
    pub(crate) differing: u64,
    /// The same for the control: a list of events with two commits swapped.
    pub(crate) control: u64,
}

/// Replays a trace and the control, and compares the output with what the pool emitted.
///
/// # Errors
/// Returns `BadLine` if the trace isn't whole, or a list can't be replayed, and `Memory` if memory
/// can't be allocated.
pub(crate) fn outcome_of(alloc: Global, traced: &Traced) -> Result<Outcome, Stop> {
    if traced.trace.is_broken {
        return Err(Stop::BadLine(0));
    }
    let events = listed_events(alloc, &traced.trace)?;
    let output = expected_output(alloc, traced)?;
    let (differing, control) = compared(alloc, &events, &output)?;
    Ok(Outcome {
        events,
        conflicts: traced.conflicts,
        lines: output.iter().filter(|byte| **byte == b'\n').count(),
        differing,
        control,
    })
}

impl Outcome {
    /// Returns the number of events with a name.
    pub(crate) fn count(&self, name: &str) -> usize {
        self.events
            .split(|byte| *byte == b'\n')
            .filter(|line| line.starts_with(name.as_bytes()))
            .count()
    }
}

// Returns the list of events of a trace. Returns `AllocError` if memory can't be allocated.
fn listed_events(alloc: Global, trace: &CallTrace) -> Result<Vec<u8>, AllocError> {
    let mut events = Vec::new(alloc);
    events.extend_from_slice(BEGIN_LINE)?;
    events.extend_from_slice(&trace.events)?;
    Ok(events)
}

// Returns the lines that the replay has to print: the emissions, and the slots of the pool's
// shards. Returns an error if memory can't be allocated.
fn expected_output(alloc: Global, traced: &Traced) -> Result<Vec<u8>, Stop> {
    let mut output = Vec::new(alloc);
    output
        .extend_from_slice(&traced.trace.emissions)
        .map_err(AllocError::from)?;
    for number in 0..SLOTS {
        let slot = SlotNumber::new(number);
        let shard = &traced.closed.shards[slot.shard()];
        print_slot(alloc, &mut output, number, slot_line(shard, slot))?;
    }
    Ok(output)
}

// Replays a list of events and the control. Returns how many lines of each replay aren't the
// expected ones. Returns `BadLine` if a list can't be replayed, and `Memory` if memory can't be
// allocated.
fn compared(alloc: Global, events: &[u8], expected: &[u8]) -> Result<(u64, u64), Stop> {
    let differing = differences(alloc, events, expected)?;
    let swapped = with_swapped_commits(alloc, events)?;
    let control = differences(alloc, &swapped, expected)?;
    Ok((differing, control))
}

// Replays a list of events, and returns how many lines of the output aren't the expected ones.
// Returns `BadLine` if the list can't be replayed.
fn differences(alloc: Global, events: &[u8], expected: &[u8]) -> Result<u64, Stop> {
    let mut input = events;
    let mut output = Vec::new(alloc);
    let mut errors = Vec::new(alloc);
    match replay(alloc, &mut input, &mut output, &mut errors) {
        Status::Done => Ok(differing_lines(&output, expected)),
        _ => Err(Stop::BadLine(0)),
    }
}

// Returns the number of lines of a text that differ from those of another one.
fn differing_lines(text: &[u8], other: &[u8]) -> u64 {
    let mut others = other.split(|byte| *byte == b'\n');
    let mut count = 0u64;
    for line in text.split(|byte| *byte == b'\n') {
        if others.next() != Some(line) {
            count = count.saturating_add(1);
        }
    }
    if others.next().is_some() {
        count = count.saturating_add(1);
    }
    count
}

// Returns a list of events with the first and the last commit in each other's place. Returns
// `AllocError` if memory can't be allocated.
fn with_swapped_commits(alloc: Global, events: &[u8]) -> Result<Vec<u8>, AllocError> {
    let Ok(mut lines) = events
        .split(|byte| *byte == b'\n')
        .collect::<Vec<&[u8]>>(alloc)
    else {
        return Err(AllocError);
    };
    let first = lines.iter().position(|line| line.starts_with(b"Commit"));
    let last = lines.iter().rposition(|line| line.starts_with(b"Commit"));
    if let (Some(first), Some(last)) = (first, last) {
        lines.swap(first, last);
    }
    joined(alloc, &lines)
}

// Returns a text of these lines, with a line feed between two lines.
fn joined(alloc: Global, lines: &[&[u8]]) -> Result<Vec<u8>, AllocError> {
    let mut text = Vec::new(alloc);
    for line in lines {
        if !text.is_empty() {
            text.push(b'\n')?;
        }
        text.extend_from_slice(line)?;
    }
    Ok(text)
}
