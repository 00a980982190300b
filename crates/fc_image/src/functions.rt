//! The functions of a program, and the stack frames that their calls need.
ghost use Rattle.std.specs.Prelude.{drop, false, length, min, slice_index, slice_index_or, ℕ, ◌+◌, ◌-◌, ◌<◌, ◌≡◌, ◌≤◌};
ghost use Rattle.fc_image.specs.Functions.{at_offset, frames, frames_called, is_open_end, may_end, slots_taken, starts_within};
ghost use Rattle.fc_image.specs.Tables.{AreCounts, AreStarts, IsMarked, frames_from};

use crate::flow::{call_offset, target};
use crate::table::MOST_SLOTS;
use fc_isa::Insn;

/// The number at which depths are capped: one frame more than any program may have.
const TOO_DEEP: u8 = 9;

/// Returns for each slot whether a function starts there.
///
/// Functions start at slot 0 and at the targets of local calls.
pub(crate) fn starts(code: &[Insn]) -> [bool; MOST_SLOTS]
    requires { length code.now ≤ 1024 }
    ensures { AreStarts code.now result }
{
    let mut starts = [false; MOST_SLOTS];
    starts[0] = true;
    let mut slot = code.len();
    while slot > 0 {
        slot -= 1;
        mark(&mut starts, slot, &code[slot]);
    }
    starts
}

/// Marks the start of the function that an instruction calls.
///
/// Nothing is marked if the instruction isn't a local call, or if its target isn't in the table.
fn mark(starts: &mut [bool; MOST_SLOTS], slot: usize, insn: &Insn)
    requires { slot < 1024 }
    ensures { IsMarked slot insn.now starts.old starts.new }
{
    if let Some(offset) = call_offset(insn)
        && let Some(place) = target(slot, offset)
        && place < MOST_SLOTS
    {
        starts[place] = true;
    }
}

/// Returns for each slot the number of functions that start at or before the slot.
pub(crate) fn starts_counted(code: &[Insn], starts: &[bool; MOST_SLOTS]) -> [u16; MOST_SLOTS]
    requires { AreStarts code.now starts.now }
    ensures { AreCounts code.now result }
{
    let mut counts = [0; MOST_SLOTS];
    let mut count = 0;
    for slot in 0..MOST_SLOTS {
        if starts[slot] {
            count += 1;
        }
        counts[slot] = count;
    }
    counts
}

/// Returns whether a function starts after `slot`, up to `place`.
///
/// If so, the two slots are in different functions, and no jump may lead from one to the other.
pub(crate) fn crosses(code: &[Insn], counts: &[u16; MOST_SLOTS], slot: usize, place: usize) -> bool
    requires counts { AreCounts code.now counts.now }
    requires later { slot ≤ place }
    requires within { place < 1024 }
    ensures { result ≡ starts_within code.now slot (place - slot) }
{
    counts[slot] < counts[place]
}

/// Returns whether an instruction is the last of its function, and isn't an exit.
///
/// Returns `false` for the second half of a wide load: the load is checked in its first slot.
pub(crate) fn is_open_end(
    code: &[Insn],
    starts: &[bool; MOST_SLOTS],
    slot: usize,
    insn: &Insn,
) -> bool
    requires starts { AreStarts code.now starts.now }
    requires count { length code.now ≤ 1024 }
    requires slot { slot < 1024 }
    ensures { result ≡ is_open_end code.now slot insn.now }
{
    let next = slot + slots_taken(insn);
    !may_end(insn) && (next >= code.len() || starts[next])
}

/// Returns the number of slots of an instruction: 2 for a wide load, else 1.
fn slots_taken(insn: &Insn) -> usize
    ensures slots { result ≡ slots_taken insn.now }
    ensures few { result ≤ 2 }
{
    match insn {
        Insn::LoadWide { .. } => 2,
        _ => 1,
    }
}

/// Returns whether an instruction may be the last of its function: an exit.
///
/// Returns `true` for a second half too: its wide load is checked in its place.
fn may_end(insn: &Insn) -> bool
    ensures { result ≡ may_end insn.now }
{
    matches!(insn, Insn::Exit | Insn::WideSecond)
}

/// Returns the maximum depth of stack frames of a program's calls, or 9 if greater.
///
/// Calls that no path reaches count too.
pub(crate) fn deepest(code: &[Insn], starts: &[bool; MOST_SLOTS]) -> u8
    requires starts { AreStarts code.now starts.now }
    requires count { length code.now ≤ 1024 }
    ensures { result ≡ min 9 (frames code.now) }
{
    let mut depths = [0; MOST_SLOTS];
    let mut slot = code.len();
    while slot > 0 {
        slot -= 1;
        depths[slot] = depth(&depths, starts, slot, &code[slot]);
    }
    (1 + depths[0]).min(TOO_DEEP)
}

/// Returns the frames that calls add from a slot to the end of its function.
///
/// The number is capped at 9. `depths` has the numbers of the later slots.
fn depth(depths: &[u8; MOST_SLOTS], starts: &[bool; MOST_SLOTS], slot: usize, insn: &Insn) -> u8
    requires slot { slot < 1024 }
    requires capped { (k : ℕ) → slice_index depths.now k ≤ 9 }
    ensures { result ≡ frames_from depths.now starts.now slot insn.now }
{
    let rest = if at_start(starts, slot + 1) {
        0
    } else {
        at(depths, slot + 1)
    };
    called(depths, slot, insn).max(rest).min(TOO_DEEP)
}

/// Returns whether a function starts at a slot; `false` after the table's end.
fn at_start(starts: &[bool; MOST_SLOTS], slot: usize) -> bool
    ensures { result ≡ slice_index_or starts.now slot false }
{
    starts.get(slot).copied().unwrap_or(false)
}

/// Returns the depth at a place, or 0 after the table's end.
fn at(depths: &[u8; MOST_SLOTS], place: usize) -> u8
    ensures { result ≡ slice_index depths.now place }
{
    depths.get(place).copied().unwrap_or(0)
}

/// Returns the frames that an instruction's local call needs, or 0 without a call.
fn called(depths: &[u8; MOST_SLOTS], slot: usize, insn: &Insn) -> u8
    requires slot { slot < 1024 }
    requires capped { (k : ℕ) → slice_index depths.now k ≤ 9 }
    ensures frames { result ≡ frames_called insn.now (drop (slot + 1) depths.now) }
{
    match insn {
        Insn::CallLocal { offset } => 1 + at_offset(depths, slot, *offset),
        _ => 0,
    }
}

/// Returns the depth at an offset from the next slot.
///
/// The depth is 0 if the offset is negative or leads past the table's end.
fn at_offset(depths: &[u8; MOST_SLOTS], slot: usize, offset: i32) -> u8
    requires slot { slot < 1024 }
    requires capped { (k : ℕ) → slice_index depths.now k ≤ 9 }
    ensures depth { result ≡ at_offset (drop (slot + 1) depths.now) offset }
    ensures capped { result ≤ 9 }
{
    match target(slot, offset) {
        Some(place) if place > slot => at(depths, place),
        _ => 0,
    }
}
