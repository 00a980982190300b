//! Descriptions of loops, for the explanation of a refused image.
use crate::facts::Known;
use crate::numbered_listing::listed;
use fc_image::loops::Loop;
use fc_image::uncounted::{Disturbance, Uncounted};
use fc_isa::Insn;
use fc_kinds::Regs;
use std::alloc::Global;
use std::io::Write;
use std::{fmt, io};

/// A loop in words, printed as `slots 2 to 6, counted in r6 below 4`.
#[derive(Clone, Copy)]
pub(crate) struct CountedLoop(pub Loop);

impl fmt::Display for CountedLoop {
    fn fmt<W: fmt::Write>(&self, f: &mut fmt::Formatter<W>) -> fmt::Result {
        let counted = self.0;
        write!(
            f,
            "slots {} to {}, counted in r{} below {}",
            counted.head,
            counted.last,
            counted.counter.index(),
            counted.bound
        )
    }
}

/// Writes why a backward jump isn't the jump of a counted loop.
///
/// If another instruction prevents a counted loop, writes that instruction too, on its own line.
///
/// # Errors
/// Returns an error if writing fails, or if memory can't be allocated.
pub(crate) fn write_reason<W: Write>(
    alloc: Global,
    out: &mut W,
    reason: &Uncounted,
) -> io::Result<()> {
    match reason {
        Uncounted::NoLoops => writeln!(out, "loop: a program of the first version has none"),
        Uncounted::Jump => writeln!(
            out,
            "loop: it isn't `jlt` of a register and a number, in 64 bits"
        ),
        Uncounted::Bound => writeln!(out, "loop: its bound isn't 1 to 1024"),
        Uncounted::Step => writeln!(
            out,
            "loop: the slot before isn't `add64` of the same register and a number of 1 or more"
        ),
        Uncounted::Target => writeln!(out, "loop: the jump leads to itself"),
        Uncounted::Disturbed {
            counted,
            slot,
            insn,
            by,
        } => {
            writeln!(
                out,
                "loop: {}; slot {slot} {}",
                CountedLoop(*counted),
                harm(*by)
            )?;
            write_insn(alloc, out, *slot, *insn)
        }
    }
}

/// Returns the way in which an instruction disturbs a loop, in words.
fn harm(by: Disturbance) -> &'static str {
    match by {
        Disturbance::Write => "writes the counter",
        Disturbance::Exit => "is an exit in it",
        Disturbance::Skip => "jumps past the addition",
        Disturbance::Leave => "jumps out of it",
        Disturbance::Enter => "jumps into it",
    }
}

/// Writes a loop whose counter isn't below its bound at the entry.
///
/// Writes the counter's abstract value at the entry on the next line.
///
/// # Errors
/// Returns an error if writing fails.
pub(crate) fn write_entry<W: Write>(
    out: &mut W,
    counted: &Loop,
    entering: &Regs,
) -> io::Result<()> {
    let counter = counted.counter.index();
    writeln!(out, "loop: {}", CountedLoop(*counted))?;
    writeln!(out, "r{counter}: {}", Known(entering[counter]))
}

/// Writes an instruction with its slot, on its own line.
///
/// # Errors
/// Returns an error if writing fails, or if memory can't be allocated.
pub(crate) fn write_insn<W: Write>(
    alloc: Global,
    out: &mut W,
    slot: usize,
    insn: Insn,
) -> io::Result<()> {
    let listed = listed(alloc, insn)?;
    writeln!(out, "slot {slot}: {}", listed.trim_end())
}

/// Returns the change to make if a backward jump isn't that of a counted loop.
pub(crate) fn loop_remedy(reason: &Uncounted) -> &'static str {
    match reason {
        Uncounted::NoLoops =>
            "write the turns out, or make an image of the second version, by `--format 2`",
        Uncounted::Jump | Uncounted::Step =>
            "end the loop with `add64 COUNTER, STEP` and right after it `jlt COUNTER, BOUND, HEAD`; to begin the next turn, jump to the addition",
        Uncounted::Bound =>
            "give `jlt` a bound of 1 to 1024; for more turns put one loop into another",
        Uncounted::Target => "jump back to the first instruction of the body",
        Uncounted::Disturbed { by, .. } => loop_correction(*by),
    }
}

/// Returns the change to make if an instruction disturbs a loop in this way.
fn loop_correction(by: Disturbance) -> &'static str {
    match by {
        Disturbance::Write =>
            "count in a register that only the addition writes; a call writes r0 to r5",
        Disturbance::Exit =>
            "keep in a register that the rest is to be skipped, and put the exit behind the loop",
        Disturbance::Skip => "jump to the addition",
        Disturbance::Leave =>
            "keep in a register that the rest is to be skipped, and jump to the addition",
        Disturbance::Enter =>
            "lead it to an instruction in front of the loop's first, which runs on into it; loops stand in one another or apart",
    }
}
