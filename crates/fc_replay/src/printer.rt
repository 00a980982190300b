//! The output of a replay.
ghost use Rattle.std.specs.Prelude.{OnOk};
ghost use Rattle.fc_registry.specs.Slots.{slot_in};
ghost use Rattle.std.specs.Io.KnownBytes.{Appends};
ghost use Rattle.fc_replay.specs.Printed.{IsSlotLine, emitted_line, slot_text, version_text, vars_text};

use coap_msg::Emission;
use fc_cli::stop::Stop;
use fc_lines::emission::print;
use fc_registry::Shard;
use fc_ticket::SlotNumber;
use std::alloc::Global;
use std::io;
use std::io::Write;

/// The printed data of a slot.
///
/// The data are the slot's serial, and the version and the variables of the slot's program.
#[derive(Clone, Copy)]
pub struct SlotLine<'a> {
    /// The slot's serial.
    pub serial: u64,
    /// The serial at the install of the slot's program, or `None` if the slot is empty.
    pub version: Option<u64>,
    /// The variables of the slot's program.
    pub vars: &'a [u8],
}

/// Returns the printed data of a slot of this shard.
pub fn slot_line(shard: &Shard, slot: SlotNumber) -> SlotLine<'_>
    ensures { IsSlotLine (slot_in shard.entry.now slot) result }
{
    SlotLine {
        serial: shard.serial(slot),
        version: shard.version(slot),
        vars: shard.vars(slot),
    }
}

/// Prints an emission as a line `peer hex`, or `none` if there is no emission.
///
/// # Errors
/// Returns the writer's error.
pub fn print_emitted<W: Write>(out: &mut W, emitted: &Option<Emission>) -> io::Result<()>
    ensures { OnOk result (Appends (W.contents out.old) (W.contents out.new) (emitted_line emitted.now)) }
{
    match emitted {
        None => out.write_all(b"none\n"),
        Some(emission) => print(out, emission),
    }
}

/// Prints a line for a slot, or nothing if the slot's serial is 0.
///
/// # Errors
/// Returns `Output` if writing fails, and `Memory` if memory for the digits of the variables can't
/// be allocated.
pub fn print_slot<W: Write>(
    alloc: Global,
    out: &mut W,
    number: u8,
    slot: SlotLine<'_>,
) -> Result<(), Stop>
    ensures { OnOk result (Appends (W.contents out.old) (W.contents out.new) (slot_text number slot.entry)) }
{
    if slot.serial == 0 {
        return Ok(());
    }
    let serial = slot.serial;
    write!(out, "slot {number} serial {serial} version ")?;
    print_version(out, slot.version)?;
    out.write_all(b" vars ")?;
    print_vars(alloc, out, slot.vars)?;
    out.write_all(b"\n")?;
    Ok(())
}

// Prints a version, or a dash if there is no program. Returns the writer's error.
fn print_version<W: Write>(out: &mut W, version: Option<u64>) -> io::Result<()>
    ensures { OnOk result (Appends (W.contents out.old) (W.contents out.new) (version_text version)) }
{
    match version {
        None => out.write_all(b"-"),
        Some(version) => write!(out, "{version}"),
    }
}

// Prints variables as hex digits, or a dash if there are none. Returns `Output` if writing fails,
// and `Memory` if memory for the digits can't be allocated.
fn print_vars<W: Write>(alloc: Global, out: &mut W, vars: &[u8]) -> Result<(), Stop>
    ensures { OnOk result (Appends (W.contents out.old) (W.contents out.new) (vars_text vars.now)) }
{
    if vars.is_empty() {
        out.write_all(b"-")?;
    } else {
        let digits = hex::encode(alloc, vars)?;
        out.write_all(digits.as_bytes())?;
    }
    Ok(())
}
