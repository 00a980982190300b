//! Explanations of why an image or a source is refused, in a few lines.
use crate::diagnosis::{Cause, Diagnosis};
use crate::facts::Known;
use crate::loops::{write_entry, write_insn, write_reason};
use crate::reads::{Reads, registers_read};
use crate::rules::{broken_text, correction, mistake_text, remedy};
use fc_asm::Mistake;
use fc_asm::vocabulary::operands_of;
use fc_expand::BadForm;
use fc_expand::words::{first_word, split_label};
use fc_isa::{Insn, Reg};
use fc_kinds::Regs;
use fc_verify::Demand;
use std::alloc::{AllocError, Global};
use std::io;
use std::io::Write;

/// Writes why an image is refused.
///
/// Writes the rule, the evidence that the rule is broken, and the change to make, each on its own
/// lines.
///
/// # Errors
/// Returns an error if writing fails, or if memory can't be allocated.
pub fn explain<W: Write>(alloc: Global, out: &mut W, diagnosis: &Diagnosis) -> io::Result<()> {
    writeln!(out, "rule: {}", broken_text(diagnosis))?;
    write_cause(alloc, out, diagnosis.fault.slot, &diagnosis.cause)?;
    writeln!(out, "change: {}", remedy(diagnosis))
}

/// Writes why a source is refused.
///
/// Writes the mistake, the line if it is text, the form of its instruction if an operand is wrong,
/// and the change to make.
///
/// # Errors
/// Returns an error if writing fails, or if memory can't be allocated.
pub fn explain_line<W: Write>(
    alloc: Global,
    out: &mut W,
    text: &[u8],
    mistake: Mistake,
    line: usize,
) -> io::Result<()> {
    writeln!(out, "rule: {}", mistake_text(mistake))?;
    write_line(out, text, line)?;
    if mistake == Mistake::Operand {
        write_form(alloc, out, text, line)?;
    }
    match width_missing(alloc, text, line)? {
        Some(name) if mistake == Mistake::UnknownWord => writeln!(
            out,
            "change: `{name}` needs its width: write {name}64, or {name}32 for the low 32 bits"
        ),
        _ => writeln!(out, "change: {}", correction(mistake)),
    }
}

/// Writes why a source isn't expanded.
///
/// Writes the mistake, the line if it is text, and the change to make.
///
/// # Errors
/// Returns an error if writing fails.
pub fn explain_form<W: Write>(out: &mut W, text: &[u8], bad: BadForm) -> io::Result<()> {
    writeln!(out, "rule: {}", bad.form.text())?;
    write_line(out, text, bad.line)?;
    writeln!(out, "change: {}", bad.form.correction())
}

// Writes the line with this number, counted from 1.
//
// Writes nothing if there is no such line, or if the source isn't UTF-8. Returns an error if
// writing fails.
fn write_line<W: Write>(out: &mut W, text: &[u8], line: usize) -> io::Result<()> {
    match line_of(text, line) {
        Some(code) => writeln!(out, "line {line}: {code}"),
        None => Ok(()),
    }
}

// Returns the line of a source with this number, counted from 1.
//
// Returns `None` if there is no such line, or if the source isn't UTF-8.
fn line_of(text: &[u8], line: usize) -> Option<&str> {
    let text = str::from_utf8(text).ok()?;
    text.split('\n').nth(line.checked_sub(1)?)
}

// Returns the first word of a line after its label, or an empty one if the line has none.
//
// Returns `None` if there is no such line, or if the source isn't UTF-8.
fn name_of(text: &[u8], line: usize) -> Option<&str> {
    let code = line_of(text, line)?;
    let (_, body) = split_label(code.as_bytes());
    str::from_utf8(first_word(body)).ok()
}

// Returns the first word of a line, if it is a mnemonic without its width.
//
// Both the word with 64 and the word with 32 appended must be instructions. Otherwise returns
// `None`. Returns `AllocError` if memory can't be allocated.
fn width_missing(alloc: Global, text: &[u8], line: usize) -> Result<Option<&str>, AllocError> {
    let Some(name) = name_of(text, line) else {
        return Ok(None);
    };
    let wide = format!(in alloc; "{name}64")?;
    let narrow = format!(in alloc; "{name}32")?;
    let both = operands_of(alloc, &wide)?.is_some() && operands_of(alloc, &narrow)?.is_some();
    Ok(both.then_some(name))
}

// Writes the name of the instruction in line `line`, counted from 1, and the form of its operands.
//
// Writes nothing without such an instruction, or if the source isn't UTF-8. Returns an error if
// writing fails, or if memory can't be allocated.
fn write_form<W: Write>(alloc: Global, out: &mut W, text: &[u8], line: usize) -> io::Result<()> {
    let Some(name) = name_of(text, line) else {
        return Ok(());
    };
    match operands_of(alloc, name)? {
        Some("") => writeln!(out, "form: {name}"),
        Some(operands) => writeln!(out, "form: {name} {operands}"),
        None => Ok(()),
    }
}

// Writes the evidence that a rule is broken.
//
// Writes nothing for a header, or for the depth of frames. Returns an error if writing fails, or if
// memory can't be allocated.
fn write_cause<W: Write>(alloc: Global, out: &mut W, slot: usize, cause: &Cause) -> io::Result<()> {
    match cause {
        Cause::Header | Cause::Frames => Ok(()),
        Cause::Slot(bytes) => write_bytes(out, slot, bytes),
        Cause::Flow(insn) => write_insn(alloc, out, slot, *insn),
        Cause::Back { insn, reason } => {
            write_insn(alloc, out, slot, *insn)?;
            write_reason(alloc, out, reason)
        }
        Cause::Cost { cost, budget } => write_cost(out, *cost, *budget),
        Cause::Typing {
            insn,
            known,
            demand,
        } => {
            write_insn(alloc, out, slot, *insn)?;
            write_demand(out, *insn, known, demand)
        }
    }
}

// Writes the abstract values of the registers on which a demand depends.
//
// For a loop's counter, writes the loop too. Returns an error if writing fails.
fn write_demand<W: Write>(
    out: &mut W,
    insn: Insn,
    known: &Regs,
    demand: &Demand,
) -> io::Result<()> {
    match demand {
        Demand::Operands => write_registers(out, insn, known),
        Demand::Number { register, given } => {
            write_registers(out, insn, known)?;
            writeln!(out, "r{} after it: {}", register.index(), Known(*given))
        }
        Demand::Counter(counted) => write_entry(out, counted, known),
    }
}

// Writes the bytes of a slot that encodes no instruction. Returns an error if writing fails.
fn write_bytes<W: Write>(out: &mut W, slot: usize, bytes: &[u8; 8]) -> io::Result<()> {
    write!(out, "slot {slot}: bytes")?;
    for byte in bytes {
        write!(out, " {byte:02x}")?;
    }
    writeln!(out)
}

// Writes a program's cost and its budget; `None` is a cost that isn't known. Returns an error if
// writing fails.
fn write_cost<W: Write>(out: &mut W, cost: Option<u32>, budget: u32) -> io::Result<()> {
    match cost {
        Some(cost) => writeln!(out, "cost: {cost} steps, with a budget of {budget}"),
        None => writeln!(out, "cost: more than the budget of {budget} steps"),
    }
}

// Writes the abstract value of each register that the instruction reads. Returns an error if
// writing fails.
fn write_registers<W: Write>(out: &mut W, insn: Insn, known: &Regs) -> io::Result<()> {
    match registers_read(insn) {
        Reads::Nothing => Ok(()),
        Reads::One(reg) => write_register(out, reg, known),
        Reads::Two(first, second) => {
            write_register(out, first, known)?;
            write_second(out, first, second, known)
        }
    }
}

// Writes the abstract value of the register `second`, or nothing if `second` is `first`. Returns an
// error if writing fails.
fn write_second<W: Write>(out: &mut W, first: Reg, second: Reg, known: &Regs) -> io::Result<()> {
    if second == first {
        Ok(())
    } else {
        write_register(out, second, known)
    }
}

fn write_register<W: Write>(out: &mut W, reg: Reg, known: &Regs) -> io::Result<()> {
    let number = reg.index();
    writeln!(out, "r{number}: {}", Known(known[number]))
}
