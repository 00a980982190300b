//! Disassemblies with slot numbers.
ghost use Rattle.std.specs.Prelude.{IfOk, OnOk, string_bytes, ◌++◌, ◌≡◌};
ghost use Rattle.fc_asm.specs.Listing.{line_of};
ghost use Rattle.fc_tools.specs.Numbered.{numbered_from, numbered_line};

use fc_asm::disassemble;
use fc_isa::Insn;
use std::alloc::{AllocError, Global};

/// Disassembles a program with the slot number before each line.
///
/// A line is printed as `3: exit`, with the number of its first slot. A wide load has two slots.
/// `fcasm list --slots` prints this text.
///
/// # Errors
/// Returns `AllocError` if memory can't be allocated.
pub fn numbered(alloc: Global, program: &[Insn]) -> Result<String, AllocError>
    ensures { IfOk result (λ s. string_bytes s ≡ numbered_from 0 program.now) }
{
    let mut text = String::new(alloc);
    for (slot, insn) in program.iter().enumerate() {
        push_numbered(alloc, &mut text, slot, *insn)?;
    }
    Ok(text)
}

/// Appends the line of a slot; the second slot of a wide load has none.
///
/// # Errors
/// Returns `AllocError` if memory can't be allocated.
fn push_numbered(
    alloc: Global,
    text: &mut String,
    slot: usize,
    insn: Insn,
) -> Result<(), AllocError>
    ensures { OnOk result (string_bytes text.new ≡ string_bytes text.old ++ numbered_line slot insn) }
{
    if matches!(insn, Insn::WideSecond) {
        return Ok(());
    }
    let line = listed(alloc, insn)?;
    write!(text, "{slot}: {line}")
}

/// Returns the line of an instruction in a disassembly, with its line feed.
///
/// The second slot of a wide load has an empty text.
///
/// # Errors
/// Returns `AllocError` if memory can't be allocated.
pub fn listed(alloc: Global, insn: Insn) -> Result<String, AllocError>
    ensures { IfOk result (λ s. string_bytes s ≡ line_of insn) }
{
    match insn {
        Insn::WideSecond => Ok(String::new(alloc)),
        Insn::LoadWide { .. } => disassemble(alloc, &[insn, Insn::WideSecond]),
        _ => disassemble(alloc, &[insn]),
    }
}
