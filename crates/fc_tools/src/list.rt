//! The command that disassembles an image.
ghost use Rattle.std.specs.Prelude.{IfOk, string_bytes};
ghost use Rattle.fc_tools.specs.Tools.{IsListingOf, IsNumberedListingOf};

use crate::diagnosis::{read_code, read_head};
use crate::error::{ToolError, tell_whole};
use crate::numbered_listing::numbered;
use crate::streams::{read_image, write_whole};
use fc_asm::disassemble;
use fc_cli::status::Status;
use std::alloc::Global;
use std::io::{Read, Write};

/// Reads an image and writes its disassembly.
///
/// The lines have slot numbers if `with_slots` is true. Returns:
///
/// - `Done` if the disassembly is written;
/// - `Refused` if the header or a slot breaks a rule;
/// - `Failed` if reading or writing fails, or if memory can't be allocated.
///
/// Writes the reason to `err`: a line with the rule, and then the lines of `explain`.
pub fn list<R: Read, W: Write, E: Write>(
    alloc: Global,
    input: &mut R,
    out: &mut W,
    err: &mut E,
    with_slots: bool,
) -> Status {
    match write_listing(alloc, input, out, with_slots) {
        Ok(()) => Status::Done,
        Err(error) => tell_whole(alloc, err, &error, &[]),
    }
}

// Reads an image, and writes its disassembly. Returns an error if the header or a slot breaks a
// rule, if reading or writing fails, or if memory can't be allocated.
fn write_listing<R: Read, W: Write>(
    alloc: Global,
    input: &mut R,
    out: &mut W,
    with_slots: bool,
) -> Result<(), ToolError> {
    let image = read_image(alloc, input)?;
    let listing = if with_slots {
        numbered_listing_of(alloc, &image)?
    } else {
        listing_of(alloc, &image)?
    };
    write_whole(out, listing.as_bytes())
}

/// Disassembles an image's program.
///
/// # Errors
/// Returns the first rule of the header or of a slot that the image breaks, with its slot; or
/// `Memory` if memory can't be allocated.
pub fn listing_of(alloc: Global, image: &[u8]) -> Result<String, ToolError>
    ensures { IfOk result (λ s. IsListingOf image.now (string_bytes s)) }
{
    let head = read_head(image)?;
    let program = read_code(alloc, image, &head)?;
    Ok(disassemble(alloc, &program)?)
}

/// Disassembles an image's program with the slot number before each line.
///
/// # Errors
/// Returns the first rule of the header or of a slot that the image breaks, with its slot; or
/// `Memory` if memory can't be allocated.
pub fn numbered_listing_of(alloc: Global, image: &[u8]) -> Result<String, ToolError>
    ensures { IfOk result (λ s. IsNumberedListingOf image.now (string_bytes s)) }
{
    let head = read_head(image)?;
    let program = read_code(alloc, image, &head)?;
    Ok(numbered(alloc, &program)?)
}
