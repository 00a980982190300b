//! The streams of the commands: images and sources to read, and results to write.
ghost use Rattle.std.specs.Prelude.{IfOk, IfSome, ◌≡◌};
ghost use Rattle.fc_tools.specs.Digests.{read_of};

use crate::error::ToolError;
use std::alloc::Global;
use std::io;
use std::io::{Read, Write};

/// Maximum length of an image whose slots can be counted, in bytes.
///
/// Such an image has a header, and 65,535 slots of eight bytes.
pub(crate) const LONGEST_IMAGE: u64 = 16 + 8 * 65_535;

/// Maximum length of a source, in bytes.
///
/// The longest disassembly has 32,768 bytes: 1,024 lines of 32 bytes.
const LONGEST_TEXT: u64 = 1_048_576;

/// Reads an image.
///
/// If the image is longer than any whose slots can be counted, reads one byte more than that
/// maximum.
///
/// # Errors
/// Returns an error if reading fails, or if memory can't be allocated.
pub fn image_bytes<R: Read>(alloc: Global, input: &mut R) -> io::Result<Vec<u8>>
    ensures { IfOk result (λ v. IfSome (R.remaining input.old) (λ bytes. v.items ≡ read_of bytes)) }
{
    let mut image = Vec::new(alloc);
    let mut input = input.take(LONGEST_IMAGE + 1);
    input.read_to_end(&mut image)?;
    Ok(image)
}

// Reads an image, at most one byte more than the longest image.
//
// Returns `ToolError::Input` if reading fails, or if memory can't be allocated.
pub(crate) fn read_image<R: Read>(alloc: Global, input: &mut R) -> Result<Vec<u8>, ToolError> {
    image_bytes(alloc, input).map_err(ToolError::Input)
}

// Reads a source of at most 1,048,576 bytes.
//
// Returns `ToolError::LongText` for a longer source. Returns `ToolError::Input` if reading fails,
// or if memory can't be allocated.
pub(crate) fn read_text<R: Read>(alloc: Global, input: &mut R) -> Result<Vec<u8>, ToolError> {
    let mut text = Vec::new(alloc);
    let mut input = input.take(LONGEST_TEXT + 1);
    input.read_to_end(&mut text).map_err(ToolError::Input)?;
    if text.len() as u64 > LONGEST_TEXT {
        return Err(ToolError::LongText);
    }
    Ok(text)
}

// Writes all of these bytes, and flushes the output. Returns `ToolError::Output` if writing fails.
pub(crate) fn write_whole<W: Write>(out: &mut W, bytes: &[u8]) -> Result<(), ToolError> {
    out.write_all(bytes).map_err(ToolError::Output)?;
    out.flush().map_err(ToolError::Output)
}
