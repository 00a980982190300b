//! The command that expands a source.
use crate::error::{ToolError, tell_whole};
use crate::streams::{read_text, write_whole};
use fc_cli::status::{Status, tell};
use std::alloc::Global;
use std::io::{Read, Write};

/// Reads a source and writes it expanded, as `image` assembles it.
///
/// Returns:
///
/// - `Done` if the source is written;
/// - `Refused` if the source has more than 1,048,576 bytes, or a mistake in a form that is
///   expanded;
/// - `Failed` if reading or writing fails, or if memory can't be allocated.
///
/// Writes the reason to `err`, as `image` does.
pub fn expand<R: Read, W: Write, E: Write>(
    alloc: Global,
    input: &mut R,
    out: &mut W,
    err: &mut E,
) -> Status {
    let text = match read_text(alloc, input) {
        Ok(text) => text,
        Err(error) => return tell(err, &error, error.status()),
    };
    match write_expanded(alloc, &text, out) {
        Ok(()) => Status::Done,
        Err(error) => tell_whole(alloc, err, &error, &text),
    }
}

// Expands a source, and writes the result. Returns an error if the source has a mistake, if memory
// can't be allocated, or if writing fails.
fn write_expanded<W: Write>(alloc: Global, text: &[u8], out: &mut W) -> Result<(), ToolError> {
    let text = fc_expand::expand(alloc, text)?;
    write_whole(out, &text)
}
