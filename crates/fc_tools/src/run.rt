//! The command that runs an image's program once.
use crate::check::write_refusal;
use crate::diagnosis::Diagnosis;
use crate::error::{ToolError, tell_cause};
use crate::run_options::Asked;
use crate::runner::report;
use crate::streams::{read_image, write_whole};
use fc_cli::status::{Status, tell};
use fc_verify::{Refusal, verify};
use std::alloc::{AllocError, Global};
use std::io::{Read, Write};

/// Reads an image from `input`, runs its program once, and writes the report.
///
/// Returns the status of `run_image`, or `Failed` if reading fails. Writes the reason to `err`.
pub fn run<R: Read, W: Write, E: Write>(
    alloc: Global,
    input: &mut R,
    out: &mut W,
    err: &mut E,
    asked: &Asked,
) -> Status {
    match read_image(alloc, input) {
        Ok(image) => run_image(alloc, &image, out, err, asked),
        Err(error) => tell(err, &error, error.status()),
    }
}

/// Runs an image's program once, like the server, and writes the report.
///
/// Returns:
///
/// - `Done` if the report is written;
/// - `Refused` if the image is refused, with the output of `check`;
/// - `Bad` if the given variables have another size than the program's;
/// - `Failed` if writing fails, or if memory can't be allocated.
///
/// Writes the reason to `err`.
pub fn run_image<W: Write, E: Write>(
    alloc: Global,
    image: &[u8],
    out: &mut W,
    err: &mut E,
    asked: &Asked,
) -> Status {
    match write_report(alloc, image, out, asked) {
        Ok(None) => Status::Done,
        Ok(Some(diagnosis)) => tell_cause(alloc, err, &diagnosis),
        Err(error) => tell(err, &error, error.status()),
    }
}

// Writes the report of a run, or the verdict on an image that is refused.
//
// Returns the diagnosis if the image is refused, or `None` after a report. Returns an error if the
// given variables have a wrong size, if writing fails, or if memory can't be allocated.
fn write_report<W: Write>(
    alloc: Global,
    image: &[u8],
    out: &mut W,
    asked: &Asked,
) -> Result<Option<Diagnosis>, ToolError> {
    match verify(alloc, image) {
        Ok(program) => {
            let report = report(alloc, &program, asked)?;
            write_whole(out, report.as_bytes())?;
            Ok(None)
        }
        Err(Refusal::Broken(_)) => write_refusal(alloc, image, out),
        Err(Refusal::NoMemory) => Err(ToolError::Memory(AllocError)),
    }
}
