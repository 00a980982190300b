//! The command that verifies an image.
ghost use Rattle.std.specs.Prelude.{IfOk};
ghost use Rattle.fc_tools.specs.Diagnosed.{IsDiagnosisOf, IsUnacceptable};

use crate::diagnosis::{Diagnosis, Rejection, diagnose};
use crate::error::{ToolError, tell_cause};
use crate::streams::read_image;
use fc_cli::status::{Status, tell};
use fc_verify::{Refusal, verify};
use std::alloc::{AllocError, Global};
use std::io::{Read, Write};

/// Reads an image, and writes to `out` whether it is accepted.
///
/// The line has the cost and the budget, or the first broken rule. Returns:
///
/// - `Done` if the image is accepted;
/// - `Refused` if the image isn't accepted, and then `explain` writes the reason to `err`;
/// - `Failed` if reading or writing fails, or if memory can't be allocated; the reason is written
///   to `err`.
pub fn check<R: Read, W: Write, E: Write>(
    alloc: Global,
    input: &mut R,
    out: &mut W,
    err: &mut E,
) -> Status {
    match write_verdict(alloc, input, out) {
        Ok(None) => Status::Done,
        Ok(Some(diagnosis)) => tell_cause(alloc, err, &diagnosis),
        Err(error) => tell(err, &error, error.status()),
    }
}

// Writes the verdict on an image.
//
// Returns the diagnosis if the image is refused, or `None` if it is accepted. Returns an error if
// reading or writing fails, or if memory can't be allocated.
fn write_verdict<R: Read, W: Write>(
    alloc: Global,
    input: &mut R,
    out: &mut W,
) -> Result<Option<Diagnosis>, ToolError> {
    let image = read_image(alloc, input)?;
    match verify(alloc, &image) {
        Ok(program) => {
            let (cost, budget) = (program.cost(), program.budget());
            writeln!(out, "accepted cost {cost} budget {budget}").map_err(ToolError::Output)?;
            out.flush().map_err(ToolError::Output)?;
            Ok(None)
        }
        Err(Refusal::Broken(_)) => write_refusal(alloc, &image, out),
        Err(Refusal::NoMemory) => Err(ToolError::Memory(AllocError)),
    }
}

// Writes the verdict on an image that is refused, and returns the diagnosis, never `None`.
//
// Returns an error if memory can't be allocated, or if writing fails.
pub(crate) fn write_refusal<W: Write>(
    alloc: Global,
    image: &[u8],
    out: &mut W,
) -> Result<Option<Diagnosis>, ToolError>
    requires { IsUnacceptable image.now }
{
    let diagnosis = diagnosis_of(alloc, image)?;
    writeln!(out, "{diagnosis}").map_err(ToolError::Output)?;
    out.flush().map_err(ToolError::Output)?;
    Ok(Some(diagnosis))
}

/// Returns the diagnosis of an image that breaks a rule.
///
/// # Errors
/// Returns `AllocError` if memory can't be allocated.
fn diagnosis_of(alloc: Global, image: &[u8]) -> Result<Diagnosis, AllocError>
    requires { IsUnacceptable image.now }
    ensures { IfOk result (IsDiagnosisOf image.now) }
{
    match diagnose(alloc, image) {
        Ok(()) => unreachable!(),
        Err(Rejection::Broken(diagnosis)) => Ok(diagnosis),
        Err(Rejection::NoMemory) => Err(AllocError),
    }
}
