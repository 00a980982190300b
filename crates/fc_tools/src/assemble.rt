//! The command that assembles a source into an image.
ghost use Rattle.std.specs.Prelude.{IfOk, IsTrue, None, true, ◌++◌, ◌≡◌};
ghost use Rattle.fc_asm.specs.Assembled.{IsAssembled};
ghost use Rattle.fc_asm.specs.Syntax.{lines_of};
ghost use Rattle.fc_image.specs.Written.{head_bytes, limit_fault};
ghost use Rattle.fc_image.specs.Paths.{IsLongest};
ghost use Rattle.fc_isa.specs.Encoding.{encoded};
ghost use Rattle.fc_isa.specs.Program.{is_program};
ghost use Rattle.fc_tools.specs.Tools.{IsImageOf, IsPricedImageOf, program_head};

use crate::budget::Budget;
use crate::diagnosis::{Cause, Diagnosis, GREATEST_BUDGET, shape_cost};
use crate::error::{ToolError, tell_whole};
use crate::streams::{read_text, write_whole};
use fc_asm::{AsmError, Mistake, assemble};
use fc_cli::status::{Status, tell};
use fc_expand::expand;
use fc_image::{HEADER_SIZE, Head};
use fc_isa::{Fault, ImageVersion, Insn, encode};
use std::alloc::Global;
use std::io::{Read, Write};

/// Reads a source, expands and assembles it, and writes the image.
///
/// The image is of this version, with this size of the variables in bytes and this budget of steps.
/// Returns:
///
/// - `Done` if the image is written;
/// - `Refused` if the source has more than 1,048,576 bytes or a mistake; if a number of the header
///   is out of its limits; or if the budget is to be the cost and the control flow breaks a rule;
/// - `Failed` if reading or writing fails, or if memory can't be allocated.
///
/// Writes the reason to `err`: a line with the mistake or the rule, and then the lines of
/// `explain_line` or `explain`.
pub fn image<R: Read, W: Write, E: Write>(
    alloc: Global,
    input: &mut R,
    out: &mut W,
    err: &mut E,
    vars_size: u16,
    budget: Budget,
    version: ImageVersion,
) -> Status {
    let text = match read_text(alloc, input) {
        Ok(text) => text,
        Err(error) => return tell(err, &error, error.status()),
    };
    match write_image(alloc, &text, out, vars_size, budget, version) {
        Ok(()) => Status::Done,
        Err(error) => tell_whole(alloc, err, &error, &text),
    }
}

// Expands and assembles a source, and writes its image. Returns an error if the source has a
// mistake or the image breaks a rule, if memory can't be allocated, or if writing fails.
fn write_image<W: Write>(
    alloc: Global,
    text: &[u8],
    out: &mut W,
    vars_size: u16,
    budget: Budget,
    version: ImageVersion,
) -> Result<(), ToolError> {
    let text = expand(alloc, text)?;
    let image = match budget {
        Budget::Steps(steps) => image_of(alloc, &text, vars_size, steps, version)?,
        Budget::Auto => priced_image_of(alloc, &text, vars_size, version)?,
    };
    write_whole(out, &image)
}

/// Assembles a source into an image.
///
/// A source that isn't UTF-8 is reported as an unknown word (A1) in the first line.
///
/// # Errors
/// Returns the first line with a mistake, and the first of these mistakes that the line has: an
/// unknown first word (A1), a bad operand (A2), a value out of range (A3). If there is no mistake,
/// returns the first rule of the header that a number breaks. Returns `Memory` if memory can't be
/// allocated and no such fault was found before.
pub fn image_of(
    alloc: Global,
    text: &[u8],
    vars_size: u16,
    budget: u32,
    version: ImageVersion,
) -> Result<Vec<u8>, ToolError>
    ensures { IfOk result (λ v. IsImageOf text.now vars_size budget version v.items) }
{
    let program = program_of(alloc, text)?;
    let head = Head::new(vars_size, program.len(), budget, version).map_err(header_error)?;
    image_with(alloc, &head, &program)
}

/// Assembles a source into an image whose budget is the program's cost.
///
/// The cost is the least budget that the program may have.
///
/// # Errors
/// Returns the errors of `image_of`. If no rule of the header is broken, returns the first rule of
/// the control flow, 11 to 17, that the program breaks with the greatest budget.
pub fn priced_image_of(
    alloc: Global,
    text: &[u8],
    vars_size: u16,
    version: ImageVersion,
) -> Result<Vec<u8>, ToolError>
    ensures { IfOk result (λ v. IsPricedImageOf text.now vars_size version v.items) }
{
    let program = program_of(alloc, text)?;
    let head = priced_head(vars_size, &program, version)?;
    image_with(alloc, &head, &program)
}

/// Builds the header of a program, with its cost as the budget.
///
/// # Errors
/// Returns the first rule of the header that a number breaks. If there is none, returns the first
/// rule of the control flow that the program breaks with the greatest budget.
fn priced_head(vars_size: u16, program: &[Insn], version: ImageVersion) -> Result<Head, ToolError>
    requires { is_program program.now ≡ true }
    ensures head { IfOk result (λ h. (h ≡ program_head vars_size h.budget version program.now) × (limit_fault h ≡ None)) }
    ensures cost { IfOk result (λ h. IsLongest version program.now h.budget) }
{
    let greatest = Head::new(vars_size, program.len(), GREATEST_BUDGET, version).map_err(
        header_error,
    )?;
    match shape_cost(&greatest, program) {
        Ok(cost) => Head::new(vars_size, program.len(), cost, version).map_err(header_error),
        Err(diagnosis) => Err(ToolError::Image(diagnosis)),
    }
}

/// Assembles the program of a source.
///
/// # Errors
/// Returns the first line with a mistake, or `Memory` if memory can't be allocated. A source that
/// isn't UTF-8 is reported as an unknown word in the first line.
fn program_of(alloc: Global, text: &[u8]) -> Result<Vec<Insn>, ToolError>
    ensures program { IfOk result (λ v. IsAssembled (lines_of text.now) v.items) }
    ensures slots { IfOk result (λ v. IsTrue (is_program v.items)) }
{
    let Ok(text) = str::from_utf8(text) else {
        return Err(ToolError::Text(AsmError::Faulty {
            mistake: Mistake::UnknownWord,
            line: 1,
        }));
    };
    Ok(assemble(alloc, text)?)
}

/// Builds the image of a header and its program.
///
/// # Errors
/// Returns `Memory` if memory can't be allocated.
fn image_with(alloc: Global, head: &Head, program: &[Insn]) -> Result<Vec<u8>, ToolError>
    requires { IsTrue (is_program program.now) }
    ensures { IfOk result (λ v. v.items ≡ head_bytes head.now ++ encoded program.now) }
{
    let slots = encode(alloc, program)?;
    let mut image = Vec::with_capacity(alloc, HEADER_SIZE)?;
    image.extend_from_slice(&head.bytes())?;
    image.extend_from_slice(&slots)?;
    Ok(image)
}

// Returns the error for a number of the header that is out of its limits.
fn header_error(fault: Fault) -> ToolError {
    ToolError::Image(Diagnosis {
        fault,
        cause: Cause::Header,
    })
}
