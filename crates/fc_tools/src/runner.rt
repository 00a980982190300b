//! A single run of a program, as the server runs it, for `fcasm run`.
ghost use Rattle.std.specs.Prelude.{IfOk, length, string_bytes, ◌≡◌};
ghost use Rattle.fc_machine.specs.Ran.{meaning_of};
ghost use Rattle.fc_tools.specs.Runs.{found_by, hex_or_dash, report_of, report_text};

use crate::error::ToolError;
use crate::run_options::Asked;
use coap_msg::Code;
use fc_help::Vars;
use fc_machine::{Frame, Outcome, run};
use fc_verify::Verified;
use std::alloc::{AllocError, Global};

/// Runs a program once and returns the result in lines.
///
/// The lines are the response's code, its payload, the variables after the run, the steps, and
/// whether the program set the notify flag. The payload and the variables are in hex digits, or `-`
/// if empty.
///
/// # Errors
/// Returns an error if the given variables have another size than the program's, or if memory can't
/// be allocated.
pub fn report(alloc: Global, program: &Verified, asked: &Asked) -> Result<String, ToolError>
    ensures { IfOk result (λ s. string_bytes s ≡ report_of program.now asked.now) }
{
    let found = variables(program, &asked.vars)?;
    let mut frame = Frame::new(alloc)?;
    let outcome = run(&mut frame, program, &asked.request, &found, &asked.readings);
    Ok(outcome_text(alloc, &outcome)?)
}

/// Returns the given variables, or zeros of the program's size if none are given.
///
/// # Errors
/// Returns an error if the given variables have another size than the program's.
fn variables(program: &Verified, given: &Option<Vars>) -> Result<Vars, ToolError>
    ensures found { IfOk result (λ v. v ≡ found_by program.now.vars_size given.now) }
    ensures size { IfOk result (λ v. length v ≡ program.now.vars_size) }
{
    let size = program.vars_size();
    match given {
        None => Ok(Vars::zeros(size)),
        Some(vars) => sized(vars, size),
    }
}

/// Returns a copy of the given variables if they have the program's size.
///
/// # Errors
/// Returns an error if the given variables have another size.
fn sized(vars: &Vars, size: u16) -> Result<Vars, ToolError>
    ensures found { IfOk result (λ v. v ≡ vars.now) }
    ensures size { IfOk result (λ v. length v ≡ size) }
{
    let given = vars.as_slice().len();
    if given == size as usize {
        Ok(vars.copy())
    } else {
        Err(ToolError::Variables {
            given,
            wanted: size,
        })
    }
}

/// Returns the result of a run in lines, for `report`.
///
/// # Errors
/// Returns `AllocError` if memory can't be allocated.
fn outcome_text(alloc: Global, outcome: &Outcome<'_>) -> Result<String, AllocError>
    ensures { IfOk result (λ s. string_bytes s ≡ report_text (meaning_of outcome.now)) }
{
    let code = Code {
        byte: outcome.code(),
    };
    let reply = digits(alloc, outcome.reply())?;
    let vars = digits(alloc, outcome.after())?;
    let steps = outcome.steps();
    let notice = if outcome.notice() { "yes" } else { "no" };
    format!(in alloc; "code {code}\nreply {reply}\nvars {vars}\nsteps {steps}\nnotice {notice}\n")
}

/// Returns bytes in hex digits, or `-` if there are none.
///
/// # Errors
/// Returns `AllocError` if memory can't be allocated.
fn digits(alloc: Global, bytes: &[u8]) -> Result<String, AllocError>
    ensures { IfOk result (λ s. string_bytes s ≡ hex_or_dash bytes.now) }
{
    if bytes.is_empty() {
        String::from_str(alloc, "-")
    } else {
        hex::encode(alloc, bytes)
    }
}
