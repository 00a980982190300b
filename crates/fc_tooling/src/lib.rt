//! Calls of the tools with inputs and outputs in memory, for crates of tests.
//!
//! The crate has no tests of its own. It is apart from `fc_fixtures`, so that tests that call no tool
//! can be checked without the tools.
#![tactic(auto)]

ghost use Rattle.std.specs.Prelude.{◌≡◌, ◌≢◌, IfOk, IsOk};
ghost use Rattle.fc_cli.specs.declared.status.Status.TheVariants.{Failed};

use fc_cli::Status;
use fc_isa::ImageVersion;
use fc_tools::assemble::image;
use fc_tools::budget::Budget;
use std::alloc::{AllocError, Global};

/// The status and the output of a tool.
#[derive(Drop)]
pub struct Done {
    /// The status.
    pub status: Status,
    /// What the tool wrote to its output.
    pub out: Vec<u8>,
    /// What the tool wrote to its error output.
    pub err: Vec<u8>,
}

/// Returns the result of a tool whose inputs and outputs are in memory.
///
/// # Errors
/// Returns an error if the status is `Failed`: with inputs and outputs in memory, only an allocation
/// can fail.
pub fn with_memory(done: Done) -> Result<Done, AllocError>
    ensures succeeds { done.status ≢ Failed → IsOk result }
    ensures value { IfOk result (λ it. (it ≡ done) × (it.status ≢ Failed)) }
{
    match done.status {
        Status::Failed => Err(AllocError),
        _ => Ok(done),
    }
}

/// Assembles a source, as `fcasm image` does, and returns the status and the output.
///
/// The image is of version 1, with `vars_size` bytes of variables and a budget of `budget` steps.
///
/// # Errors
/// Returns an error if memory can't be allocated.
pub fn assembled(
    alloc: Global,
    text: &[u8],
    vars_size: u16,
    budget: u32,
) -> Result<Done, AllocError>
    ensures { IfOk result (λ it. it.status ≢ Failed) }
{
    let mut out = Vec::new(alloc);
    let mut err = Vec::new(alloc);
    let mut input = text;
    let status = image(
        alloc,
        &mut input,
        &mut out,
        &mut err,
        vars_size,
        Budget::Steps(budget),
        ImageVersion::One,
    );
    with_memory(Done { status, out, err })
}
