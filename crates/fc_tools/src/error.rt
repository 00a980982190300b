//! The errors of the commands, and their explanations.
use crate::diagnosis::{Diagnosis, Rejection};
use crate::explain::{explain, explain_form, explain_line};
use fc_asm::{AsmError, Mistake};
use fc_cli::status::{Status, tell};
use fc_expand::{BadForm, ExpandError};
use std::alloc::{AllocError, Global};
use std::io;
use std::io::Write;
use thiserror::Error;

/// The errors of a command.
#[derive(Debug, Drop, Error)]
pub enum ToolError {
    /// The source has a mistake.
    #[error("{0}")]
    Text(AsmError),
    /// The source has a faulty label, constant, helper's name, number or text.
    #[error("{0}")]
    Form(BadForm),
    /// The source is too long to be read.
    #[error("the text has more than 1048576 bytes")]
    LongText,
    /// The image, or a number of its header, breaks a rule.
    #[error("{0}")]
    Image(Diagnosis),
    /// The given variables have another size than the program's.
    #[error("`--vars` gives {given} bytes, and the image says {wanted}")]
    Variables { given: usize, wanted: u16 },
    /// Reading failed.
    #[error("standard input: {0}")]
    Input(io::Error),
    /// Writing failed.
    #[error("standard output: {0}")]
    Output(io::Error),
    /// Memory couldn't be allocated.
    #[error("{0}")]
    Memory(#[from] AllocError),
}

impl ToolError {
    // Returns the status of a command that ends with this error.
    pub(crate) fn status(&self) -> Status {
        match self {
            ToolError::Text(_) | ToolError::Form(_) => Status::Refused,
            ToolError::LongText | ToolError::Image(_) => Status::Refused,
            ToolError::Variables { .. } => Status::Bad,
            ToolError::Input(_) | ToolError::Output(_) | ToolError::Memory(_) => Status::Failed,
        }
    }
}

impl From<AsmError> for ToolError {
    fn from(error: AsmError) -> Self {
        match error {
            AsmError::NoMemory => ToolError::Memory(AllocError),
            _ => ToolError::Text(error),
        }
    }
}

impl From<ExpandError> for ToolError {
    fn from(error: ExpandError) -> Self {
        match error {
            ExpandError::Faulty(bad) => ToolError::Form(bad),
            ExpandError::NoMemory => ToolError::Memory(AllocError),
        }
    }
}

impl From<Rejection> for ToolError {
    fn from(rejection: Rejection) -> Self {
        match rejection {
            Rejection::Broken(diagnosis) => ToolError::Image(diagnosis),
            Rejection::NoMemory => ToolError::Memory(AllocError),
        }
    }
}

// Writes why there is no result, and for a refusal the change to make.
//
// `text` is the source, for the line with a mistake. Returns the command's status.
pub(crate) fn tell_whole<E: Write>(
    alloc: Global,
    err: &mut E,
    error: &ToolError,
    text: &[u8],
) -> Status {
    let told = tell(err, error, error.status());
    match error {
        ToolError::Text(AsmError::Faulty { mistake, line }) if told == Status::Refused => {
            tell_line(alloc, err, text, *mistake, *line)
        }
        ToolError::Form(bad) if told == Status::Refused => tell_form(err, text, *bad),
        ToolError::Image(diagnosis) if told == Status::Refused => tell_cause(alloc, err, diagnosis),
        _ => told,
    }
}

// Writes why an image is refused.
//
// Returns `Refused`, or `Failed` if writing fails.
pub(crate) fn tell_cause<E: Write>(alloc: Global, err: &mut E, diagnosis: &Diagnosis) -> Status {
    match explain(alloc, err, diagnosis) {
        Ok(()) => Status::Refused,
        Err(error) => tell(err, &error, Status::Failed),
    }
}

// Writes the mistake in a line of a source.
//
// Returns `Refused`, or `Failed` if writing fails.
fn tell_line<E: Write>(
    alloc: Global,
    err: &mut E,
    text: &[u8],
    mistake: Mistake,
    line: usize,
) -> Status {
    match explain_line(alloc, err, text, mistake, line) {
        Ok(()) => Status::Refused,
        Err(error) => tell(err, &error, Status::Failed),
    }
}

// Writes why a source isn't expanded.
//
// Returns `Refused`, or `Failed` if writing fails.
fn tell_form<E: Write>(err: &mut E, text: &[u8], bad: BadForm) -> Status {
    match explain_form(err, text, bad) {
        Ok(()) => Status::Refused,
        Err(error) => tell(err, &error, Status::Failed),
    }
}
