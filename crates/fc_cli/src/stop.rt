//! The reasons why a program that reads lines stops.
ghost use Rattle.std.specs.Prelude.{◌≡◌, ◌≢◌, ℕ};
ghost use Rattle.std.specs.IoError.{error_kind};
ghost use Rattle.fc_cli.specs.Stops.{status_of};

use crate::status::Status;
use std::alloc::AllocError;
use std::io;
use std::io::ErrorKind;
use thiserror::Error;

/// The reason why a program stops before the end of its lines or its output.
#[derive(Debug, Drop, Error)]
pub enum Stop {
    /// The line with this number, counted from 1, has no valid form.
    #[error("line {0}: bad")]
    BadLine(u64),
    /// Reading failed.
    #[error("standard input: {0}")]
    Input(io::Error),
    /// Writing failed; part of the output may be printed.
    #[error("standard output: {0}")]
    Output(#[from] io::Error),
    /// Memory can't be allocated.
    #[error("{0}")]
    Memory(#[from] AllocError),
}

impl Stop {
    /// Makes a reason from the error of reading the line with this number.
    ///
    /// The reason is `BadLine` if the reader reports `InvalidData`, for example for a line that is
    /// too long. Any other error makes the reason `Input`.
    pub fn at_line(error: io::Error, number: u64) -> Stop
        ensures bad { error_kind error ≡ ErrorKind.InvalidData → result ≡ Stop.BadLine number }
        ensures failed { error_kind error ≢ ErrorKind.InvalidData → result ≡ Stop.Input error }
        ensures numbered { (line : ℕ) → result ≡ Stop.BadLine line → line ≡ number }
    {
        match error.kind() {
            ErrorKind::InvalidData => Stop::BadLine(number),
            _ => Stop::Input(error),
        }
    }

    /// Returns the status of a program that stops for this reason.
    pub fn status(&self) -> Status
        ensures { result ≡ status_of self.now }
    {
        match self {
            Stop::BadLine(_) => Status::Bad,
            Stop::Input(_) | Stop::Output(_) | Stop::Memory(_) => Status::Failed,
        }
    }
}
