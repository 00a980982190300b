//! Exit statuses of the programs.
ghost use Rattle.fc_cli.specs.Ending.{IsEnding};

use std::fmt::Display;
use std::io::Write;
use std::process::ExitCode;

/// The outcome of a program.
#[derive(Clone, Copy, Debug, PartialEq, Eq)]
pub enum Status {
    /// The work is done: exit status 0.
    Done,
    /// A text or an image is refused: exit status 1.
    Refused,
    /// A line or the command line is bad: exit status 2.
    Bad,
    /// Reading, writing or an allocation failed: exit status 3.
    Failed,
}

impl From<Status> for ExitCode {
    ghost use Rattle.std.specs.Prelude.{◌≡◌};
    ghost use Rattle.std.specs.Process.{exit_status};
    ghost use Rattle.fc_cli.specs.Ending.{status_number};

    ghost from_gives = { λ status code. exit_status code ≡ status_number status };

    fn from(status: Status) -> ExitCode {
        ExitCode::from(match status {
            Status::Done => 0u8,
            Status::Refused => 1,
            Status::Bad => 2,
            Status::Failed => 3,
        })
    }
}

/// Writes `why`, the reason for ending with `status`, and a line feed to `err`.
///
/// Returns `status`, or `Failed` if writing fails.
pub fn tell<E: Write, D: Display>(err: &mut E, why: &D, status: Status) -> Status
    ensures { IsEnding status result }
{
    match writeln!(err, "{why}") {
        Ok(()) => status,
        Err(_) => Status::Failed,
    }
}
