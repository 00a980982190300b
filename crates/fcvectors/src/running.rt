//! The execution of cases.
use crate::case::{CaseError, Output, Vector, is_command, is_vector, vector_of};
use crate::line::CaseLine;
use crate::stage::{is_play, output_of};
use fc_cli::Status;
use std::alloc::AllocError;
use std::io;
use std::io::Write;
use std::sync::Wait;
use std::thread::Threads;

/// The players of lines: this thread alone, one worker, and two workers.
static PLAYERS: [Option<u8>; 3] = [None, Some(1), Some(2)];

/// The actual output of a vector, if the expected output doesn't allow it.
#[derive(Drop)]
pub(crate) struct Difference {
    /// The number of the vector's first line, counted from 1.
    pub(crate) line: usize,
    pub(crate) workers: Option<u8>,
    pub(crate) came: Output,
}

/// Executes the vectors of a case, up to the first that differs.
///
/// Returns that vector's actual output, or `None` if no vector differs. If one of the lines before
/// the first command isn't blank, these lines are a vector with the command `command`.
///
/// # Errors
/// Returns `BadCommand` if a vector has no command or an unknown one, and `Memory` if memory can't
/// be allocated.
pub(crate) fn check_case<'a, R: AllocGlobal + Threads + Wait + Sync>(
    rt: &R,
    lines: &[CaseLine<'a>],
    command: &'a [u8],
) -> Result<Option<Difference>, CaseError> {
    let mut line = 1usize;
    for part in lines.chunk_by(|_, next| !is_command(next)) {
        if is_vector(part) {
            let vector = vector_of(rt.alloc(), part, command)?;
            if let Some(difference) = check_vector(rt, &vector, line)? {
                return Ok(Some(difference));
            }
        }
        line = line.saturating_add(part.len());
    }
    Ok(None)
}

// Executes the vector at this line, or, if the vector plays lines, executes it with each of the
// players. Returns the first difference, or `None` if there is none.
fn check_vector<R: AllocGlobal + Threads + Wait + Sync>(
    rt: &R,
    vector: &Vector<'_>,
    line: usize,
) -> Result<Option<Difference>, CaseError> {
    for workers in players_of(vector.command).iter().copied() {
        let came = match output_of(rt, workers, vector.command, &vector.stdin)? {
            Some(came) => came,
            None => return Err(CaseError::BadCommand(line)),
        };
        if !vector.output.allows(&came) {
            return found(line, workers, came).map(Some);
        }
    }
    Ok(None)
}

// Returns all players for a command whose last stage plays, and only the first player for any other
// command.
fn players_of(command: &[u8]) -> &'static [Option<u8>] {
    if is_play(command) {
        &PLAYERS
    } else {
        &PLAYERS[..1]
    }
}

// Makes a difference of an actual output. If its status is `Failed`, returns the error `Memory`
// instead: the vector failed because memory couldn't be allocated.
fn found(line: usize, workers: Option<u8>, came: Output) -> Result<Difference, CaseError> {
    if came.status == Status::Failed {
        return Err(CaseError::Memory(AllocError));
    }
    Ok(Difference {
        line,
        workers,
        came,
    })
}

impl Difference {
    /// Prints the difference to `err`, after `name`, the name of the case.
    ///
    /// It prints the vector's line, the number of workers if there are any, and the actual status
    /// and output.
    ///
    /// # Errors
    /// Returns the writer's error.
    pub(crate) fn tell<E: Write>(&self, err: &mut E, name: &str) -> io::Result<()> {
        let Output {
            status,
            stdout,
            stderr,
        } = &self.came;
        write!(err, "{name}: line {}", self.line)?;
        if let Some(workers) = self.workers {
            write!(err, ", by {workers} workers")?;
        }
        writeln!(err, ", ends {status:?}, prints")?;
        err.write_all(stdout)?;
        writeln!(err, "and tells")?;
        err.write_all(stderr)
    }
}
