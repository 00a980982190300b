//! Cases: files of vectors.
//!
//! A vector consists of a command, the command's input, and the expected output.
ghost use Rattle.std.specs.Prelude.{◌≡◌, ◌++◌, ◌∷◌, [], IfOk, IfSome, OnOk, IsTrue};
ghost use Rattle.std.specs.List.{flat_map};
ghost use Rattle.fcvectors.specs.Cases.{AreLines, Allows, AllowsTold, IsVectorOf, dots, last_status, piece_bytes, status_after};

use crate::line::{CaseLine, Stream, parse};
use fc_cli::Status;
use std::alloc::{AllocError, Global};
use thiserror::Error;

/// The reason why a case isn't executed.
#[derive(Debug, Drop, Error)]
pub(crate) enum CaseError {
    /// The line with this number, counted from 1, has no known form.
    #[error("line {0}: no line of a case")]
    BadLine(usize),
    /// The vector in this line has no command, or an unknown one.
    #[error("line {0}: no command of a vector")]
    BadCommand(usize),
    /// Memory couldn't be allocated.
    #[error("{0}")]
    Memory(#[from] AllocError),
}

/// The exit status of a program, and its output.
#[derive(Drop)]
pub(crate) struct Output {
    pub(crate) status: Status,
    pub(crate) stdout: Vec<u8>,
    pub(crate) stderr: Vec<u8>,
}

/// A vector: a command, the command's input, and the expected output.
#[derive(Drop)]
pub(crate) struct Vector<'a> {
    pub(crate) command: &'a [u8],
    pub(crate) stdin: Vec<u8>,
    pub(crate) output: Output,
}

/// Parses the lines of a case.
///
/// # Errors
/// Returns `BadLine` with the number of the first malformed line, or `Memory` if memory can't be
/// allocated.
pub(crate) fn lines_of(alloc: Global, text: &[u8]) -> Result<Vec<CaseLine<'_>>, CaseError>
    ensures { IfOk result (λ lines. AreLines text.now lines.items) }
{
    let mut lines = Vec::new(alloc);
    let mut number = 0usize;
    for line in text.split(|byte| *byte == b'\n') {
        number = number.saturating_add(1);
        match parse(line) {
            Some(line) => append_line(&mut lines, line)?,
            None => return Err(CaseError::BadLine(number)),
        }
    }
    Ok(lines)
}

fn append_line<'a>(lines: &mut Vec<CaseLine<'a>>, line: CaseLine<'a>) -> Result<(), AllocError>
    ensures { OnOk result (lines.new.items ≡ lines.old.items ++ (line.entry ∷ [])) }
{
    lines.push(line)?;
    Ok(())
}

/// Returns whether a line begins a vector.
pub(crate) fn is_command(line: &CaseLine<'_>) -> bool {
    matches!(line, CaseLine::Command(_))
}

/// Returns whether these lines are a vector.
///
/// They are if at least one of them isn't blank.
pub(crate) fn is_vector(lines: &[CaseLine<'_>]) -> bool {
    lines.iter().any(|line| !matches!(line, CaseLine::Blank))
}

/// Returns the vector of these lines.
///
/// The vector's command is that of the first line, or `command` if the first line has none.
///
/// # Errors
/// Returns `AllocError` if memory can't be allocated.
pub(crate) fn vector_of<'a>(
    alloc: Global,
    lines: &[CaseLine<'a>],
    command: &'a [u8],
) -> Result<Vector<'a>, AllocError>
    ensures { IfOk result (IsVectorOf lines.now) }
{
    Ok(Vector {
        command: command_of(lines).unwrap_or(command),
        stdin: bytes_of(alloc, lines, Stream::Stdin)?,
        output: Output {
            status: status_of(lines),
            stdout: bytes_of(alloc, lines, Stream::Stdout)?,
            stderr: bytes_of(alloc, lines, Stream::Stderr)?,
        },
    })
}

// Returns the command of the first line, or `None` if that line has none.
fn command_of<'a>(lines: &[CaseLine<'a>]) -> Option<&'a [u8]> {
    match lines.first() {
        Some(CaseLine::Command(command)) => Some(command),
        _ => None,
    }
}

// Returns the bytes of a stream: those of the stream's pieces in the lines, in order. Returns an
// error if memory can't be allocated.
fn bytes_of(alloc: Global, lines: &[CaseLine<'_>], stream: Stream) -> Result<Vec<u8>, AllocError>
    ensures { IfOk result (λ bytes. bytes.items ≡ flat_map (piece_bytes stream) lines.now) }
{
    let mut bytes = Vec::new(alloc);
    for line in lines {
        append_piece(line, stream, &mut bytes)?;
    }
    Ok(bytes)
}

// Appends the bytes of a line if the line is a piece of `stream`. Any other line appends nothing.
// Returns an error if memory can't be allocated.
fn append_piece(line: &CaseLine<'_>, stream: Stream, bytes: &mut Vec<u8>) -> Result<(), AllocError>
    ensures { OnOk result (bytes.new.items ≡ bytes.old.items ++ piece_bytes stream line.now) }
{
    match line {
        CaseLine::Piece(of, copies) if *of == stream => copies.append_to(bytes),
        _ => Ok(()),
    }
}

// Returns the status of the last line that gives one, or `Done` if none does.
fn status_of(lines: &[CaseLine<'_>]) -> Status
    ensures { result ≡ last_status lines.now }
{
    lines
        .iter()
        .fold(Status::Done, |status, line| status_after(status, line))
}

// Returns the status that a line gives. For a line without a status, returns `status`, which is
// that of the lines before.
fn status_after(status: Status, line: &CaseLine<'_>) -> Status
    ensures { result ≡ status_after status line.now }
{
    match line {
        CaseLine::Ending(said) => *said,
        CaseLine::Blank | CaseLine::Command(_) | CaseLine::Piece(..) => status,
    }
}

impl Output {
    /// Returns whether this expected output allows the output `other`.
    ///
    /// If `true`, `other` has the same status and standard output, and its standard error:
    ///
    /// - is the expected one;
    /// - or begins with the expected one up to `..` and a line feed at the end;
    /// - or, if none is expected, is empty exactly if the status is `Done`.
    ///
    /// The contract says nothing if `false`.
    pub(crate) fn allows(&self, other: &Output) -> bool
        ensures { IsTrue result → Allows self.now other.now }
    {
        self.status == other.status
            && self.stdout == other.stdout
            && self.allows_told(&other.stderr)
    }

    // Returns whether this expected output allows the bytes `told` on standard error. See `allows`.
    fn allows_told(&self, told: &[u8]) -> bool
        ensures { IsTrue result → AllowsTold self.now.status self.now.stderr.items told.now }
    {
        if self.stderr.is_empty() {
            return told.is_empty() == (self.status == Status::Done);
        }
        match before_dots(&self.stderr) {
            Some(start) => told.starts_with(start),
            None => self.stderr.as_slice() == told,
        }
    }
}

// Returns the text before `..` and a line feed at the end, or `None` if it doesn't end with these.
fn before_dots(said: &[u8]) -> Option<&[u8]>
    ensures { IfSome result (λ start. said.now ≡ start.now ++ dots) }
{
    said.strip_suffix(b"..\n".as_slice())
}
