//! The lines of a case.
ghost use Rattle.std.specs.Prelude.{◌≡◌, ◌++◌, List, ℕ, IfSome, MatchOption, OnOk};
ghost use Rattle.fcvectors.specs.Lines.{IsCaseLine, HasMark, IsPieceOf, IsCounted, IsPiece, IsWordOf, copies_bytes, copy_bytes};

use fc_cli::Status;
use fc_lines::line::number;
use std::alloc::AllocError;

/// A standard stream of a program. A vector gives the bytes of each.
#[derive(Clone, Copy, Debug, PartialEq, Eq)]
pub(crate) enum Stream {
    Stdin,
    Stdout,
    Stderr,
}

/// Copies of a text, each with or without a line feed after it.
#[derive(Clone, Copy)]
pub(crate) struct Copies<'a> {
    pub(crate) count: u64,
    pub(crate) text: &'a [u8],
    pub(crate) ends_line: bool,
}

/// A line of a case.
#[derive(Clone, Copy)]
pub(crate) enum CaseLine<'a> {
    /// An empty line, or a comment.
    Blank,
    /// The start of a vector, with its command.
    Command(&'a [u8]),
    /// A piece of a stream.
    Piece(Stream, Copies<'a>),
    /// The status with which the vector is expected to end.
    Ending(Status),
}

impl Copies<'_> {
    /// Appends the copies to a stream's bytes.
    ///
    /// # Errors
    /// Returns `AllocError` if memory can't be allocated.
    pub(crate) fn append_to(&self, bytes: &mut Vec<u8>) -> Result<(), AllocError>
        ensures { OnOk result (bytes.new.items ≡ bytes.old.items ++ copies_bytes self.now) }
    {
        for _ in 0..self.count {
            self.append_one(bytes)?;
        }
        Ok(())
    }

    // Appends one of the copies. Returns `AllocError` if memory can't be allocated.
    fn append_one(&self, bytes: &mut Vec<u8>) -> Result<(), AllocError>
        ensures { OnOk result (bytes.new.items ≡ bytes.old.items ++ copy_bytes self.now) }
    {
        bytes.extend_from_slice(self.text)?;
        if self.ends_line {
            bytes.push(b'\n')?;
        }
        Ok(())
    }
}

/// Parses a line of a case, without its line feed.
///
/// - An empty line, or one that begins with `#`: blank.
/// - `$ COMMAND`: the start of a vector.
/// - `> PIECE`: a piece of standard output.
/// - `! PIECE`: a piece of standard error.
/// - `= refused`, `= bad` or `= failed`: the expected status.
/// - Any other line: a piece of standard input.
///
/// A piece is a text, or `*N*TEXT`, which is N copies of the text. A line feed follows each copy,
/// unless the piece ends with `\`. Returns `None` if the line is malformed.
pub(crate) fn parse(line: &[u8]) -> Option<CaseLine<'_>>
    ensures { IfSome result (IsCaseLine line.now) }
{
    if line.is_empty() || line.starts_with(b"#") {
        return Some(CaseLine::Blank);
    }
    if let Some(command) = after_mark(line, b'$') {
        return Some(CaseLine::Command(command));
    }
    if let Some(word) = after_mark(line, b'=') {
        return Some(CaseLine::Ending(status_named(word)?));
    }
    let (stream, piece) = piece_of(line);
    Some(CaseLine::Piece(stream, copies_of(piece)?))
}

// Returns the stream and the piece of a line that is neither a command nor a status.
fn piece_of(line: &[u8]) -> (Stream, &[u8])
    ensures { IsPieceOf line.now result.0 result.1.now }
{
    if let Some(piece) = after_mark(line, b'>') {
        return (Stream::Stdout, piece);
    }
    match after_mark(line, b'!') {
        Some(piece) => (Stream::Stderr, piece),
        None => (Stream::Stdin, line),
    }
}

// Returns the text after `mark` and a space at the start of a line, or an empty text if the line is
// `mark` alone. Returns `None` for any other line.
fn after_mark(line: &[u8], mark: u8) -> Option<&[u8]>
    ensures { MatchOption result ((text : List ℕ) → HasMark mark line.now text → ⊥) (λ text. HasMark mark line.now text.now) }
{
    let (first, rest) = line.split_first()?;
    if *first != mark {
        return None;
    }
    match rest.split_first() {
        None => Some(rest),
        Some((space, text)) => { if *space == b' ' { Some(text) } else { None } }
    }
}

// Returns the copies that a piece represents, or `None` if the piece is malformed.
fn copies_of(piece: &[u8]) -> Option<Copies<'_>>
    ensures { IfSome result (IsPiece piece.now) }
{
    match piece.strip_suffix(b"\\".as_slice()) {
        Some(text) => counted(text, false),
        None => counted(piece, true),
    }
}

// Returns N copies of TEXT if `text` is `*N*TEXT`, and one copy if `text` doesn't begin with `*`.
// Returns `None` if no number and second `*` follow a `*` at the start. `ends_line` says whether a
// line feed follows each copy.
fn counted(text: &[u8], ends_line: bool) -> Option<Copies<'_>>
    ensures copies { IfSome result (λ copies. IsCounted text.now copies.count copies.text.now) }
    ensures ends_line { IfSome result (λ copies. copies.ends_line ≡ ends_line) }
{
    let Some(rest) = text.strip_prefix(b"*".as_slice()) else {
        return Some(Copies {
            count: 1,
            text,
            ends_line,
        });
    };
    let star = rest.iter().position(|byte| *byte == b'*')?;
    let count = number(&rest[..star])?;
    Some(Copies {
        count,
        text: &rest[star + 1..],
        ends_line,
    })
}

// Returns the status that this word names, or `None` if it names none. No word names `Done`.
fn status_named(word: &[u8]) -> Option<Status>
    ensures { IfSome result (λ status. IsWordOf status word.now) }
{
    match word {
        b"refused" => Some(Status::Refused),
        b"bad" => Some(Status::Bad),
        b"failed" => Some(Status::Failed),
        _ => None,
    }
}
