//! The printed form of a response, to a request or to an observer.
ghost use Rattle.std.specs.Prelude.{◌≡◌, MatchOption, OnOk, false, true};
ghost use Rattle.std.specs.List.{list_all};
ghost use Rattle.std.specs.Str.{chars};
ghost use Rattle.std.specs.Io.KnownBytes.{Appends};
ghost use Rattle.coap_msg.specs.Codes.{code_text};
ghost use Rattle.fc_fetch.specs.Fetching.{answer_text, ended_line};
ghost use Rattle.fc_fetch.specs.Rendering.{note_text};
ghost use Rattle.fc_fetch.specs.Printing as spec;

use coap_client::Fetched;
use coap_msg::Code;
use std::alloc::{AllocError, Global};
use std::io;
use std::io::Write;
use thiserror::Error;

/// The printed form of a response's bytes.
#[derive(Clone, Copy, Debug, PartialEq, Eq)]
pub enum Shown {
    /// In hex.
    Hex,
    /// As text if possible, else in hex.
    ///
    /// Bytes are text if they are UTF-8 without control characters other than tabs and line feeds.
    Text,
}

/// The reason why a response isn't printed.
#[derive(Debug, Drop, Error)]
pub enum PrintError {
    /// The output can't be written.
    #[error("standard output: {0}")]
    Output(#[from] io::Error),
    /// Memory for the digits can't be allocated.
    #[error("{0}")]
    Memory(#[from] AllocError),
}

/// Writes a response's code, and its bytes on a line of their own if it has any.
///
/// # Errors
/// Returns an error if the output can't be written, or if memory for the digits can't be allocated.
pub fn write_answer<W: Write>(
    alloc: Global,
    out: &mut W,
    shown: Shown,
    fetched: &Fetched,
) -> Result<(), PrintError>
    ensures { OnOk result (Appends (W.contents out.old) (W.contents out.new)
        (answer_text shown fetched.now.code.byte fetched.now.body.items)) }
{
    let code = fetched.code;
    writeln!(out, "{code}")?;
    if !fetched.body.is_empty() {
        match text_of(shown, &fetched.body) {
            Some(text) => writeln!(out, "{text}")?,
            None => {
                let digits = hex::encode(alloc, &fetched.body)?;
                writeln!(out, "{digits}")?;
            }
        }
    }
    out.flush()?;
    Ok(())
}

/// Writes the code alone, on a line, for a success whose bytes go to a file.
///
/// # Errors
/// Returns an error if the output can't be written.
pub fn write_code<W: Write>(out: &mut W, code: Code) -> Result<(), PrintError>
    ensures { OnOk result (Appends (W.contents out.old) (W.contents out.new) (ended_line (code_text code.byte))) }
{
    writeln!(out, "{code}")?;
    out.flush()?;
    Ok(())
}

/// Writes the bytes of a success unchanged, to the file that is named for them.
///
/// # Errors
/// Returns an error if the bytes can't be written.
pub fn write_bytes<W: Write>(out: &mut W, bytes: &[u8]) -> io::Result<()>
    ensures { OnOk result (Appends (W.contents out.old) (W.contents out.new) bytes.now) }
{
    out.write_all(bytes)?;
    out.flush()
}

/// Writes a state on one line.
///
/// The line has the code and, if there is a payload, a space and the payload. The payload is
/// printed as text if `shown` is `Text` and the payload is text without a line feed. Otherwise it
/// is in hex.
///
/// # Errors
/// Returns an error if the output can't be written, or if memory for the digits can't be allocated.
pub fn write_note<W: Write>(
    alloc: Global,
    out: &mut W,
    shown: Shown,
    code: Code,
    payload: &[u8],
) -> Result<(), PrintError>
    ensures { OnOk result (Appends (W.contents out.old) (W.contents out.new) (note_text shown code.byte payload.now)) }
{
    if payload.is_empty() {
        writeln!(out, "{code}")?;
    } else {
        match line_of(shown, payload) {
            Some(text) => writeln!(out, "{code} {text}")?,
            None => {
                let digits = hex::encode(alloc, payload)?;
                writeln!(out, "{code} {digits}")?;
            }
        }
    }
    out.flush()?;
    Ok(())
}

// Returns the bytes as text on one line, or `None` if they are to be printed in hex. They are text
// if `shown` is `Text`, and if they are UTF-8 without control characters other than tabs.
fn line_of(shown: Shown, bytes: &[u8]) -> Option<&str>
    ensures { spec.IsShownLine shown bytes.now result }
{
    if bytes.contains(&b'\n') {
        None
    } else {
        text_of(shown, bytes)
    }
}

// Returns the bytes as text, or `None` if they are to be printed in hex. They are text if `shown`
// is `Text`, and if they are UTF-8 without control characters other than tabs and line feeds.
fn text_of(shown: Shown, bytes: &[u8]) -> Option<&str>
    ensures { spec.IsShownText shown bytes.now result }
{
    match shown {
        Shown::Hex => None,
        Shown::Text => plain_text(bytes),
    }
}

// Returns the bytes as text, or `None` if they aren't UTF-8 or have a control character that is
// neither a tab nor a line feed.
fn plain_text(bytes: &[u8]) -> Option<&str>
    ensures { MatchOption result (spec.is_text bytes.now ≡ false) (λ text. (spec.is_text bytes.now ≡ true) × (text.now ≡ bytes.now)) }
{
    let Ok(text) = str::from_utf8(bytes) else {
        return None;
    };
    if are_plain(text) { Some(text) } else { None }
}

// Returns whether each character of a text is a tab, a line feed, or not a control character.
fn are_plain(text: &str) -> bool
    ensures { result ≡ list_all spec.is_shown_char (chars text.now) }
{
    text.chars().all(is_shown_char)
}

// Returns whether a character is a tab, a line feed, or not a control character (Unicode, general
// category Cc).
fn is_shown_char(character: char) -> bool
    ensures { result ≡ spec.is_shown_char character }
{
    match character {
        '\t' | '\n' => true,
        other => !other.is_control(),
    }
}
