//! Numbers as a source writes them: characters, texts, and hexadecimal digits.
ghost use Rattle.std.specs.Prelude.{IfOk, length, ◌+◌, ◌≤◌};

use crate::form::Form;
use crate::words::{is_ended, is_space, word_size};
use std::alloc::{AllocError, AllocFailed, Global};

/// The reason why a line isn't expanded.
#[derive(Clone, Copy)]
pub(crate) enum PieceError {
    Form(Form),
    NoMemory,
}

impl From<AllocError> for PieceError {
    fn from(_error: AllocError) -> Self {
        PieceError::NoMemory
    }
}

impl<T: Drop> From<AllocFailed<T>> for PieceError {
    fn from(_error: AllocFailed<T>) -> Self {
        PieceError::NoMemory
    }
}

/// Appends the number that `rest` begins with, or its first word otherwise.
///
/// Returns the number of bytes of `rest` that the appended number or word replaces.
///
/// # Errors
/// Returns the mistake in a character, a text or a hexadecimal number, or `NoMemory` if memory
/// can't be allocated.
pub(crate) fn number_piece(
    out: &mut Vec<u8>,
    rest: &[u8],
    alloc: Global,
) -> Result<usize, PieceError>
    ensures { IfOk result (λ n. n ≤ length rest.now) }
{
    match rest {
        [b'\'', more @ ..] => character(out, more, alloc),
        [b'.', b't', b'e', b'x', b't', more @ ..] => packed(out, more, alloc),
        _ => {
            let size = word_size(rest);
            push_word(out, &rest[..size], alloc)?;
            Ok(size)
        }
    }
}

/// Appends the code of a character; `more` is the text after its first `'`.
///
/// Returns the number of bytes from the first `'` to the second, both included.
///
/// # Errors
/// Returns the mistake `Character` if there isn't one printed character, a second `'` and the end
/// of the word. Returns `NoMemory` if memory can't be allocated.
fn character(out: &mut Vec<u8>, more: &[u8], alloc: Global) -> Result<usize, PieceError>
    ensures { IfOk result (λ n. n ≤ length more.now + 1) }
{
    match more {
        [byte, b'\'', after @ ..] if is_printed(*byte) && is_ended(after) => {
            push_number(out, alloc, u64::from(*byte))?;
            Ok(3)
        }
        _ => Err(PieceError::Form(Form::Character)),
    }
}

/// Returns whether the byte is printed ASCII, space to `~`.
fn is_printed(byte: u8) -> bool {
    byte == b' ' || byte.is_ascii_graphic()
}

/// Appends the number of a text; `more` is the source after its `.text`.
///
/// Returns the number of bytes from `.text` to the second `"`, both included.
///
/// # Errors
/// Returns the mistake `Packed` or `LongPacked` of a malformed text, or `NoMemory` if memory can't
/// be allocated.
fn packed(out: &mut Vec<u8>, more: &[u8], alloc: Global) -> Result<usize, PieceError>
    ensures { IfOk result (λ n. n ≤ length more.now + 5) }
{
    let Some(spaces) = more.iter().position(|byte| !is_space(*byte)) else {
        return Err(PieceError::Form(Form::Packed));
    };
    let [b'"', text @ ..] = &more[spaces..] else {
        return Err(PieceError::Form(Form::Packed));
    };
    let Some(size) = text.iter().position(|byte| *byte == b'"') else {
        return Err(PieceError::Form(Form::Packed));
    };
    if !is_ended(&text[size + 1..]) {
        return Err(PieceError::Form(Form::Packed));
    }
    push_number(out, alloc, packed_number(&text[..size])?)?;
    Ok(5 + spaces + 1 + size + 1)
}

/// Returns the number whose bytes, in little-endian order, are the characters.
///
/// # Errors
/// Returns the mistake in a text that has more than eight characters, or characters other than
/// printed ASCII.
fn packed_number(text: &[u8]) -> Result<u64, PieceError> {
    if text.len() > 8 {
        return Err(PieceError::Form(Form::LongPacked));
    }
    if !text.iter().all(|byte| is_printed(*byte)) {
        return Err(PieceError::Form(Form::Packed));
    }
    let mut bytes = [0; 8];
    bytes[..text.len()].copy_from_slice(text);
    Ok(u64::from_le_bytes(bytes))
}

/// Appends a word, or the number that its hexadecimal digits represent.
///
/// # Errors
/// Returns the mistake `LongNumber` if the number has more than 64 bits, or `NoMemory` if memory
/// can't be allocated.
pub(crate) fn push_word(out: &mut Vec<u8>, word: &[u8], alloc: Global) -> Result<(), PieceError> {
    match word {
        [b'-', b'0', b'x', digits @ ..] if is_hex(digits) => {
            out.push(b'-')?;
            push_number(out, alloc, hexadecimal(digits)?)
        }
        [b'0', b'x', digits @ ..] if is_hex(digits) => {
            push_number(out, alloc, hexadecimal(digits)?)
        }
        _ => Ok(out.extend_from_slice(word)?),
    }
}

fn is_hex(digits: &[u8]) -> bool {
    !digits.is_empty() && digits.iter().all(|digit| digit.is_ascii_hexdigit())
}

/// Returns the number that hexadecimal digits represent.
///
/// # Errors
/// Returns the mistake `LongNumber` if the number has more than 64 bits.
fn hexadecimal(digits: &[u8]) -> Result<u64, PieceError> {
    match str::from_utf8(digits) {
        Ok(digits) => match u64::from_str_radix(digits, 16) {
            Ok(number) => Ok(number),
            Err(_) => Err(PieceError::Form(Form::LongNumber)),
        },
        Err(_) => Err(PieceError::Form(Form::LongNumber)),
    }
}

/// Appends a number in decimal digits.
///
/// # Errors
/// Returns `NoMemory` if memory can't be allocated.
pub(crate) fn push_number(out: &mut Vec<u8>, alloc: Global, number: u64) -> Result<(), PieceError> {
    let text = format!(in alloc; "{number}")?;
    Ok(out.extend_from_slice(text.as_bytes())?)
}

/// Returns whether a word is a decimal number.
pub(crate) fn is_number(word: &[u8]) -> bool {
    match word {
        [b'-', digits @ ..] => is_decimal(digits),
        digits => is_decimal(digits),
    }
}

fn is_decimal(digits: &[u8]) -> bool {
    !digits.is_empty() && digits.iter().all(|digit| digit.is_ascii_digit())
}
