//! Sources with nothing to expand.
ghost use Rattle.std.specs.Prelude.{OnOk, map, ◌++◌, ◌≡◌};
ghost use Rattle.fc_expand.specs.Expanded.{as_space, begins_mark, begins_number, is_mark, is_short_form, is_plain_but_for_tabs};

use crate::words::{is_tab, parts_words};
use std::alloc::AllocError;

/// Returns whether a source has nothing to expand but tabs and carriage returns.
///
/// That is so if no mark begins anywhere in the source. `expand` then only replaces tabs and
/// carriage returns by spaces.
pub(crate) fn is_plain_but_for_tabs(text: &[u8]) -> bool
    ensures { result ≡ is_plain_but_for_tabs text.now }
{
    for at in 0..text.len() {
        if begins_mark(&text[at..]) {
            return false;
        }
    }
    true
}

/// Returns whether the text begins with a mark.
///
/// A mark is one of `:`, `'`, `"`, `0x` and `.c`, or `call` followed by a separator and then
/// neither a digit nor `-`.
fn begins_mark(rest: &[u8]) -> bool
    ensures { result ≡ begins_mark rest.now }
{
    match rest {
        [c, a, l, m, between, first, ..] if *c == b'c' && *a == b'a' && *l == b'l' && *m == b'l' =>
            parts_words(*between) && !begins_number(*first),
        [a, b, ..] => is_mark(*a) || is_pair(*a, *b),
        [a] => is_mark(*a),
        [] => false,
    }
}

/// Returns whether a byte by itself is a mark.
fn is_mark(byte: u8) -> bool
    ensures { result ≡ is_mark byte }
{
    byte == b':' || byte == b'\'' || byte == b'"'
}

/// Returns whether two bytes are a mark: `0x` or `.c`.
fn is_pair(first: u8, second: u8) -> bool
    ensures { result ≡ is_short_form first second }
{
    (first == b'0' && second == b'x') || (first == b'.' && second == b'c')
}

/// Returns whether a byte is a digit or `-`.
fn begins_number(byte: u8) -> bool
    ensures { result ≡ begins_number byte }
{
    byte == b'-' || byte.is_ascii_digit()
}

/// Appends bytes, with spaces for tabs and carriage returns.
///
/// # Errors
/// Returns `AllocError` if memory can't be allocated.
pub(crate) fn push_spaced(out: &mut Vec<u8>, bytes: &[u8]) -> Result<(), AllocError>
    ensures { OnOk result (out.new.items ≡ out.old.items ++ map as_space bytes.now) }
{
    for byte in bytes {
        out.push(as_space(*byte))?;
    }
    Ok(())
}

/// Returns a space for a tab or a carriage return, and any other byte unchanged.
fn as_space(byte: u8) -> u8
    ensures { result ≡ as_space byte }
{
    if is_tab(byte) { b' ' } else { byte }
}
