//! Parsing of the lines that `fcd play` plays, and of their fields.
//!
//! Other programs parse numbers and readings with the same functions.
ghost use Rattle.std.specs.Prelude.{◌≡◌, ◌↔◌, ◌∷◌, ◌++◌, ◌^◌, ℕ, List, MatchOption, IfOk, IsTrue};
ghost use Rattle.hex.specs.Hex.{decode_sized};
ghost use Rattle.fc_lines.specs.Fields.{space, dash, device, IsNumber, IsNoNumber, IsUnspaced, AreFields, HasNoFields};
ghost use Rattle.fc_lines.specs.Lines.{IsLine, IsNoLine};
ghost use Rattle.fc_lines.specs.declared.line.LineError.TheVariants.{Bad};

use crate::hexadecimal::decode;
use std::alloc::Global;
use thiserror::Error;

/// The contents of a line.
#[derive(Drop)]
pub enum Line {
    /// A datagram from a peer, at a time in milliseconds.
    Deliver { now: u64, peer: u8, bytes: Vec<u8> },
    /// Time passes, up to a time in milliseconds.
    Tick { now: u64 },
    /// The device's readings, from a time in milliseconds on.
    Device { now: u64, readings: [u8; 64] },
}

/// The reason why a line isn't accepted.
#[derive(Clone, Copy, Debug, PartialEq, Eq, Error)]
pub enum LineError {
    /// The line is neither `now peer hex` nor `now - -` nor `now dev hex`.
    #[error("bad")]
    Bad,
    /// Memory for the line's datagram can't be allocated.
    #[error("out of memory")]
    NoMemory,
}

/// Parses a line, without its line feed.
///
/// A line is `now peer hex`, `now - -`, or `now dev hex` with 128 hex digits.
///
/// # Errors
/// Returns `Bad` if `text` has none of these forms, and `NoMemory` if memory for the datagram can't
/// be allocated.
pub fn parse(alloc: Global, text: &[u8]) -> Result<Line, LineError>
    ensures line { IfOk result (IsLine text.now) }
    ensures bad { result ≡ Err Bad → IsNoLine text.now }
{
    let Some((now, peer, digits)) = fields(text) else {
        return Err(LineError::Bad);
    };
    let Some(now) = number(now) else {
        return Err(LineError::Bad);
    };
    if are_dashes(peer, digits) {
        return Ok(Line::Tick { now });
    }
    if is_device(peer) {
        return match readings(digits) {
            Some(readings) => Ok(Line::Device { now, readings }),
            None => Err(LineError::Bad),
        };
    }
    let Some(peer) = byte(peer) else {
        return Err(LineError::Bad);
    };
    let bytes = decode(alloc, digits)?;
    Ok(Line::Deliver { now, peer, bytes })
}

// Returns whether the second field is `dev`. If it is, the third field has readings.
fn is_device(second: &[u8]) -> bool
    ensures { IsTrue result ↔ (second.now ≡ device) }
{
    second == b"dev".as_slice()
}

/// Parses the device's 64 bytes of readings from 128 hex digits of either case.
///
/// Returns `None` if `digits` isn't 128 hex digits.
pub fn readings(digits: &[u8]) -> Option<[u8; 64]>
    ensures { MatchOption result ((bytes : List ℕ) → decode_sized digits.now 64 ≡ Ok bytes → ⊥)
        (λ readings. decode_sized digits.now 64 ≡ Ok readings) }
{
    let mut readings = [0; 64];
    match hex::decode_to_slice(digits, &mut readings) {
        Ok(()) => Some(readings),
        Err(_) => None,
    }
}

// Returns the three fields of a line, which single spaces separate. The third field may contain
// spaces. Returns `None` if `text` has fewer than two spaces.
fn fields(text: &[u8]) -> Option<(&[u8], &[u8], &[u8])>
    ensures { MatchOption result (HasNoFields text.now) (λ parts. AreFields text.now parts.0.now parts.1.now parts.2.now) }
{
    let (first, rest) = cut(text)?;
    let (second, third) = cut(rest)?;
    Some((first, second, third))
}

// Returns the parts of `text` before and after its first space, or `None` if there is no space.
fn cut(text: &[u8]) -> Option<(&[u8], &[u8])>
    ensures { MatchOption result (IsUnspaced text.now)
        (λ parts. (text.now ≡ parts.0.now ++ (space ∷ parts.1.now)) × IsUnspaced parts.0.now) }
{
    let at = text.iter().position(|byte| *byte == b' ')?;
    Some((&text[..at], &text[at + 1..]))
}

// Returns whether both fields are dashes. If they are, the line is a tick.
fn are_dashes(second: &[u8], third: &[u8]) -> bool
    ensures { IsTrue result ↔ ((second.now ≡ dash) × (third.now ≡ dash)) }
{
    second == b"-".as_slice() && third == b"-".as_slice()
}

/// Parses decimal digits as a number, without a sign.
///
/// Returns `None` if `text` isn't one or more digits, or if the number is 2^64 or more.
pub fn number(text: &[u8]) -> Option<u64>
    ensures { MatchOption result (IsNoNumber text.now (2 ^ 64)) (IsNumber text.now) }
{
    if text.starts_with(b"+") {
        return None;
    }
    let Ok(digits) = str::from_utf8(text) else {
        return None;
    };
    digits.parse::<u64>().ok()
}

/// Parses decimal digits as a number below 256.
///
/// Returns `None` if `text` isn't one or more digits, or if the number is 256 or more.
pub fn byte(text: &[u8]) -> Option<u8>
    ensures { MatchOption result (IsNoNumber text.now 256) (IsNumber text.now) }
{
    u8::try_from(number(text)?).ok()
}
