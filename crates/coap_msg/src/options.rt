//! The options of a message, decoded from the datagram's bytes.
//!
//! [`Options`] iterates over the options, for readers of a message. For the parser, `split_options`
//! checks the encoding of the options and finds their end.
ghost use Rattle.std.specs.Prelude.{◌≡◌, ◌<◌, ◌+◌, length, nat_lt, IfSome, MatchOption};
ghost use Rattle.std.specs.Iterator.{YieldsFirstBy, item_count};
ghost use Rattle.coap_msg.specs.Reading.{guard, number_at, option_at, options_at};
ghost use Rattle.coap_msg.specs.Parsing.{AreSplit, EndsIn, HasOptions, is_end, options_of};
ghost use Rattle.coap_msg.specs.Options.{IsFirstOf};

use crate::wire::{EXT8_BIAS, EXT16_BIAS, NIBBLE_EXT8, NIBBLE_EXT16, PAYLOAD_MARKER, number_of};
use std::marker::Model;

/// An iterator over a message's options, each with its number and its value.
///
/// Contracts see it as the list of the options that are left, in order.
#[derive(Drop)]
pub struct Options<'a> {
    before: u16,
    bytes: &'a [u8],
}

impl<'a> Model for Options<'a> {
    ghost use Rattle.std.specs.Prelude.{ℕ, List};
    ghost use Rattle.coap_msg.specs.Parsing.{HasOptions, options_of};

    ghost Value = { List (ℕ × List ℕ) };

    ghost view = { λ o. options_of o.before o.bytes.now };

    ghost invariant = { λ o. HasOptions o.before o.bytes.now };
}

impl<'a> Options<'a> {
    /// Makes an iterator over the options that `bytes` encode.
    ///
    /// The caller guarantees that `bytes` encode options and nothing else.
    pub(crate) fn new(bytes: &'a [u8]) -> Self
        requires { HasOptions 0 bytes.now }
        ensures { result ≡ options_of 0 bytes.entry.now }
    {
        Options { before: 0, bytes }
    }
}

impl<'a> Iterator for Options<'a> {
    type Item = (u16, &'a [u8]);

    ghost next_gives = { YieldsFirstBy (λ o. (o.0, o.1.now)) (λ rest. rest) };

    ghost remaining = { item_count (λ rest. rest) };

    fn next(&mut self) -> Option<(u16, &'a [u8])> {
        let option = split_option(self.before, self.bytes)?;
        self.before = option.number;
        self.bytes = option.after;
        Some((option.number, option.value))
    }
}

/// A decoded option, and the bytes after it.
#[derive(Drop)]
struct RawOption<'a> {
    number: u16,
    value: &'a [u8],
    after: &'a [u8],
}

/// Decodes the first option of `bytes`.
///
/// `before` is the number of the option before that one, or 0 for the message's first option.
/// Returns the option with the bytes after it. Returns `None` if `bytes` don't begin with an
/// option, or if its number is above 65,535.
#[tactic(auto, unfolding(crate::specs::Reading::option_at))]
fn split_option(before: u16, bytes: &[u8]) -> Option<RawOption<'_>>
    ensures option { MatchOption result (option_at before bytes.now ≡ None) (IsFirstOf before bytes.now) }
    ensures shorter { IfSome result (λ o. length o.after.now < length bytes.now) }
{
    let [first, rest @ ..] = bytes else {
        return None;
    };
    let (delta, rest) = read_extended(*first / 16, rest)?;
    let (length, rest) = read_extended(*first % 16, rest)?;
    let number = number_above(before, delta)?;
    let (value, after) = rest.split_at_checked(length as usize)?;
    Some(RawOption {
        number,
        value,
        after,
    })
}

/// Decodes a delta or a length from its nibble and its extended value, if any.
///
/// `bytes` begin with the extended value. Returns the number and the bytes after the extended
/// value. Returns `None` if `nibble` is above 14, or if `bytes` are too few.
fn read_extended(nibble: u8, bytes: &[u8]) -> Option<(u32, &[u8])>
    ensures number { MatchOption result (number_at nibble bytes.now ≡ None)
        (λ n. number_at nibble bytes.now ≡ Some (n.0, n.1.now)) }
    ensures below { IfSome result (λ n. n.0 < 65805) }
{
    if nibble < NIBBLE_EXT8 {
        return Some((u32::from(nibble), bytes));
    }
    match bytes {
        [one, rest @ ..] if nibble == NIBBLE_EXT8 => Some((u32::from(*one) + EXT8_BIAS, rest)),
        [high, low, rest @ ..] if nibble == NIBBLE_EXT16 => {
            Some((u32::from(number_of(*high, *low)) + EXT16_BIAS, rest))
        }
        _ => None,
    }
}

/// Adds `delta` to the option number `before`.
///
/// Returns `None` if the sum doesn't fit the 16 bits of an option number.
fn number_above(before: u16, delta: u32) -> Option<u16>
    requires { delta < 65805 }
    ensures { result ≡ guard (nat_lt (before + delta) 65536) (before + delta) }
{
    let number = u32::from(before) + delta;
    if number <= u32::from(u16::MAX) {
        Some(number as u16)
    } else {
        None
    }
}

/// Splits bytes into the options at their start and the bytes after the options.
///
/// Returns `None` if an option is malformed. The parser reads the payload from the second part.
pub(crate) fn split_options(bytes: &[u8]) -> Option<(&[u8], &[u8])>
    ensures { MatchOption result (options_at (length bytes.now) 0 bytes.now ≡ None)
        (λ parts. AreSplit bytes.now parts.0.now parts.1.now) }
{
    let after = after_options(bytes)?;
    let options = &bytes[..bytes.len() - after.len()];
    Some((options, after))
}

/// Returns the bytes after the options at the start of `bytes`.
///
/// Returns `None` if an option is malformed.
fn after_options(bytes: &[u8]) -> Option<&[u8]>
    ensures { MatchOption result (options_at (length bytes.now) 0 bytes.now ≡ None)
        (λ after. EndsIn bytes.now after.now) }
{
    let mut number = 0;
    let mut rest = bytes;
    while !at_end(rest) {
        let option = split_option(number, rest)?;
        number = option.number;
        rest = option.after;
    }
    Some(rest)
}

/// Returns whether `bytes` are empty or begin with the payload marker.
///
/// In both cases they begin with no option.
fn at_end(bytes: &[u8]) -> bool
    ensures { result ≡ is_end bytes.now }
{
    match bytes {
        [] => true,
        [first, ..] => *first == PAYLOAD_MARKER,
    }
}
