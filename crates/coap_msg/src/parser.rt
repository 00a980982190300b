//! Parsing: from a datagram to a message.
ghost use Rattle.std.specs.Prelude.{◌≡◌, ◌/◌, ◌==◌, IfErr, IfOk, MatchOption, Ok};
ghost use Rattle.coap_msg.specs.Wire.{Message as Stated, SpellsMessage};
ghost use Rattle.coap_msg.specs.Reading.{IsBad, bad_of, is_sized, message_by, message_of, payload_at, reading_of};
ghost use Rattle.coap_msg.specs.Reading as spec;

use crate::code::Code;
use crate::message::Message;
use crate::options::split_options;
use crate::types::{Bad, DATAGRAM, MessageType, TOKEN};
use crate::wire::{
    ACKNOWLEDGEMENT, CONFIRMABLE, HEADER, NON_CONFIRMABLE, PAYLOAD_MARKER, RESET, number_of,
};

/// Parses the message that a datagram encodes, without copying.
///
/// The format is that of RFC 7252, section 3.
///
/// # Errors
/// Returns [`Bad`] if the datagram encodes no message: `Reset` with the message ID for a
/// confirmable message with a format error, and `Ignore` for everything else.
pub fn read(bytes: &[u8]) -> Result<Message<'_>, Bad>
    ensures message { IfOk result (SpellsMessage bytes.now) }
    ensures spelled { (m : Stated) → SpellsMessage bytes.now m → result ≡ Ok m }
    ensures bad { IfErr result (IsBad bytes.now) }
    ensures function { result ≡ reading_of bytes.now }
{
    match parse(bytes) {
        Some(message) => Ok(message),
        None => Err(refusal(bytes)),
    }
}

/// Returns the required reaction to a datagram that encodes no message.
#[tactic(auto, unfolding(crate::specs::Reading::bad_of))]
fn refusal(bytes: &[u8]) -> Bad
    ensures { result ≡ bad_of bytes.now }
{
    match bytes {
        [first, _, high, low, ..] if is_confirmable(*first) && bytes.len() <= DATAGRAM => {
            Bad::Reset(number_of(*high, *low))
        }
        _ => Bad::Ignore,
    }
}

/// Returns whether a message's first byte has version 1 and the type confirmable.
fn is_confirmable(first: u8) -> bool
    ensures { result ≡ (first / 16 == 4) }
{
    first / 16 == CONFIRMABLE
}

/// Parses the message that a datagram encodes; `None` if it encodes none.
#[tactic(auto, unfolding(crate::specs::Reading::message_of))]
fn parse(bytes: &[u8]) -> Option<Message<'_>>
    ensures { result ≡ message_of bytes.now }
{
    let [first, code, high, low, rest @ ..] = bytes else {
        return None;
    };
    if is_whole(*code, rest) {
        parse_parts(*first, *code, number_of(*high, *low), rest)
    } else {
        None
    }
}

/// Returns whether a message with this code may have `rest` after its message ID.
///
/// An empty message (code 0.00) has no bytes there. Any other message has at most 1,276.
fn is_whole(code: u8, rest: &[u8]) -> bool
    ensures { result ≡ is_sized code rest.now }
{
    if code == Code::EMPTY.byte {
        rest.is_empty()
    } else {
        rest.len() <= DATAGRAM - HEADER
    }
}

/// Parses the message from its first byte, code, ID, and the bytes after the ID.
///
/// Returns `None` if the version isn't 1, if the token's length is above 8, or if `rest`, the
/// bytes after the ID, have a format error.
fn parse_parts(first: u8, code: u8, id: u16, rest: &[u8]) -> Option<Message<'_>>
    ensures { result ≡ message_by first code id rest.now }
{
    let kind = type_of(first)?;
    let (token, rest) = rest.split_at_checked(token_length(first)?)?;
    let (options, rest) = split_options(rest)?;
    let payload = payload_of(rest)?;
    Some(Message::new(kind, Code { byte: code }, id, token, options, payload))
}

/// Returns the type from a message's first byte; `None` if its version isn't 1.
fn type_of(first: u8) -> Option<MessageType>
    ensures { result ≡ spec.type_of first }
{
    match first / 16 {
        CONFIRMABLE => Some(MessageType::Confirmable),
        NON_CONFIRMABLE => Some(MessageType::NonConfirmable),
        ACKNOWLEDGEMENT => Some(MessageType::Acknowledgement),
        RESET => Some(MessageType::Reset),
        _ => None,
    }
}

/// Returns the token's length from the first byte, or `None` if it is above 8.
fn token_length(first: u8) -> Option<usize>
    ensures { result ≡ spec.token_length first }
{
    let length = (first % 16) as usize;
    if length <= TOKEN { Some(length) } else { None }
}

/// Returns the payload from the bytes after the options.
///
/// Returns `None` unless these bytes are empty, or are the marker and a payload that isn't empty.
fn payload_of(bytes: &[u8]) -> Option<&[u8]>
    ensures { MatchOption result (payload_at bytes.now ≡ None)
        (λ payload. payload_at bytes.now ≡ Some payload.now) }
{
    match bytes {
        [] => Some(bytes),
        [PAYLOAD_MARKER, payload @ ..] if !payload.is_empty() => Some(payload),
        _ => None,
    }
}
