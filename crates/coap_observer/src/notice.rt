//! The Observe option of an observer's requests, and the classes of responses.
//!
//! See RFC 7641.
ghost use Rattle.std.specs.Prelude.{◌≡◌, ◌↔◌, ◌≤◌, IsTrue, length};
ghost use Rattle.coap_opts.specs.Values.{uint_value};
ghost use Rattle.coap_observer.specs.Notices.{IsOwnResponse, IsReplyWith};
ghost use Rattle.coap_observer.specs.Notices as spec;
ghost use Rattle.coap_client.specs.Replies as replies;

use coap_client::client_request::LARGEST_SZX;
use coap_client::reply::{Next, begins_exchange, is_understood, next_of_answer};
use coap_msg::{Code, Message, MessageType};
use coap_opts::decode_uint;
use coap_opts::number::OBSERVE;

/// Class of the success codes (RFC 7252, section 5.9.1).
const SUCCESS: u8 = 2;

/// Classes of the error codes (RFC 7252, sections 5.9.2 and 5.9.3).
const CLIENT_ERROR: u8 = 4;

const SERVER_ERROR: u8 = 5;

/// Half of the number of 24-bit sequence numbers (RFC 7641, section 3.4).
const HALF: u32 = 1 << 23;

/// Age in milliseconds above which any other state is newer.
///
/// It is 128 seconds (RFC 7641, section 3.4).
const OLD: u64 = 128_000;

/// Maximum length of the value of Observe, in bytes (RFC 7641, section 2).
const VALUE: usize = 3;

/// The action of a GET with Observe (RFC 7641, section 2).
#[derive(Clone, Copy, PartialEq, Eq)]
pub enum ObserveOption {
    /// Starts notifications of changes.
    Register,
    /// Ends notifications.
    Deregister,
}

/// The classification of a response to an observer.
#[derive(Clone, Copy, PartialEq, Eq)]
pub enum NotificationClass {
    /// A state of the resource with this sequence number; further states may follow.
    State(u32),
    /// A state no newer than the last one shown, or a duplicate of a shown message.
    Older,
    /// The last response: an error, or a state without a sequence number.
    ///
    /// After either, the server sends no further notification (RFC 7641, sections 3.2 and 4.2).
    Last,
    /// A response that can't be shown.
    ///
    /// It has an unknown or repeated critical option, or is neither whole nor the first block of a
    /// state.
    Malformed,
}

/// Returns whether `message` is the piggybacked response to a request.
///
/// The request has the token `token` and the message ID `id`.
pub fn is_reply_with(token: &[u8], id: u16, message: &Message<'_>) -> bool
    ensures { IsTrue result ↔ IsReplyWith token.now id message.now }
{
    message.kind() == MessageType::Acknowledgement
        && message.id() == id
        && message.token() == token
        && is_response(message.code())
}

/// Returns whether `message` is a separate response with the token `token`.
///
/// A separate response is confirmable or non-confirmable (RFC 7641, section 3.2).
pub fn is_notification(token: &[u8], message: &Message<'_>) -> bool
    ensures { IsTrue result ↔ IsOwnResponse token.now message.now }
{
    begins_exchange(message.kind()) && message.token() == token && is_response(message.code())
}

// Returns whether a code is that of a response: of class 2, 4 or 5.
fn is_response(code: Code) -> bool
    ensures { result ≡ replies.is_response code.byte }
{
    matches!(code.class(), SUCCESS | CLIENT_ERROR | SERVER_ERROR)
}

/// Returns whether the second state is newer than the first.
///
/// Each state has a sequence number and a time of arrival in milliseconds (RFC 7641, section 3.4).
pub fn is_newer(first: u32, first_at: u64, second: u32, second_at: u64) -> bool
    ensures { result ≡ spec.is_newer first first_at second second_at }
{
    (first < second && second - first < HALF)
        || (second < first && first - second > HALF)
        || second_at.saturating_sub(first_at) > OLD
}

/// Classifies a response to an observer, regardless of earlier responses.
///
/// The class is never `Older`: [`Observation::notice_of`](crate::Observation::notice_of) compares
/// the response with earlier ones.
pub fn notice_of(message: &Message<'_>) -> NotificationClass
    ensures { result ≡ spec.notice_of message.now }
{
    if !can_be_shown(message) {
        return NotificationClass::Malformed;
    }
    if message.code().class() != SUCCESS {
        return NotificationClass::Last;
    }
    match sequence_of(message) {
        Some(sequence) => NotificationClass::State(sequence),
        None => NotificationClass::Last,
    }
}

/// Returns whether a response is the first of several blocks of a state.
///
/// Such a response is a success with a sequence number. The other blocks are requested without
/// Observe (RFC 7959, section 2.6).
pub fn begins_state(message: &Message<'_>) -> bool
    ensures { result ≡ spec.begins_state message.now }
{
    begins_blocks(message) && sequence_of(message).is_some()
}

// Returns whether a response can be shown: it has no unknown or repeated critical option, and is
// whole or begins a state.
fn can_be_shown(message: &Message<'_>) -> bool
    ensures { result ≡ spec.can_be_shown message.now }
{
    (is_understood(message) && is_whole(message)) || begins_state(message)
}

/// Returns whether a response begins several blocks without a sequence number.
///
/// Such a response is a success. A value of Observe with more than three bytes counts as no
/// sequence number. The server doesn't notify of changes, or has no place for another observer (RFC
/// 7641, section 4.1).
pub fn is_unobserved(message: &Message<'_>) -> bool
    ensures { result ≡ spec.is_unobserved message.now }
{
    begins_blocks(message) && sequence_of(message).is_none()
}

// Returns whether a response is a success and the first of several blocks.
fn begins_blocks(message: &Message<'_>) -> bool
    ensures { result ≡ spec.begins_blocks message.now }
{
    is_understood(message)
        && matches!(next_of_answer(0, LARGEST_SZX, message), Next::Ask(_))
        && message.code().class() == SUCCESS
}

// Returns the sequence number of a state. Returns `None` if the message has no Observe, or if the
// value of Observe has more than 3 bytes.
fn sequence_of(message: &Message<'_>) -> Option<u32>
    ensures { result ≡ spec.sequence_of message.now }
{
    match message.values(OBSERVE).next() {
        Some(value) if value.len() <= VALUE => Some(decode(value)),
        _ => None,
    }
}

// Decodes the value of Observe, of at most 3 bytes.
fn decode(value: &[u8]) -> u32
    requires { length value.now ≤ VALUE }
    ensures { result ≡ uint_value value.now }
{
    decode_uint(value) as u32
}

// Returns whether a response is whole: it has no Block2, or a Block2 that names the first block and
// says that no block follows.
fn is_whole(message: &Message<'_>) -> bool
    ensures { result ≡ spec.is_last_part (replies.next_of_answer 0 6 message.now) }
{
    matches!(next_of_answer(0, LARGEST_SZX, message), Next::Last)
}
