//! The transmission of a request until a response or an acknowledgement arrives.
//!
//! [`ask`] is for a fetch. Observers and pings use the functions that [`ask`] calls.
ghost use Rattle.std.specs.Prelude.{◌≡◌, ◌↔◌, ◌<◌, ◌≤◌, [], ◌∷◌, IfErr, IfOk, IfSome, IsTrue, OnOk, false, length, take, true};
ghost use Rattle.coap_msg.specs.Wire.{message_bytes};
ghost use Rattle.coap_msg.specs.Reading.{reading_of};
ghost use Rattle.coap_msg.specs.Wire as wire;
ghost use Rattle.coap_msg.specs.declared.types.MessageType.TheVariants.{Confirmable};
ghost use Rattle.coap_client.specs.Faults.{IsOfPeer, IsRejectedBy, IsRejection};
ghost use Rattle.coap_client.specs.Handled.{AcknowledgesRepeat, Listens, HasResponse, IsAwaitedAnswer, IsHandledAs, IsReadAs, TellsSent};
ghost use Rattle.coap_client.specs.Listening.{IsHandled, acknowledges, acknowledges_kind, is_passed_over, sent_behind};
ghost use Rattle.coap_client.specs.PeerCalls.{Adds, Sends, Waits, received_bytes};
ghost use Rattle.coap_client.specs.Replies.{IsReset};
ghost use Rattle.coap_client.specs.Transmissions.{ack_timeout, most_sendings, non_wait, MakesCalls, IsTransmissionWith, IsTransmitted, IsAskedAgain, EndsAwaited, IsSending};
ghost use Rattle.coap_client.specs.Requests.{acknowledgement};

use crate::fetcher::FetchFault;
use crate::peer::{Buffer, Peer};
use crate::reply::{is_empty_acknowledgement, is_reply, is_reset, is_separate};
use coap_msg::{Code, Datagram, Message, MessageType, Outgoing, read, write};

/// Maximum number of transmissions of a confirmable request.
///
/// It is one transmission and MAX_RETRANSMIT retransmissions (RFC 7252, section 4.8).
pub const SENDINGS: u32 = 5;

/// Wait for the response to the first transmission, in seconds.
///
/// It is ACK_TIMEOUT (RFC 7252, section 4.8).
const ACK_TIMEOUT: u64 = 2;

/// Wait for the response to an acknowledged request, in seconds.
///
/// It is MAX_TRANSMIT_WAIT, the longest time that a sender waits for an acknowledgement (RFC 7252,
/// section 4.8.2).
pub const SEPARATE_WAIT: u64 = 93;

/// Wait for the response to a non-confirmable request, in seconds.
const NON_WAIT: u64 = 32;

/// A request to send.
#[derive(Clone, Copy)]
pub struct SentRequest<'a> {
    pub datagram: &'a Datagram,
    pub id: u16,
    pub confirmable: bool,
    /// The message IDs of the separate responses to earlier requests.
    pub earlier: &'a [u16],
}

/// The classification of a datagram with respect to the outstanding request.
#[derive(Clone, Copy, PartialEq, Eq)]
pub enum ReplyClass {
    /// The response to the request, piggybacked or identified by its token.
    Reply,
    /// A separate response, without a token.
    Separate,
    /// A separate response that was received before.
    Repeat,
    /// An acknowledgement without a response.
    Acknowledged,
    /// A rejection.
    Rejected,
    /// None of these.
    Other,
}

/// The outcome of a wait.
#[derive(Clone, Copy, PartialEq, Eq)]
pub enum WaitOutcome {
    /// A response arrived, of this length in bytes.
    Answer(usize),
    /// An acknowledgement without a response arrived.
    Acknowledged,
    /// Neither arrived.
    Nothing,
}

/// Returns the wait in seconds after a transmission that follows `sendings` others.
///
/// Each wait is twice the wait before (RFC 7252, section 4.2, without the random part).
pub fn ack_timeout(sendings: u32) -> u64
    requires { sendings < most_sendings }
    ensures { result ≡ ack_timeout sendings }
{
    ACK_TIMEOUT << sendings
}

/// Sends a request of a fetch, and returns the response.
///
/// Retransmits a confirmable request if no response and no acknowledgement arrives in time. The
/// response is borrowed from `buffer`. A confirmable response is acknowledged. Returns `None` if no
/// response arrives until the last wait is over.
///
/// # Errors
/// Returns an error if the request is rejected, or if sending or receiving fails.
pub fn ask<'b, P: Peer>(
    peer: &mut P,
    request: &SentRequest<'_>,
    buffer: &'b mut Buffer,
) -> Result<Option<Message<'b>>, FetchFault>
    ensures asked { IfOk result (IsTransmissionWith P.went P.came (MakesCalls (P.called peer.old) (P.called peer.new)) request.now) }
    ensures fault { IfErr result (IsOfPeer P.is_error (MakesCalls (P.called peer.old) (P.called peer.new)
        (IsRejection request.now.confirmable (TellsSent request.now) request.now.datagram.now.items))) }
{
    let Some(count) = transmit(peer, request, buffer)? else {
        return Ok(None);
    };
    let Ok(message) = read(&buffer[..count]) else {
        unreachable!();
    };
    acknowledge_message(peer, &message)?;
    Ok(Some(message))
}

// Sends a confirmable or a non-confirmable request, and waits for the response. Doesn't acknowledge
// the response, unlike `ask`. Returns the length of the response in bytes, or `None` if none
// arrives. Returns `FetchFault::Rejected` after a Reset message, and `FetchFault::Socket` if the
// peer returns an error.
fn transmit<P: Peer>(
    peer: &mut P,
    request: &SentRequest<'_>,
    buffer: &mut Buffer,
) -> Result<Option<usize>, FetchFault>
    ensures response { IfOk result (λ r. IfSome r (λ count. (count ≤ length buffer.new)
        × HasResponse P.went P.came request.now (take count buffer.new))) }
    ensures called { IfOk result (λ r. MakesCalls (P.called peer.old) (P.called peer.new)
        (IsTransmitted request.now.confirmable (TellsSent request.now) request.now.datagram.now.items (received_bytes buffer.new r))) }
    ensures fault { IfErr result (IsOfPeer P.is_error (MakesCalls (P.called peer.old) (P.called peer.new)
        (IsRejection request.now.confirmable (TellsSent request.now) request.now.datagram.now.items))) }
{
    if request.confirmable {
        ask_again(peer, request, buffer)
    } else {
        ask_once(peer, request, buffer)
    }
}

// Sends a confirmable request up to five times, and waits for the response. Returns the length of
// the response in bytes, or `None` if none arrives. Returns `FetchFault::Rejected` after a Reset
// message, and `FetchFault::Socket` if the peer returns an error.
fn ask_again<P: Peer>(
    peer: &mut P,
    request: &SentRequest<'_>,
    buffer: &mut Buffer,
) -> Result<Option<usize>, FetchFault>
    ensures response { IfOk result (λ r. IfSome r (λ count. (count ≤ length buffer.new)
        × HasResponse P.went P.came request.now (take count buffer.new))) }
    ensures called { IfOk result (λ r. MakesCalls (P.called peer.old) (P.called peer.new)
        (IsAskedAgain (TellsSent request.now) request.now.datagram.now.items (received_bytes buffer.new r))) }
    ensures fault { IfErr result (IsOfPeer P.is_error (MakesCalls (P.called peer.old) (P.called peer.new)
        (IsRejection true (TellsSent request.now) request.now.datagram.now.items))) }
{
    for sendings in 0..SENDINGS {
        send(peer, request.datagram, ack_timeout(sendings))?;
        match listen(peer, request, false, buffer)? {
            WaitOutcome::Answer(count) => return Ok(Some(count)),
            WaitOutcome::Acknowledged => {
                peer.begin_wait(SEPARATE_WAIT)?;
                return await_separate(peer, request, buffer);
            }
            WaitOutcome::Nothing => {}
        }
    }
    Ok(None)
}

// Sends a non-confirmable request once, and waits for the response. Returns the length of the
// response in bytes, or `None` if none arrives. Returns `FetchFault::Rejected` after a Reset
// message, and `FetchFault::Socket` if the peer returns an error.
fn ask_once<P: Peer>(
    peer: &mut P,
    request: &SentRequest<'_>,
    buffer: &mut Buffer,
) -> Result<Option<usize>, FetchFault>
    requires { request.now.confirmable ≡ false }
    ensures response { IfOk result (λ r. IfSome r (λ count. (count ≤ length buffer.new)
        × HasResponse P.went P.came request.now (take count buffer.new))) }
    ensures called { IfOk result (λ r. MakesCalls (P.called peer.old) (P.called peer.new)
        (IsSending request.now.datagram.now.items non_wait (EndsAwaited (TellsSent request.now) (received_bytes buffer.new r)))) }
    ensures fault { IfErr result (IsOfPeer P.is_error (MakesCalls (P.called peer.old) (P.called peer.new)
        (IsRejection false (TellsSent request.now) request.now.datagram.now.items))) }
{
    send(peer, request.datagram, NON_WAIT)?;
    await_separate(peer, request, buffer)
}

// Sends a request, and begins a wait of `seconds` seconds. Returns `FetchFault::Socket` if the peer
// returns an error.
pub fn send<P: Peer>(peer: &mut P, request: &Datagram, seconds: u64) -> Result<(), FetchFault>
    ensures went { OnOk result (P.went request.now.items) }
    ensures tried { P.tried request.now.items }
    ensures called { OnOk result (Adds (P.called peer.old) (P.called peer.new) (Waits seconds ∷ Sends request.now.items ∷ [])) }
    ensures fault { IfErr result (IsOfPeer P.is_error ⊥) }
{
    peer.send(request)?;
    peer.begin_wait(seconds)?;
    Ok(())
}

// Waits for a separate response, since the request was acknowledged or is non-confirmable. Returns
// the length of the response in bytes, or `None` if none arrives. Returns `FetchFault::Rejected`
// after a Reset message, and `FetchFault::Socket` if the peer returns an error.
fn await_separate<P: Peer>(
    peer: &mut P,
    request: &SentRequest<'_>,
    buffer: &mut Buffer,
) -> Result<Option<usize>, FetchFault>
    ensures answer { IfOk result (λ r. IfSome r (λ count. (count ≤ length buffer.new)
        × IsAwaitedAnswer P.came request.now true (take count buffer.new))) }
    ensures called { IfOk result (λ r. MakesCalls (P.called peer.old) (P.called peer.new)
        (EndsAwaited (TellsSent request.now) (received_bytes buffer.new r))) }
    ensures fault { IfErr result (IsOfPeer P.is_error (MakesCalls (P.called peer.old) (P.called peer.new)
        (IsRejectedBy (TellsSent request.now) true))) }
{
    match listen(peer, request, true, buffer)? {
        WaitOutcome::Answer(count) => Ok(Some(count)),
        WaitOutcome::Acknowledged | WaitOutcome::Nothing => Ok(None),
    }
}

// Receives datagrams until one ends the wait or the wait is over; other datagrams are skipped.
// `awaited` says whether a separate response is awaited. Returns `Answer` for a response,
// `Acknowledged` for an empty acknowledgement, or `Nothing` if the wait is over. Returns
// `FetchFault::Rejected` after a Reset message, and `FetchFault::Socket` if the peer returns an
// error.
fn listen<P: Peer>(
    peer: &mut P,
    request: &SentRequest<'_>,
    awaited: bool,
    buffer: &mut Buffer,
) -> Result<WaitOutcome, FetchFault>
    ensures listened { IfOk result (Listens P.came request.now awaited buffer.new) }
    ensures called { IfOk result (λ x. MakesCalls (P.called peer.old) (P.called peer.new)
        (IsHandled (TellsSent request.now) awaited buffer.new x)) }
    ensures fault { IfErr result (IsOfPeer P.is_error (MakesCalls (P.called peer.old) (P.called peer.new)
        (IsRejectedBy (TellsSent request.now) awaited))) }
{
    for received in 0..u64::MAX {
        let Some(count) = peer.receive(buffer)? else {
            return Ok(WaitOutcome::Nothing);
        };
        let handled = handle_from(peer, request, &buffer[..count])?;
        match handled {
            _ if is_passed_over(awaited, handled) => {}
            ReplyClass::Acknowledged => return Ok(WaitOutcome::Acknowledged),
            ReplyClass::Rejected => return Err(FetchFault::Rejected),
            _ => return Ok(WaitOutcome::Answer(count)),
        }
    }
    Ok(WaitOutcome::Nothing)
}

// Returns whether a datagram of this class is skipped, so that the wait goes on. A separate
// response ends the wait only if one is awaited. An acknowledgement ends the wait only if no
// separate response is awaited.
pub fn is_passed_over(awaited: bool, handled: ReplyClass) -> bool
    ensures { result ≡ is_passed_over awaited handled }
{
    match handled {
        ReplyClass::Repeat | ReplyClass::Other => true,
        ReplyClass::Separate => !awaited,
        ReplyClass::Acknowledged => awaited,
        ReplyClass::Reply | ReplyClass::Rejected => false,
    }
}

// Classifies a datagram with respect to a request; a datagram that encodes no message is `Other`.
// Acknowledges again a confirmable response that was received before (RFC 7252, section 4.2).
// Returns `FetchFault::Socket` if sending fails.
fn handle_from<P: Peer>(
    peer: &mut P,
    request: &SentRequest<'_>,
    bytes: &[u8],
) -> Result<ReplyClass, FetchFault>
    ensures handled { IfOk result (TellsSent request.now bytes.now) }
    ensures repeat { IfOk result (AcknowledgesRepeat P.went bytes.now) }
    ensures called { IfOk result (λ handled. Adds (P.called peer.old) (P.called peer.new) (sent_behind handled bytes.now)) }
    ensures fault { IfErr result (IsOfPeer P.is_error ⊥) }
{
    let Ok(message) = read(bytes) else {
        return Ok(ReplyClass::Other);
    };
    let handled = handle_message(request, &message);
    if handled == ReplyClass::Repeat {
        acknowledge_message(peer, &message)?;
    }
    Ok(handled)
}

/// Returns whether a datagram rejects the request with this message ID.
pub fn tells_reset(id: u16, bytes: &[u8]) -> bool
    ensures { IsTrue result ↔ IsReadAs bytes.now (IsReset id) }
{
    match read(bytes) {
        Ok(message) => is_reset(id, &message),
        Err(_) => false,
    }
}

// Classifies a message with respect to a request. A non-confirmable request has no piggybacked
// response.
fn handle_message(request: &SentRequest<'_>, message: &Message<'_>) -> ReplyClass
    ensures { IsHandledAs request.now.confirmable request.now.id request.now.earlier.now message.now result }
{
    if request.confirmable && is_reply(request.id, message) {
        ReplyClass::Reply
    } else if is_empty_acknowledgement(request.id, message) {
        ReplyClass::Acknowledged
    } else if is_reset(request.id, message) {
        ReplyClass::Rejected
    } else if !is_separate(message) {
        ReplyClass::Other
    } else if request.earlier.contains(&message.id()) {
        ReplyClass::Repeat
    } else {
        ReplyClass::Separate
    }
}

// Acknowledges a confirmable message (RFC 7252, section 4.2). Sends nothing for any other datagram.
// Returns `FetchFault::Socket` if sending fails.
pub fn acknowledge<P: Peer>(peer: &mut P, bytes: &[u8]) -> Result<(), FetchFault>
    ensures went { OnOk result ((m : wire.Message) → reading_of bytes.now ≡ Ok m → m.kind ≡ Confirmable
        → P.went (message_bytes (acknowledgement m.id))) }
    ensures called { OnOk result (Adds (P.called peer.old) (P.called peer.new) (acknowledges bytes.now)) }
    ensures fault { IfErr result (IsOfPeer P.is_error ⊥) }
{
    match read(bytes) {
        Ok(message) => acknowledge_message(peer, &message),
        Err(_) => Ok(()),
    }
}

// Acknowledges a confirmable message (RFC 7252, section 4.2). Sends nothing for any other message.
// Returns `FetchFault::Socket` if sending fails.
fn acknowledge_message<P: Peer>(peer: &mut P, message: &Message<'_>) -> Result<(), FetchFault>
    ensures went { OnOk result (message.now.kind ≡ Confirmable → P.went (message_bytes (acknowledgement message.now.id))) }
    ensures called { OnOk result (Adds (P.called peer.old) (P.called peer.new) (acknowledges_kind message.now.kind message.now.id)) }
    ensures fault { IfErr result (IsOfPeer P.is_error ⊥) }
{
    if message.kind() != MessageType::Confirmable {
        return Ok(());
    }
    let mut datagram = Datagram::new();
    write_acknowledgement(message.id(), &mut datagram);
    peer.send(&datagram)?;
    Ok(())
}

// Replaces `datagram` with the acknowledgement of the message with the ID `id`.
fn write_acknowledgement(id: u16, datagram: &mut Datagram)
    ensures { datagram.new.items ≡ message_bytes (acknowledgement id) }
{
    let message = Outgoing {
        kind: MessageType::Acknowledgement,
        code: Code::EMPTY,
        id,
        token: &[],
        options: &[],
        payload: &[],
    };
    write(&message, datagram);
}
