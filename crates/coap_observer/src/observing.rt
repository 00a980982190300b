//! Observers: registration, notifications and deregistration (RFC 7641).
ghost use Rattle.std.specs.Prelude.{◌≡◌, ◌↔◌, ◌∷◌, ◌≤◌, IfErr, IfOk, IfSome, IsTrue, OnOk, length, take, true};
ghost use Rattle.coap_msg.specs.Wire.{message_bytes};
ghost use Rattle.coap_msg.specs.Writing.{options_in};
ghost use Rattle.coap_observer.specs.ObserverFaults.{IsDeregistrationFault, IsLeavingFault, IsNotificationFault, IsRegistrationFault, IsRejectedLeaving, deregistration_of};
ghost use Rattle.coap_client.specs.Faults.{IsOfPeer, IsRejectedBy, IsRejection};
ghost use Rattle.coap_client.specs.Handled.{IsReadAs};
ghost use Rattle.coap_observer.specs.Notes.{HasAcknowledgement, HasArrived, HasDeregistered, HandlesAnswer, IsAcknowledgementOf, IsAwaitedBy, IsToldAs, HasOwnResponse, IsRegistered, TellsRequest, Watches};
ghost use Rattle.coap_observer.specs.Notices.{IsOwnResponse, observe_request, observe_value};
ghost use Rattle.coap_opts.specs.Values.{uint_bytes};
ghost use Rattle.coap_client.specs.Listening.{IsHandled};
ghost use Rattle.coap_client.specs.PeerCalls.{received_bytes};
ghost use Rattle.coap_observer.specs.ObserverCalls.{AcknowledgesNotification, AwaitsNotification, IsDeregistration, IsNoNotification, IsOverUnlessLeft, IsPassedOverWatching, IsRegistration, dated_in, noted_in};
ghost use Rattle.coap_client.specs.Transmissions.{MakesCalls, IsAskedAgain, EndsAwaited};
ghost use Rattle.std.specs.Bool.{OnTrue};
ghost use Rattle.coap_client.specs.Parts.{resource_options};
ghost use Rattle.coap_observer.specs.Representations.{IsBlockAnswer, IsBlockFault, IsBlockTransmission};
ghost use Rattle.coap_client.specs.Requests.{IsBlock};
ghost use Rattle.coap_client.specs.Paths.{slices_in};

use crate::notice::{NotificationClass, ObserveOption, is_notification, is_reply_with};
use crate::watch::Observation;
use coap_client::client_request::{ClientRequest, push_options};
use coap_client::fetcher::FetchFault;
use coap_client::peer::{Buffer, Peer};
use coap_client::reply::{is_empty_acknowledgement, is_reset};
use coap_client::transmission::{
    ReplyClass, SENDINGS, SEPARATE_WAIT, WaitOutcome, ack_timeout, acknowledge, is_passed_over,
    send, tells_reset,
};
use coap_msg::{Code, Datagram, Message, MessageType, Outgoing, read, write};
use coap_opts::number::{OBSERVE, URI_PATH, URI_QUERY};
use coap_opts::{UintBytes, encode_uint};
use std::alloc::{AllocError, Global};

/// Length of an observer's token, in bytes.
pub const TOKEN: usize = 4;

/// An observer of a resource.
///
/// It has the client request that names the resource, the token that identifies the notifications,
/// and the message ID of the registration. The deregistration has the next message ID.
#[derive(Clone, Copy)]
pub struct Observer<'a> {
    pub client_request: &'a ClientRequest<'a>,
    pub token: [u8; TOKEN],
    pub id: u16,
}

/// A received notification, at the start of a buffer.
///
/// `count` is its length in bytes, and `time` is the time of its arrival in milliseconds.
#[derive(Clone, Copy, PartialEq, Eq)]
pub struct DatedMessage {
    pub count: usize,
    pub time: u64,
}

/// A notification that is to be shown, at the start of a buffer.
///
/// `count` is its length in bytes, and `time` is the time of its arrival in milliseconds. `last`
/// says whether it is the last notification.
#[derive(Clone, Copy, PartialEq, Eq)]
pub struct NotedMessage {
    pub count: usize,
    pub time: u64,
    pub last: bool,
}

impl<'a> Observer<'a> {
    /// Registers the observer, and returns the length of the response in bytes.
    ///
    /// Sends a confirmable GET with Observe 0, and retransmits it as a fetch does. The response is
    /// written to the start of `buffer`. A confirmable response is acknowledged.
    ///
    /// # Errors
    /// Returns an error if no response arrives, if the request is rejected, or if sending,
    /// receiving or allocating memory fails.
    pub fn register<P: Peer>(
        &self,
        alloc: Global,
        peer: &mut P,
        buffer: &mut Buffer,
    ) -> Result<usize, FetchFault>
        ensures registered { IfOk result (λ count. (count ≤ length buffer.new)
            × IsRegistered P.went P.came self.now (take count buffer.new)) }
        ensures called { IfOk result (λ count. MakesCalls (P.called peer.old) (P.called peer.new)
            (IsRegistration self.now (take count buffer.new))) }
        ensures fault { IfErr result (IsRegistrationFault P.is_error (MakesCalls (P.called peer.old) (P.called peer.new)) self.now) }
    {
        let mut datagram = Datagram::new();
        write_request(
            alloc,
            self.client_request,
            ObserveOption::Register,
            &self.token,
            self.id,
            &mut datagram,
        )?;
        let Some(count) = self.ask(&self.token, self.id, peer, &datagram, buffer)? else {
            return Err(FetchFault::Silence);
        };
        acknowledge(peer, &buffer[..count])?;
        Ok(count)
    }

    // Sends the request `datagram`, and waits for a response to it or for a notification.
    // Retransmits the request until one of them arrives, the request is acknowledged, or the last
    // wait ends.
    //
    // The request has the token `own` and the message ID `id`; notifications have the observer's
    // token. Writes the response or the notification to the start of `buffer`, and returns its
    // length in bytes. The caller has to acknowledge that message. Returns `None` if neither
    // arrives. Returns `FetchFault::Rejected` after a Reset message for the request, and
    // `FetchFault::Socket` if the peer returns an error.
    fn ask<P: Peer>(
        &self,
        own: &[u8],
        id: u16,
        peer: &mut P,
        datagram: &Datagram,
        buffer: &mut Buffer,
    ) -> Result<Option<usize>, FetchFault>
        ensures answer { IfOk result (λ r. IfSome r (λ count. (count ≤ length buffer.new) × P.went datagram.now.items
            × HasArrived P.came (IsAwaitedBy self.now.token own.now id) (take count buffer.new))) }
        ensures called { IfOk result (λ r. MakesCalls (P.called peer.old) (P.called peer.new)
            (IsAskedAgain (TellsRequest self.now.token own.now id) datagram.now.items (received_bytes buffer.new r))) }
        ensures fault { IfErr result (IsOfPeer P.is_error (MakesCalls (P.called peer.old) (P.called peer.new)
            (IsRejection true (TellsRequest self.now.token own.now id) datagram.now.items))) }
    {
        for sendings in 0..SENDINGS {
            send(peer, datagram, ack_timeout(sendings))?;
            match self.listen(own, id, peer, false, buffer)? {
                WaitOutcome::Answer(count) => return Ok(Some(count)),
                WaitOutcome::Acknowledged => {
                    peer.begin_wait(SEPARATE_WAIT)?;
                    return self.await_answer(own, id, peer, buffer);
                }
                WaitOutcome::Nothing => {}
            }
        }
        Ok(None)
    }

    // Waits for the response to an acknowledged request, or for a notification. Returns the length
    // in bytes of the message that arrives, or `None` if neither arrives. Returns
    // `FetchFault::Rejected` if the request is rejected, and `FetchFault::Socket` if the peer
    // returns an error.
    fn await_answer<P: Peer>(
        &self,
        own: &[u8],
        id: u16,
        peer: &mut P,
        buffer: &mut Buffer,
    ) -> Result<Option<usize>, FetchFault>
        ensures answer { IfOk result (λ r. IfSome r (λ count. (count ≤ length buffer.new)
            × HasArrived P.came (IsAwaitedBy self.now.token own.now id) (take count buffer.new))) }
        ensures called { IfOk result (λ r. MakesCalls (P.called peer.old) (P.called peer.new)
            (EndsAwaited (TellsRequest self.now.token own.now id) (received_bytes buffer.new r))) }
        ensures fault { IfErr result (IsOfPeer P.is_error (MakesCalls (P.called peer.old) (P.called peer.new)
            (IsRejectedBy (TellsRequest self.now.token own.now id) true))) }
    {
        match self.listen(own, id, peer, true, buffer)? {
            WaitOutcome::Answer(count) => Ok(Some(count)),
            WaitOutcome::Acknowledged | WaitOutcome::Nothing => Ok(None),
        }
    }

    // Receives datagrams until one ends the wait or the wait is over; other datagrams are skipped.
    // `awaited` says whether the request was acknowledged; if it was, another acknowledgement is
    // skipped. Returns `Answer` for a response or a notification, `Acknowledged`, or `Nothing` if
    // the wait is over. Returns `FetchFault::Rejected` if the request is rejected.
    fn listen<P: Peer>(
        &self,
        own: &[u8],
        id: u16,
        peer: &mut P,
        awaited: bool,
        buffer: &mut Buffer,
    ) -> Result<WaitOutcome, FetchFault>
        ensures listened { IfOk result (HandlesAnswer P.came self.now.token own.now id buffer.new) }
        ensures called { IfOk result (λ x. MakesCalls (P.called peer.old) (P.called peer.new)
            (IsHandled (TellsRequest self.now.token own.now id) awaited buffer.new x)) }
        ensures fault { IfErr result (IsOfPeer P.is_error (MakesCalls (P.called peer.old) (P.called peer.new)
            (IsRejectedBy (TellsRequest self.now.token own.now id) awaited))) }
    {
        for received in 0..u64::MAX {
            let Some(count) = peer.receive(buffer)? else {
                return Ok(WaitOutcome::Nothing);
            };
            let handled = handle_datagram(&self.token, own, id, &buffer[..count]);
            match handled {
                _ if is_passed_over(awaited, handled) => {}
                ReplyClass::Acknowledged => return Ok(WaitOutcome::Acknowledged),
                ReplyClass::Rejected => return Err(FetchFault::Rejected),
                _ => return Ok(WaitOutcome::Answer(count)),
            }
        }
        Ok(WaitOutcome::Nothing)
    }

    /// Requests a block of the observed resource, for [`Observation::complete`].
    ///
    /// Sends a confirmable GET without Observe, and retransmits it as a fetch does. Writes the
    /// response, or a notification that arrives before the response, to the start of `buffer`. That
    /// message is acknowledged if it is confirmable. Returns the message's length in bytes, or
    /// `None` if neither arrives.
    ///
    /// # Errors
    /// Returns an error if the request is rejected, or if sending, receiving or allocating memory
    /// fails.
    pub fn ask_block<P: Peer>(
        &self,
        alloc: Global,
        peer: &mut P,
        number: u32,
        szx: u8,
        id: u16,
        buffer: &mut Buffer,
    ) -> Result<Option<usize>, FetchFault>
        requires { IsBlock number szx }
        ensures answer { IfOk result (λ r. IfSome r (λ count. (count ≤ length buffer.new)
            × IsBlockAnswer P.went P.came self.now number szx id (take count buffer.new))) }
        ensures called { IfOk result (λ r. MakesCalls (P.called peer.old) (P.called peer.new)
            (IsBlockTransmission self.now number szx id (received_bytes buffer.new r))) }
        ensures fault { IfErr result (IsBlockFault P.is_error (MakesCalls (P.called peer.old) (P.called peer.new)) self.now number szx id) }
    {
        let mut datagram = Datagram::new();
        self.client_request
            .write_block(alloc, number, szx, id, &mut datagram)?;
        let own = id.to_be_bytes();
        let Some(count) = self.ask(&own, id, peer, &datagram, buffer)? else {
            return Ok(None);
        };
        acknowledge(peer, &buffer[..count])?;
        Ok(Some(count))
    }

    /// Deregisters the observer.
    ///
    /// Sends a confirmable GET with Observe 1 until it is acknowledged. Confirmable notifications
    /// that arrive before that are acknowledged, and not shown.
    ///
    /// # Errors
    /// Returns an error if no acknowledgement arrives, if the request is rejected, or if sending,
    /// receiving or allocating memory fails.
    pub fn deregister<P: Peer>(
        &self,
        alloc: Global,
        peer: &mut P,
        buffer: &mut Buffer,
    ) -> Result<(), FetchFault>
        ensures deregistered { OnOk result (HasDeregistered P.went P.came self.now) }
        ensures called { OnOk result (MakesCalls (P.called peer.old) (P.called peer.new) (IsDeregistration self.now)) }
        ensures fault { IfErr result (IsDeregistrationFault P.is_error (MakesCalls (P.called peer.old) (P.called peer.new)) self.now) }
    {
        let datagram = self.deregistration(alloc)?;
        self.deregister_by(peer, &datagram, buffer)
    }

    /// Builds the deregistration request, for [`Observer::deregister_by`].
    ///
    /// # Errors
    /// Returns `AllocError` if memory can't be allocated for the options.
    pub fn deregistration(&self, alloc: Global) -> Result<Datagram, AllocError>
        ensures { IfOk result (λ d. d.items ≡ deregistration_of self.now) }
    {
        let mut datagram = Datagram::new();
        write_request(
            alloc,
            self.client_request,
            ObserveOption::Deregister,
            &self.token,
            self.id.wrapping_add(1),
            &mut datagram,
        )?;
        Ok(datagram)
    }

    /// Deregisters with the request from [`Observer::deregistration`].
    ///
    /// Sends the confirmable request until it is acknowledged. Confirmable notifications that
    /// arrive before that are acknowledged, and not shown. Allocates no memory, unlike
    /// [`Observer::deregister`].
    ///
    /// # Errors
    /// Returns an error if no acknowledgement arrives, if the request is rejected, or if sending or
    /// receiving fails. With or without an error, the peer was called to send the request.
    pub fn deregister_by<P: Peer>(
        &self,
        peer: &mut P,
        request: &Datagram,
        buffer: &mut Buffer,
    ) -> Result<(), FetchFault>
        requires { request.now.items ≡ deregistration_of self.now }
        ensures tried { P.tried (deregistration_of self.now) }
        ensures deregistered { OnOk result (HasDeregistered P.went P.came self.now) }
        ensures called { OnOk result (MakesCalls (P.called peer.old) (P.called peer.new) (IsDeregistration self.now)) }
        ensures fault { IfErr result (IsLeavingFault P.is_error (MakesCalls (P.called peer.old) (P.called peer.new)) self.now) }
    {
        let id = self.id.wrapping_add(1);
        for sendings in 0..SENDINGS {
            send(peer, request, ack_timeout(sendings))?;
            if is_acknowledged(peer, &self.token, id, buffer)? {
                return Ok(());
            }
        }
        Err(FetchFault::Silence)
    }
}

impl Observation {
    /// Waits until a notification arrives that is to be shown, and returns it.
    ///
    /// Notifications have the token `token`. Older notifications and duplicates are skipped. Each
    /// confirmable notification is acknowledged. The notification to be shown is written to the
    /// start of `buffer`. If it is a state, the observation records it as shown. Returns `None`,
    /// and changes nothing in the observation, if the wait is over.
    ///
    /// # Errors
    /// Returns `Part` if a notification can't be shown, or another error if sending, receiving,
    /// reading the clock or allocating memory fails.
    pub fn next<P: Peer>(
        &mut self,
        peer: &mut P,
        token: &[u8],
        buffer: &mut Buffer,
    ) -> Result<Option<NotedMessage>, FetchFault>
        ensures watched { IfOk result (Watches P.went P.came P.is_time token.now buffer.new self.old self.new) }
        ensures called { IfOk result (λ r. MakesCalls (P.called peer.old) (P.called peer.new)
            (AwaitsNotification token.now (IsPassedOverWatching P.is_time token.now self.old) (noted_in buffer.new r))) }
        ensures fault { IfErr result (IsNotificationFault P.came P.is_error (MakesCalls (P.called peer.old) (P.called peer.new))
            P.is_time token.now self.old) }
    {
        for _ in 0..u64::MAX {
            let Some(came) = handle(peer, token, buffer)? else {
                return Ok(None);
            };
            let Ok(message) = read(&buffer[..came.count]) else {
                unreachable!();
            };
            let at = self.at.max(came.time);
            match self.notice_of(at, &message) {
                NotificationClass::State(sequence) => {
                    self.keep(sequence, at, message.id())?;
                    return Ok(Some(NotedMessage {
                        count: came.count,
                        time: came.time,
                        last: false,
                    }));
                }
                NotificationClass::Last => {
                    return Ok(Some(NotedMessage {
                        count: came.count,
                        time: came.time,
                        last: true,
                    }));
                }
                NotificationClass::Malformed => return Err(FetchFault::Part),
                NotificationClass::Older => {}
            }
        }
        Ok(None)
    }
}

// Receives the next notification during a wait, and skips other datagrams. Acknowledges the
// notification if it is confirmable, and then reads the clock. The notification is at the start of
// `buffer`. Returns its length in bytes and the time in milliseconds, or `None` if the wait is
// over. Returns `FetchFault::Socket` if the peer returns an error.
fn handle<P: Peer>(
    peer: &mut P,
    token: &[u8],
    buffer: &mut Buffer,
) -> Result<Option<DatedMessage>, FetchFault>
    ensures handled { IfOk result (λ r. IfSome r (λ x. (x.count ≤ length buffer.new)
        × HasOwnResponse P.went P.came token.now (take x.count buffer.new))) }
    ensures time { IfOk result (λ r. IfSome r (λ x. P.is_time x.time)) }
    ensures called { IfOk result (λ r. MakesCalls (P.called peer.old) (P.called peer.new)
        (AwaitsNotification token.now (IsNoNotification token.now) (dated_in buffer.new r))) }
    ensures fault { IfErr result (IsOfPeer P.is_error ⊥) }
{
    for _ in 0..u64::MAX {
        let Some(count) = peer.receive(buffer)? else {
            return Ok(None);
        };
        if tells_notification(token, &buffer[..count]) {
            acknowledge(peer, &buffer[..count])?;
            let time = peer.now()?;
            return Ok(Some(DatedMessage { count, time }));
        }
    }
    Ok(None)
}

// Returns whether a datagram is a notification with this token.
fn tells_notification(token: &[u8], bytes: &[u8]) -> bool
    ensures { IsTrue result ↔ IsReadAs bytes.now (IsOwnResponse token.now) }
{
    match read(bytes) {
        Ok(message) => is_notification(token, &message),
        Err(_) => false,
    }
}

// Classifies a datagram during the wait of `Observer::ask`. Notifications have the token `token`,
// and the request has the token `own` and the message ID `id`.
fn handle_datagram(token: &[u8], own: &[u8], id: u16, bytes: &[u8]) -> ReplyClass
    ensures { TellsRequest token.now own.now id bytes.now result }
{
    match read(bytes) {
        Ok(message) => handle_message(token, own, id, &message),
        Err(_) => ReplyClass::Other,
    }
}

// Classifies a message during the wait of `Observer::ask`. A response and a notification are
// `Reply`.
fn handle_message(token: &[u8], own: &[u8], id: u16, message: &Message<'_>) -> ReplyClass
    ensures { IsToldAs token.now own.now id message.now result }
{
    if is_reply_with(own, id, message)
        || is_notification(own, message)
        || is_notification(token, message)
    {
        ReplyClass::Reply
    } else if is_empty_acknowledgement(id, message) {
        ReplyClass::Acknowledged
    } else if is_reset(id, message) {
        ReplyClass::Rejected
    } else {
        ReplyClass::Other
    }
}

// Waits for an acknowledgement of the deregistration with this message ID, with or without a
// response. Returns `true` if one arrives, and `false` if the wait is over. Returns
// `FetchFault::Rejected` after a Reset message, and `FetchFault::Socket` if the peer returns an
// error. Confirmable notifications with the token are acknowledged, since the server would
// otherwise retransmit them (RFC 7641, section 3.5).
fn is_acknowledged<P: Peer>(
    peer: &mut P,
    token: &[u8],
    id: u16,
    buffer: &mut Buffer,
) -> Result<bool, FetchFault>
    ensures acknowledged { IfOk result (λ is. OnTrue is (HasAcknowledgement P.came id)) }
    ensures called { IfOk result (λ is. MakesCalls (P.called peer.old) (P.called peer.new) (IsOverUnlessLeft token.now id is)) }
    ensures fault { IfErr result (IsOfPeer P.is_error (MakesCalls (P.called peer.old) (P.called peer.new)
        (IsRejectedLeaving token.now id))) }
{
    for received in 0..u64::MAX {
        let Some(count) = peer.receive(buffer)? else {
            return Ok(false);
        };
        let bytes = &buffer[..count];
        if tells_acknowledgement(id, bytes) {
            return Ok(true);
        }
        if tells_reset(id, bytes) {
            return Err(FetchFault::Rejected);
        }
        acknowledge_notification(peer, token, bytes)?;
    }
    Ok(false)
}

// Acknowledges a confirmable notification with this token, and ignores any other datagram. Returns
// `FetchFault::Socket` if sending fails.
fn acknowledge_notification<P: Peer>(
    peer: &mut P,
    token: &[u8],
    bytes: &[u8],
) -> Result<(), FetchFault>
    ensures called { OnOk result (MakesCalls (P.called peer.old) (P.called peer.new) (AcknowledgesNotification token.now bytes.now)) }
    ensures fault { IfErr result (IsOfPeer P.is_error ⊥) }
{
    if !tells_notification(token, bytes) {
        return Ok(());
    }
    acknowledge(peer, bytes)?;
    Ok(())
}

// Returns whether a datagram acknowledges the request with this message ID, with or without a
// response.
fn tells_acknowledgement(id: u16, bytes: &[u8]) -> bool
    ensures { IsTrue result ↔ IsReadAs bytes.now (IsAcknowledgementOf id) }
{
    match read(bytes) {
        Ok(message) => message.kind() == MessageType::Acknowledgement && message.id() == id,
        Err(_) => false,
    }
}

// Writes the registration or the deregistration over `datagram`: a GET of the client request's
// resource with Observe. Returns `AllocError` if memory can't be allocated.
fn write_request(
    alloc: Global,
    client_request: &ClientRequest<'_>,
    interest: ObserveOption,
    token: &[u8],
    id: u16,
    datagram: &mut Datagram,
) -> Result<(), AllocError>
    requires { length token.now ≤ TOKEN }
    ensures { OnOk result (datagram.new.items ≡ message_bytes (observe_request client_request.now interest token.now id)) }
{
    let value = value_of(interest);
    let options = options_of(alloc, client_request, &value)?;
    let request = Outgoing {
        kind: MessageType::Confirmable,
        code: Code::GET,
        id,
        token,
        options: &options,
        payload: &[],
    };
    write(&request, datagram);
    Ok(())
}

// Returns the value of the Observe option: 0 to register, 1 to deregister (RFC 7641, section 2).
fn value_of(interest: ObserveOption) -> UintBytes
    ensures { result.items ≡ uint_bytes (observe_value interest) }
{
    encode_uint(match interest {
        ObserveOption::Register => 0,
        ObserveOption::Deregister => 1,
    })
}

// Builds the list of options: Observe with this value, and the options that name the client
// request's resource. Returns `AllocError` if memory can't be allocated.
fn options_of<'a>(
    alloc: Global,
    client_request: &'a ClientRequest<'a>,
    value: &'a UintBytes,
) -> Result<Vec<(u16, &'a [u8])>, AllocError>
    ensures { IfOk result (λ v. options_in v.items ≡ (OBSERVE, value.entry.now.items) ∷ resource_options
        (slices_in client_request.entry.now.target.path.segments.items) (slices_in client_request.entry.now.target.query.items)) }
{
    let mut options = Vec::new(alloc);
    options.push((OBSERVE, value.as_slice()))?;
    push_options(&mut options, URI_PATH, &client_request.target.path.segments)?;
    push_options(&mut options, URI_QUERY, &client_request.target.query)?;
    Ok(options)
}
