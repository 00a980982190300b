//! Writing: from responses to datagrams, for the server's front and for observers.
ghost use Rattle.std.specs.Prelude.{◌≡◌, ◌≤◌, ◌++◌, length};
ghost use Rattle.coap_opts.specs.Replies.{reply_options};
ghost use Rattle.coap_block.specs.Cuts.{part_bytes};
ghost use Rattle.coap_reply.specs.Responses as spec;
ghost use Rattle.coap_reply.specs.Responses.{etag, observe_option, ran_response, reset_of, sent_in};
ghost use Rattle.coap_reply.specs.Views.{HasNoBlock, to_peer};

use crate::block::BodyBlock;
use coap_msg::{Code, Datagram, Emission, Endpoint, MessageType, Outgoing, write};
use coap_opts::request::PAYLOAD;
use coap_opts::{Reply, ReplyOptions};
use std::marker::Model;

/// The header fields of a response and its receiver.
///
/// See RFC 7252, sections 5.2 and 5.3.
#[derive(Drop)]
pub struct Envelope<'a> {
    /// The endpoint of the request.
    pub to: Endpoint,
    /// The type of the message.
    pub kind: MessageType,
    /// The message ID.
    pub id: u16,
    /// The request's token, 0 to 8 bytes.
    pub token: &'a [u8],
}

impl<'a> Model for Envelope<'a> {
    ghost use Rattle.std.specs.Prelude.{◌≤◌, length};
    ghost use Rattle.coap_reply.specs.Responses.{Envelope as Stated};

    ghost Value = { Stated };

    ghost view = { λ e. record { to = e.to; kind = e.kind; id = e.id; token = e.token.now } };

    ghost invariant = { λ e. length e.token.now ≤ 8 };
}

/// Returns the type of the message with the response to a request.
///
/// The response to a confirmable request is piggybacked in its acknowledgement (RFC 7252, section
/// 5.2.1). Any other response goes in a non-confirmable message (RFC 7252, section 5.2.3).
pub fn reply_kind(confirmable: bool) -> MessageType
    ensures { result ≡ spec.reply_kind confirmable }
{
    if confirmable {
        MessageType::Acknowledgement
    } else {
        MessageType::NonConfirmable
    }
}

/// Replaces `bytes` with a response of this code, options and payload.
///
/// See RFC 7252, section 5.2.
#[tactic(auto, unfolding(crate::specs::Responses::sent_in))]
pub fn respond(
    envelope: &Envelope<'_>,
    code: Code,
    options: ReplyOptions,
    payload: &[u8],
    bytes: &mut Datagram,
)
    requires code { 64 ≤ code.byte }
    requires payload { length payload.now ≤ PAYLOAD }
    ensures { to_peer envelope.now bytes.new ≡ sent_in envelope.now
        (record { code = code.byte; options = reply_options options; payload = payload.now }) }
{
    let reply = Reply {
        kind: envelope.kind,
        code,
        id: envelope.id,
        token: envelope.token,
        options,
        payload,
    };
    reply.write(bytes);
}

/// Replaces `bytes` with a response of a code and a payload, without options.
pub fn text(envelope: &Envelope<'_>, code: Code, payload: &[u8], bytes: &mut Datagram)
    requires code { 64 ≤ code.byte }
    requires payload { length payload.now ≤ PAYLOAD }
    ensures { to_peer envelope.now bytes.new ≡ sent_in envelope.now
        (spec.text code.byte payload.now) }
{
    respond(envelope, code, ReplyOptions::default(), payload, bytes);
}

/// Replaces `bytes` with a 2.05 (Content) that has the requested block.
///
/// The response has `options`, which name no block, and the Block2 option of the block (RFC 7959,
/// section 2.4). If `block` is `None`, the response is a 4.00 without options and payload.
pub fn content(
    envelope: &Envelope<'_>,
    options: ReplyOptions,
    block: &Option<BodyBlock<'_>>,
    bytes: &mut Datagram,
)
    requires { HasNoBlock options }
    ensures { to_peer envelope.now bytes.new ≡ sent_in envelope.now
        (spec.content (reply_options options) block.now) }
{
    let Some(block) = block else {
        return text(envelope, Code::BAD_REQUEST, &[], bytes);
    };
    let options = ReplyOptions {
        block2: block.block,
        ..options
    };
    respond(envelope, Code::CONTENT, options, block.bytes, bytes);
}

/// Replaces `bytes` with the response to a run.
///
/// `code` is the run's code, `block` the requested block of its response, and `serial` the revision
/// counter that the run found. A 2.05 (Content) has the counter as its ETag (RFC 7252, section
/// 5.10.6). If `observed`, it has the counter's lowest 24 bits as the sequence number (RFC 7641,
/// section 4.4). A 2.04 (Changed) carries the bytes alone, and an error carries nothing. If `block`
/// is `None`, a 4.00 replaces a 2.05.
pub fn ran(
    envelope: &Envelope<'_>,
    code: Code,
    block: &Option<BodyBlock<'_>>,
    serial: u64,
    observed: bool,
    bytes: &mut Datagram,
)
    requires { 64 ≤ code.byte }
    ensures { to_peer envelope.now bytes.new ≡ sent_in envelope.now
        (ran_response code.byte block.now serial observed) }
{
    match code {
        Code::CONTENT => content(envelope, version(serial, observed), block, bytes),
        Code::CHANGED => text(envelope, code, block_bytes(block), bytes),
        _ => text(envelope, code, &[], bytes),
    }
}

/// Replaces `emission` with the Reset message for this message ID.
///
/// See RFC 7252, section 4.2.
#[tactic(auto, unfolding(crate::specs::Responses::sent_in))]
pub fn reset(to: Endpoint, id: u16, emission: &mut Emission)
    ensures { emission.new ≡ reset_of to id }
{
    let message = Outgoing {
        kind: MessageType::Reset,
        code: Code::EMPTY,
        id,
        token: &[],
        options: &[],
        payload: &[],
    };
    emission.to = to;
    write(&message, &mut emission.bytes);
}

// Number of sequence numbers (RFC 7641, section 4.4).
const SEQUENCE_NUMBERS: u64 = 0x0100_0000;

// Returns the options of a 2.05: the ETag of a revision counter and, if `observed`, the sequence
// number. The sequence number is the counter's lowest 24 bits.
fn version(serial: u64, observed: bool) -> ReplyOptions
    ensures options { reply_options result ≡ etag serial ++ observe_option observed serial }
    ensures blocks { HasNoBlock result }
{
    let observe = if observed {
        Some((serial % SEQUENCE_NUMBERS) as u32)
    } else {
        None
    };
    ReplyOptions {
        etag: Some(serial),
        observe,
        ..ReplyOptions::default()
    }
}

// Returns the bytes of a block, or none if there is no block.
fn block_bytes<'a>(block: &Option<BodyBlock<'a>>) -> &'a [u8]
    ensures bytes { result.now ≡ part_bytes block.now }
    ensures short { length result.now ≤ 1024 }
{
    match block {
        Some(block) => block.bytes,
        None => &[],
    }
}
