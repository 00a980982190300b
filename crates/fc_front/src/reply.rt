//! Responses: from answers to datagrams, for the front.
ghost use Rattle.std.specs.Prelude.{◌≡◌, ◌≤◌, [], Some, drop, length};
ghost use Rattle.coap_msg.specs.Codes.{code};
ghost use Rattle.coap_opts.specs.Replies.{reply_options};
ghost use Rattle.coap_reply.specs.Views.{HasNoBlock};
ghost use Rattle.coap_reply.specs.Responses.{etag, sent_in, settled_by};
ghost use Rattle.coap_reply.specs.Views.{to_peer};
ghost use Rattle.fc_front.specs.Contents.{Listed};
ghost use Rattle.fc_front.specs.Ends.{content_of, part_in};
ghost use Rattle.fc_front.specs.Receiving.{reply_sent_by};
ghost use Rattle.fc_front.specs.Replies as spec;
ghost use Rattle.fc_front.specs.Replies.{IsReplyTo, link_format, made_response, to_job};

use crate::answer::{Answer, AnswerBody, End};
use crate::request_message::RequestMessage;
use crate::text::{fault_line, link_lines, receipt_line};
use coap_msg::{Code, Datagram, Emission, Endpoint, Message, MessageType};
use coap_opts::{Block, ReplyOptions};
use coap_reply::{BodyBlock, Envelope, content, ran, reply_kind, respond, text};
use fc_ticket::{Job, Receipt};
use fc_verify::Refusal;

// Writes the response to a job over `bytes`, with this message ID and this answer.
pub(crate) fn answer(job: &Job, id: u16, answer: &Answer, bytes: &mut Datagram)
    ensures { IsReplyTo job.now id answer.now (to_job job.now bytes.new) }
{
    let (said, part) = answer.said();
    match said {
        AnswerBody::Ran {
            code,
            block,
            serial,
            observed,
            ..
        } => ran(
            &envelope_of(job, id),
            *code,
            &block_in(*block, part),
            *serial,
            *observed,
            bytes,
        ),
        AnswerBody::Other(end) => ended(job, id, end, bytes),
    }
}

// Returns the block with this place and these bytes, or `None` if there is no block.
fn block_in(block: Option<Option<Block>>, bytes: &[u8]) -> Option<BodyBlock<'_>>
    requires { length bytes.now ≤ 1024 }
    ensures { result ≡ part_in block bytes.now }
{
    let block = block?;
    Some(BodyBlock { bytes, block })
}

// Returns the header data of a job's response with this message ID.
fn envelope_of(job: &Job, id: u16) -> Envelope<'_>
    ensures { result ≡ spec.envelope_of job.entry.now id }
{
    Envelope {
        to: job.origin.endpoint,
        kind: reply_kind(job.confirmable),
        id,
        token: job.token.as_slice(),
    }
}

// Writes over `bytes` the response to a job whose last call wasn't a run.
fn ended(job: &Job, id: u16, end: &End, bytes: &mut Datagram)
    ensures { IsReplyTo job.now id (content_of end.now) (to_job job.now bytes.new) }
{
    let envelope = envelope_of(job, id);
    match end {
        End::Match(serial) => valid(&envelope, *serial, bytes),
        End::Missing | End::Told(None) => text(&envelope, Code::NOT_FOUND, &[], bytes),
        End::Unavailable | End::Rejected(Refusal::NoMemory) => {
            text(&envelope, Code::SERVICE_UNAVAILABLE, &[], bytes);
        }
        End::Made(receipt, true) => made(job, id, Code::CREATED, receipt, bytes),
        End::Made(receipt, false) => made(job, id, Code::CHANGED, receipt, bytes),
        End::Rejected(Refusal::Broken(fault)) => {
            let line = fault_line(fault);
            text(&envelope, Code::BAD_REQUEST, line.as_slice(), bytes);
        }
        End::Removed => text(&envelope, Code::DELETED, &[], bytes),
        End::Told(Some(receipt)) => {
            let line = receipt_line(receipt);
            let block = BodyBlock::cut(line.as_slice(), job.block);
            content(&envelope, ReplyOptions::default(), &block, bytes);
        }
        End::Core(words) => links(job, id, words.as_slice(), bytes),
    }
}

// Writes a 2.03 (Valid) response over `bytes`. Its ETag is `serial`, the slot's serial; the client
// already has the response of this serial.
fn valid(envelope: &Envelope<'_>, serial: u64, bytes: &mut Datagram)
    ensures { to_peer envelope.now bytes.new ≡ sent_in envelope.now
        (record { code = code 2 3; options = etag serial; payload = [] }) }
{
    let options = ReplyOptions {
        etag: Some(serial),
        ..ReplyOptions::default()
    };
    respond(envelope, Code::VALID, options, &[], bytes);
}

// Content-Format of `application/link-format` (RFC 7252, section 12.3).
const LINK_FORMAT: u16 = 40;

// Writes a 2.05 (Content) response over `bytes`, with the requested block of the links to the slots
// that have a program. `words` are the head words of the slots.
fn links(job: &Job, id: u16, words: &[u64], bytes: &mut Datagram)
    requires { length words.now ≤ 64 }
    ensures { IsReplyTo job.now id (Listed words.now) (to_job job.now bytes.new) }
{
    let lines = link_lines(words);
    let block = BodyBlock::cut(after_first(lines.as_slice()), job.block);
    content(&envelope_of(job, id), link_options(), &block, bytes);
}

// Writes the response to an install over `bytes`: this code, and the receipt as the payload. If the
// image came in blocks, the response has the last one as Block1.
fn made(job: &Job, id: u16, code: Code, receipt: &Receipt, bytes: &mut Datagram)
    requires { 64 ≤ code.byte }
    ensures { to_job job.now bytes.new ≡ sent_in (spec.envelope_of job.now id)
        (made_response code.byte job.now receipt.now) }
{
    let line = receipt_line(receipt);
    let options = ReplyOptions {
        block1: job.block,
        ..ReplyOptions::default()
    };
    respond(&envelope_of(job, id), code, options, line.as_slice(), bytes);
}

// Returns the options of a list of links: its Content-Format alone.
#[tactic(auto, unfolding(coap_opts::specs::Values::uint_bytes))]
fn link_options() -> ReplyOptions
    ensures options { reply_options result ≡ link_format }
    ensures blocks { HasNoBlock result }
{
    ReplyOptions {
        content_format: Some(LINK_FORMAT),
        ..ReplyOptions::default()
    }
}

// Returns all bytes except the first, which is the comma before the first link. Returns no bytes if
// `bytes` is empty.
fn after_first(bytes: &[u8]) -> &[u8]
    ensures { result.now ≡ drop 1 bytes.now }
{
    match bytes {
        [] => bytes,
        [_, rest @ ..] => rest,
    }
}

// Writes the response to a request that is answered immediately over `emission`. It has this
// message ID, this code, and the block that the request sent as Block1.
pub(crate) fn immediate(
    id: u16,
    request: &RequestMessage<'_, '_>,
    code: Code,
    block1: Option<Block>,
    emission: &mut Emission,
)
    requires { 64 ≤ code.byte }
    ensures { Some emission.new ≡ reply_sent_by (Some id) request.now.endpoint request.now.message.now (settled_by code.byte block1) }
{
    let RequestMessage {
        endpoint,
        message,
        ..
    } = request;
    let envelope = Envelope {
        to: *endpoint,
        kind: reply_kind(message.kind() == MessageType::Confirmable),
        id,
        token: message.token(),
    };
    let options = ReplyOptions {
        block1,
        ..ReplyOptions::default()
    };
    emission.to = *endpoint;
    respond(&envelope, code, options, &[], &mut emission.bytes);
}
