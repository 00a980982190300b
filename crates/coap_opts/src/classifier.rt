//! Classification of the messages that a server receives.
//!
//! The type and the code are checked first. The checks of a request follow: proxy options, then
//! unrecognised critical options, the method, the path, and the method on the path's resource. The
//! block sizes and the query's length are next, and the payload's length is last.
ghost use Rattle.std.specs.Prelude.{◌≡◌, ◌||◌, None, Some};
ghost use Rattle.coap_msg.specs.Wire.{Message as Stated};
ghost use Rattle.coap_opts.specs.Verdict.{asked_by, asked_with, etags, query, refusal_verdict, request_verdict, verdict};
ghost use Rattle.coap_opts.specs.Classified.{IsRequestOf, asking_verdict, verdict_of, written_over};
ghost use Rattle.coap_opts.specs.Firsts.{AreFirsts, AreShort};
ghost use Rattle.coap_opts.specs.Verdict as spec;

use crate::block::Block;
use crate::collector::{Collected, JoinedQuery, collect};
use crate::fields::{block_of, resource_of, u16_of, u24_of};
use crate::firsts::Firsts;
use crate::number::{BLOCK1, BLOCK2, CONTENT_FORMAT, OBSERVE};
use crate::path::method_of;
use crate::request::{Action, Asking, Classified, PAYLOAD, Request};
use crate::served::action_of;
use coap_msg::{Code, Message, MessageType};

/// Classifies a message in one pass over its options.
///
/// Returns an accepted request with its fields. A refusal has the code of the first check that
/// fails; a non-confirmable request with an unrecognised critical option gets no response. For a
/// message that is no request, the result is the required reaction: see [`Classified`].
pub fn classify<'a>(message: &Message<'a>) -> Classified<Request<'a>>
    ensures { verdict_of asked_by result ≡ verdict message.now }
{
    let mut request = Request::blank();
    match classify_over(message, &mut request) {
        Classified::Request(asking) => Classified::Request(served(asking, request)),
        Classified::Reset => Classified::Reset,
        Classified::Signal { reset } => Classified::Signal { reset },
        Classified::Ignored => Classified::Ignored,
    }
}

/// Returns `asking` for [`classify`], with `request` in `Serve`.
///
/// `Refuse` and `Silent` stay as they are.
fn served<'a>(asking: Asking<()>, request: Request<'a>) -> Asking<Request<'a>>
    ensures { asking_verdict asked_by result ≡ asking_verdict (written_over request.entry) asking }
{
    match asking {
        Asking::Serve(()) => Asking::Serve(request),
        Asking::Refuse(code) => Asking::Refuse(code),
        _ => Asking::Silent,
    }
}

/// Classifies a message, and writes an accepted request to `request`.
///
/// The result is that of [`classify`] without the request. The server's front passes its own
/// `request`, so that no request is moved. If no request is accepted, the contract doesn't say what
/// `request` contains.
#[tactic(auto, unfolding(crate::specs::Verdict::verdict))]
pub fn classify_over<'a>(message: &Message<'a>, request: &mut Request<'a>) -> Classified<()>
    ensures { verdict_of (written_over request.new) result ≡ verdict message.now }
{
    let is_empty = message.code() == Code::EMPTY;
    match message.kind() {
        MessageType::Confirmable if is_request(message.code()) => {
            Classified::Request(judge(message, request))
        }
        MessageType::Confirmable => Classified::Reset,
        MessageType::NonConfirmable if is_request(message.code()) => {
            Classified::Request(judge(message, request))
        }
        MessageType::Acknowledgement if is_empty => Classified::Signal { reset: false },
        MessageType::Reset if is_empty => Classified::Signal { reset: true },
        _ => Classified::Ignored,
    }
}

/// Returns whether the code's class is 0, and the code isn't 0.00.
fn is_request(code: Code) -> bool
    ensures { result ≡ spec.is_request code.byte }
{
    code != Code::EMPTY && code.class() == 0
}

/// Classifies a request, and writes it to `request` if it is accepted.
///
/// Returns whether to serve the request, refuse it with a code, or send no response.
fn judge<'a>(message: &Message<'a>, request: &mut Request<'a>) -> Asking<()>
    ensures { asking_verdict (written_over request.new) result ≡ request_verdict message.now }
{
    match write_request(message, request) {
        Ok(()) => Asking::Serve(()),
        Err(code) => refused(message.kind(), code),
    }
}

/// Returns the action for a request of the type `kind` that is refused with `code`.
///
/// Returns `Silent` for a non-confirmable request and the code 4.02 (Bad Option), which refuses an
/// unrecognised critical option. Otherwise returns `Refuse` with `code`.
fn refused(kind: MessageType, code: Code) -> Asking<()>
    ensures { (r : Request) → asking_verdict (written_over r) result ≡ refusal_verdict kind code.byte }
{
    if kind == MessageType::NonConfirmable && code == Code::BAD_OPTION {
        Asking::Silent
    } else {
        Asking::Refuse(code)
    }
}

/// Writes the fields of `message` to `request` if no check of a request fails.
///
/// Otherwise returns the code of the first check that fails, and the contract doesn't say what
/// `request` contains.
#[tactic(auto, unfolding(crate::specs::Recognition::row_of, crate::specs::Served::rows))]
fn write_request<'a>(message: &Message<'a>, request: &mut Request<'a>) -> Result<(), Code>
    ensures { IsRequestOf message.now result request.new }
{
    let mut collected = Collected::new();
    collect(message, &mut collected);
    if collected.names_proxy() {
        return Err(Code::PROXYING_NOT_SUPPORTED);
    }
    if collected.has_unknown {
        return Err(Code::BAD_OPTION);
    }
    let Some(method) = method_of(message.code()) else {
        return Err(Code::METHOD_NOT_ALLOWED);
    };
    let Some(resource) = resource_of(collected.path) else {
        return Err(Code::NOT_FOUND);
    };
    let Some(action) = action_of(resource, method) else {
        return Err(Code::METHOD_NOT_ALLOWED);
    };
    let block1 = block_of(&collected.firsts, BLOCK1);
    let block2 = block_of(&collected.firsts, BLOCK2);
    if is_bad(block1, block2, &collected.query) {
        return Err(Code::BAD_REQUEST);
    }
    let payload = message.payload();
    if payload.len() > PAYLOAD {
        return Err(Code::REQUEST_ENTITY_TOO_LARGE);
    }
    request.query = collected.query.items;
    request.etags = collected.etags;
    request.payload = payload;
    write_fields(action, &collected.firsts, request);
    Ok(())
}

/// Writes the action, and the fields that have one option each, to `request`.
///
/// The other fields of `request` are already written.
#[tactic(auto, unfolding(crate::specs::Recognition::row_of, crate::specs::Served::rows))]
fn write_fields<'a>(action: Action, firsts: &Firsts<'a>, request: &mut Request<'a>)
    requires { AreShort firsts.now }
    ensures { (m : Stated) → AreFirsts m firsts.now → request.old.query.items ≡ query m →
        request.old.etags.items ≡ etags m → request.old.payload.now ≡ m.payload → asked_by request.new ≡ asked_with action m }
{
    request.action = action;
    request.content_format = u16_of(firsts, CONTENT_FORMAT);
    request.observe = observe_at(action, u24_of(firsts, OBSERVE));
    request.block1 = block_of(firsts, BLOCK1);
    request.block2 = block_of(firsts, BLOCK2);
}

/// Returns whether a block has the reserved size, or the query is too long.
///
/// The response is then 4.00 (Bad Request).
fn is_bad(block1: Option<Block>, block2: Option<Block>, query: &JoinedQuery) -> bool
    ensures { result ≡ spec.is_bad block1 block2 query.now.is_long }
{
    is_reserved(block1) || is_reserved(block2) || query.is_long
}

/// Returns the Observe value if the action runs a program.
///
/// Returns `None` for another action, which can't be observed.
fn observe_at(action: Action, observe: Option<u32>) -> Option<u32>
    ensures { result ≡ spec.observe_at action observe }
{
    match action {
        Action::Get(_) | Action::Post(_) => observe,
        _ => None,
    }
}

/// Returns whether there is a block and it has the reserved size, 7.
fn is_reserved(block: Option<Block>) -> bool
    ensures { result ≡ spec.is_reserved block }
{
    block.is_some_and(|block| block.szx() == 7)
}
