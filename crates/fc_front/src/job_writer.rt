//! The jobs of requests and of timers, each written over a job.
ghost use Rattle.std.specs.Prelude.{◌≡◌, ◌≤◌, length};
ghost use Rattle.coap_opts.specs.Verdict.{asked_by};
ghost use Rattle.fc_front.specs.Askings.{IsServable};
ghost use Rattle.fc_front.specs.Receiving.{ask_by, etags_by, job_of, observes, request_asked, initial_vars_by};
ghost use Rattle.fc_front.specs.Receiving as receiving;
ghost use Rattle.fc_front.specs.Timers.{timer_job, timer_request};

use crate::request_message::RequestMessage;
use arrayvec::ArrayVec;
use coap_block::Body;
use coap_msg::{Endpoint, Message, MessageType, Token};
use coap_opts::request::ETAGS;
use coap_opts::{Action, Block, CANCEL, REGISTER, Request, has_observe};
use fc_help::Method;
use fc_ticket::{Ask, InitialVars, Job, Opening, Origin, SlotNumber};

/// The opening of a job without an exchange, with a number that no exchange has.
pub(crate) const NO_OPENING: Opening = Opening {
    number: u64::MAX,
    at: 0,
};

/// The endpoint of a timer's job: 0.0.0.0:0, which no peer has (RFC 1122, 3.2.1.3).
const UNSPECIFIED: Endpoint = Endpoint {
    ip: [0; 4],
    port: 0,
};

// Writes the job of a slot's timer over `job`.
pub(crate) fn write_timer_job(job: &mut Job, slot: SlotNumber)
    ensures { job.new ≡ timer_job slot }
{
    job.origin = Origin {
        opening: NO_OPENING,
        endpoint: UNSPECIFIED,
        id: 0,
        slot,
    };
    job.turn = None;
    job.confirmable = false;
    job.token.clear();
    job.etags.clear();
    job.block = None;
    job.observe = None;
    write_post(&mut job.ask, slot.number());
}

// Writes the action of a POST without a Content-Format, a query and a payload over `ask`. The
// memory of an image isn't touched unless `ask` was an install.
fn write_post(ask: &mut Ask, slot: u8)
    ensures { ask.new ≡ Ask.Run (timer_request slot) }
{
    match ask {
        Ask::Run(before) => before.write(Method::Post, slot, None, &[], &[]),
        _ => *ask = Ask::Run(fc_help::Request::new(Method::Post, slot, None, &[], &[])),
    }
}

// Writes the job of a request with this exchange over `job`. `body` is the request's whole body.
pub(crate) fn write_job(
    job: &mut Job,
    opening: Opening,
    request: &RequestMessage<'_, '_>,
    body: &[u8],
)
    requires request { IsServable (asked_by request.now.fields.now) }
    requires body { length body.now ≤ 8208 }
    ensures { job.new ≡ job_of opening request.now.endpoint request.now.message.now (asked_by request.now.fields.now) body.now }
{
    let RequestMessage {
        endpoint,
        message,
        fields,
    } = request;
    job.origin = Origin {
        opening,
        endpoint: *endpoint,
        id: message.id(),
        slot: SlotNumber::new(slot_asked(fields.action)),
    };
    job.turn = None;
    job.confirmable = message.kind() == MessageType::Confirmable;
    write_token(&mut job.token, message);
    write_etags(&mut job.etags, fields);
    job.block = named_block(fields);
    job.observe = fields.observe;
    write_ask(&mut job.ask, fields, body);
}

// Returns the block that a request names: the one that a PUT sends or that a GET requests. Returns
// `None` if the request names none.
fn named_block(request: &Request<'_>) -> Option<Block>
    ensures { result ≡ receiving.named_block (asked_by request.now).block1 (asked_by request.now).block2 }
{
    match request.block1 {
        Some(block) => Some(block),
        None => request.block2,
    }
}

// Writes a message's token over `token`.
fn write_token(token: &mut Token, message: &Message<'_>)
    ensures { token.new.items ≡ message.now.token }
{
    token.clear();
    let _fits = token.try_extend_from_slice(message.token());
}

// Writes a request's ETags over `etags`. A request that registers or cancels an observation gets
// none, since it needs a run.
fn write_etags(etags: &mut ArrayVec<u64, ETAGS>, request: &Request<'_>)
    ensures { etags.new.items ≡ etags_by (observes request.now.observe) request.now.etags.items }
{
    etags.clear();
    if !observes(request.observe) {
        let _fits = etags.try_extend_from_slice(request.etags.as_slice());
    }
}

// Returns whether an Observe option registers an observer or cancels its registration.
fn observes(option: Option<u32>) -> bool
    ensures { result ≡ observes option }
{
    has_observe(REGISTER, option) || has_observe(CANCEL, option)
}

// Returns the slot of an action. The list of slots belongs to no slot, so its result is 0.
pub(crate) fn slot_asked(action: Action) -> u8
    ensures { result ≡ receiving.slot_asked action }
{
    match action {
        Action::Get(slot)
        | Action::Post(slot)
        | Action::Install(slot)
        | Action::Remove(slot)
        | Action::Describe(slot) => slot,
        Action::Discover => 0,
    }
}

// Writes the action of a request's job over `ask`. `body` is the request's whole body, the image of
// an install.
fn write_ask(ask: &mut Ask, request: &Request<'_>, body: &[u8])
    requires request { IsServable (asked_by request.now) }
    requires body { length body.now ≤ 8208 }
    ensures { ask.new ≡ ask_by request.now.action (asked_by request.now) body.now }
{
    match request.action {
        Action::Get(slot) => write_run(ask, Method::Get, slot, request),
        Action::Post(slot) => write_run(ask, Method::Post, slot, request),
        Action::Install(_) => write_image(ask, body, initial_vars_by(request.query.as_slice())),
        Action::Remove(_) => *ask = Ask::Remove,
        Action::Describe(_) => *ask = Ask::Describe,
        Action::Discover => *ask = Ask::Discover,
    }
}

// Writes the action of running `slot`'s program on a request over `ask`. The memory of an image
// isn't touched unless `ask` was an install.
fn write_run(ask: &mut Ask, method: Method, slot: u8, request: &Request<'_>)
    requires { IsServable (asked_by request.now) }
    ensures { ask.new ≡ Ask.Run (request_asked method slot (asked_by request.now)) }
{
    match ask {
        Ask::Run(before) => write_request(before, method, slot, request),
        _ => write_run_anew(ask, method, slot, request),
    }
}

// Writes the action of running `slot`'s program on a request over `ask`, an action that isn't a
// run.
fn write_run_anew(ask: &mut Ask, method: Method, slot: u8, request: &Request<'_>)
    requires { IsServable (asked_by request.now) }
    ensures { ask.new ≡ Ask.Run (request_asked method slot (asked_by request.now)) }
{
    let mut run = blank_request();
    write_request(&mut run, method, slot, request);
    *ask = Ask::Run(run);
}

// Writes the action of installing the program of `image` over `ask`.
fn write_image(ask: &mut Ask, image: &[u8], initial: InitialVars)
    requires { length image.now ≤ 8208 }
    ensures { ask.new ≡ Ask.Install (record { items = image.now }) initial }
{
    *ask = Ask::Install(image_of(image), initial);
}

// Returns `Kept` if the query of a PUT is `keep`, otherwise `Zeros`.
fn initial_vars_by(query: &[u8]) -> InitialVars
    ensures { result ≡ initial_vars_by query.now }
{
    if query == b"keep".as_slice() {
        InitialVars::Kept
    } else {
        InitialVars::Zeros
    }
}

// Returns a copy of the bytes of an image.
fn image_of(bytes: &[u8]) -> Body
    requires { length bytes.now ≤ 8208 }
    ensures { result.items ≡ bytes.now }
{
    let mut image = Body::new();
    let _fits = image.try_extend_from_slice(bytes);
    image
}

// Writes the request that the program of `slot` is to answer over `run`: the method, and the query,
// Content-Format and payload of `request`.
fn write_request(run: &mut fc_help::Request, method: Method, slot: u8, request: &Request<'_>)
    requires { IsServable (asked_by request.now) }
    ensures { run.new ≡ request_asked method slot (asked_by request.now) }
{
    run.write(
        method,
        slot,
        request.content_format,
        request.query.as_slice(),
        request.payload,
    );
}

// Makes a blank request, to be overwritten.
pub(crate) fn blank_request() -> fc_help::Request {
    fc_help::Request::new(Method::Get, 0, None, &[], &[])
}
