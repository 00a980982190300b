//! The protocol front end: exchanges, message IDs, and uploads.
ghost use Rattle.std.specs.Prelude.{◌≡◌, ◌≤◌, [], false, true, IfOk, Some};
ghost use Rattle.coap_opts.specs.Verdict.{verdict};
ghost use Rattle.coap_opts.specs.Verdict.{asked_by};
ghost use Rattle.coap_dedup.specs.Exchanges.{IsNew};
ghost use Rattle.fc_front.specs.Answering.{AnswersIn, after_answered, emission_of, responded};
ghost use Rattle.fc_front.specs.Askings.{IsAsking, IsServable, asked_in, new_request, authorized};
ghost use Rattle.fc_front.specs.Contents.{IsOf};
ghost use Rattle.fc_front.specs.Exchanges as spec;
ghost use Rattle.fc_front.specs.Exchanges.{advanced, first_front, front_expired, handed};
ghost use Rattle.fc_front.specs.Gauges.{gauges_at};
ghost use Rattle.fc_front.specs.Ids.{drawn_for, free_id};
ghost use Rattle.fc_front.specs.Policies.{is_allowed};
ghost use Rattle.coap_block.specs.Transfers.{after_addition};
ghost use Rattle.coap_block.specs.Views.{add_seen};
ghost use Rattle.fc_front.specs.Receiving.{add_in, addition_of, after_delivered, after_received, emission_if, handed_on, handled, handled_if, id_in, is_confirmable, look_in, next_opening, opening_for, received_as, reply_or_nothing, request_received, immediate_front, reply_sent};
ghost use Rattle.fc_front.specs.Receiving as receiving;
ghost use Rattle.fc_front.specs.Timers.{timer_job};
ghost use Rattle.coap_reply.specs.Responses.{reset_of, settled_by};

use crate::answer::Answer;
use crate::gauges::FrontGauges;
use crate::ids::MessageIds;
use crate::job_writer::{NO_OPENING, blank_request, slot_asked, write_job, write_timer_job};
use crate::policy::{Managers, Policy, changes_program, is_manager};
use crate::reply;
use crate::reply::immediate;
use crate::request_message::RequestMessage;
use arrayvec::ArrayVec;
use coap_block::uploads::TRANSFERS;
use coap_block::{Added, Uploads};
use coap_dedup::{Exchanges, Looked, Room};
use coap_msg::{Bad, Code, Datagram, Emission, Endpoint, Message, MessageType, WINDOW, read};
use coap_opts::laws::requests_are_within;
use coap_opts::{Action, Asking, Block, Classified, Request, classify_over};
use coap_reply::reset;
use fc_ticket::{Ask, Job, Opening, Origin, SlotNumber};
use std::alloc::{AllocError, Global};
use std::marker::Model;

/// The result of a delivery, with the job or the response written separately.
///
/// The job and the response are written over those that the caller passes.
#[derive(Clone, Copy, PartialEq, Eq)]
pub enum Handled {
    /// Nothing is sent: the datagram is ignored, or no message ID is available for its response.
    Nothing,
    /// A datagram to send immediately, which was written.
    Reply,
    /// A job, which was written.
    Job,
    /// An acknowledgement, or a reset, of the message `mid`, for the observers.
    Signal { mid: u16, reset: bool },
}

/// The result of answering a job, with the response written separately.
///
/// The response is written over the emission that the caller passes.
#[derive(Clone, Copy, PartialEq, Eq)]
pub enum Responded {
    /// The response is to be sent, and was written.
    Sent,
    /// The job has no exchange, or the exchange's lifetime has passed: nothing is sent.
    Late,
    /// No message ID is available: nothing is sent.
    NoId,
}

/// The protocol front end.
///
/// A front has the managers' networks, the exchanges younger than EXCHANGE_LIFETIME, the transfers
/// in progress, and the message IDs that the server draws. It also has the latest time that was
/// passed to it.
#[derive(Drop)]
pub struct Front {
    managers: Managers,
    now: u64,
    exchanges: Exchanges,
    uploads: Uploads,
    ids: MessageIds,
}

impl Model for Front {
    ghost use Rattle.std.specs.Prelude.{◌≤◌};
    ghost use Rattle.fc_front.specs.Exchanges.{FrontState};

    ghost Value = { FrontState };

    ghost view = { λ f. record { managers = f.managers; limits = f.exchanges.limits; now = f.now; opened = f.exchanges.opened; held = f.exchanges.held; transfers = f.uploads; ids = f.ids } };

    ghost invariant = { λ f. f.exchanges.now ≤ f.now };
}

impl Front {
    /// Makes a front with `policy` and no exchange, which draws `first_id` first.
    ///
    /// # Errors
    /// Returns `AllocError` if memory for the exchanges, transfers or message IDs can't be
    /// allocated.
    pub fn new(alloc: Global, policy: &Policy, first_id: u16) -> Result<Front, AllocError>
        ensures { IfOk result (λ f. f ≡ first_front policy.now first_id) }
    {
        Ok(Front {
            managers: policy.managers,
            now: 0,
            exchanges: Exchanges::new(alloc, policy.limits)?,
            uploads: Uploads::new(alloc)?,
            ids: MessageIds::new(alloc, first_id)?,
        })
    }

    /// Handles a datagram: parses and classifies it, and searches the exchanges for it.
    ///
    /// `now` is in milliseconds; the clock is advanced to it, and old exchanges expire. The result
    /// is `Job` if a request is served, and its job is written over `job`. It is `Reply` if a
    /// datagram is to be sent immediately, which is written over `reply`. It is `Signal` for an
    /// Acknowledgement or a Reset message for the observers, and otherwise `Nothing`. In the last
    /// two cases the contract says nothing of `job` and `reply`. Neither is moved.
    #[tactic(auto, unfolding(crate::specs::Receiving::received))]
    pub fn handle(
        &mut self,
        now: u64,
        endpoint: Endpoint,
        bytes: &[u8],
        job: &mut Job,
        reply: &mut Emission,
    ) -> Handled
        ensures delivered { handled result job.new reply.new ≡ receiving.delivered (advanced self.old now) endpoint bytes.now }
        ensures after { self.new ≡ after_delivered (advanced self.old now) endpoint bytes.now }
    {
        self.hand(now);
        match read(bytes) {
            Ok(message) => self.receive(endpoint, &message, job, reply),
            Err(Bad::Ignore) => self.ignore(),
            Err(Bad::Reset(id)) => self.reject(endpoint, id, reply),
        }
    }

    /// Advances the clock, never backwards, and expires old exchanges.
    ///
    /// `now` is in milliseconds. An exchange expires after EXCHANGE_LIFETIME.
    pub fn tick(&mut self, now: u64)
        ensures { self.new ≡ advanced self.old now }
    {
        self.hand(now);
        self.exchanges.expire(self.now);
    }

    /// Fires the timer of a slot, and writes its job over the caller's.
    ///
    /// `now` is in milliseconds, and the clock is advanced to it. The job is that of a POST from
    /// 0.0.0.0:0. No exchange is opened for the POST, so its response goes to nobody.
    pub fn fire(&mut self, slot: SlotNumber, now: u64, job: &mut Job)
        ensures job { job.new ≡ timer_job slot }
        ensures after { self.new ≡ advanced self.old now }
    {
        self.tick(now);
        write_timer_job(job, slot);
    }

    /// Draws a message ID for a lease's notification (RFC 7252, section 4.4).
    ///
    /// `now` is in milliseconds, and the clock is advanced to it. Returns `None`, and draws
    /// nothing, if the next message ID was last drawn less than EXCHANGE_LIFETIME before.
    pub fn fresh_id(&mut self, now: u64) -> Option<u16>
        ensures id { result ≡ free_id (advanced self.old now).ids (advanced self.old now).now }
        ensures after { let f = advanced self.old now in self.new ≡ record f { ids = drawn_for false f.ids f.now } }
    {
        self.tick(now);
        self.ids.draw(self.now)
    }

    /// Answers a job with `answer`, which is an answer of this job.
    ///
    /// `now` is in milliseconds, and the clock is advanced to it. Returns `Late` if the job has no
    /// exchange or the exchange's lifetime has passed, and `NoId` if no message ID is available.
    /// Otherwise the response is written over `reply`, and is stored in the exchange. If nothing is
    /// sent, the contract says nothing of `reply`.
    pub fn respond(
        &mut self,
        now: u64,
        job: &Job,
        answer: &Answer,
        reply: &mut Emission,
    ) -> Responded
        requires { IsOf job.now answer.now }
        ensures answered { AnswersIn (advanced self.old now) job.now answer.now (responded result reply.new) }
        ensures after { self.new ≡ after_answered job.now (emission_of (responded result reply.new)) (advanced self.old now) }
    {
        self.tick(now);
        if !is_live(self.now, &job.origin.opening) {
            return Responded::Late;
        }
        let Some(id) = self.reply_id(job.confirmable, job.origin.id) else {
            return Responded::NoId;
        };
        reply.to = job.origin.endpoint;
        reply::answer(job, id, answer, &mut reply.bytes);
        self.exchanges
            .close(self.now, job.origin.opening.number, &reply.bytes);
        Responded::Sent
    }

    /// Returns how many exchanges and transfers the front holds at `now`, and their limits.
    ///
    /// `now` is in milliseconds; an earlier time counts as the front's own. Those whose lifetime
    /// has passed by then don't count. Nothing changes.
    pub fn gauges(&self, now: u64) -> FrontGauges
        ensures { result ≡ gauges_at now self.entry.now }
    {
        let now = self.now.max(now);
        FrontGauges {
            exchanges: self.exchanges.held_at(now),
            most_exchanges: self.exchanges.places(),
            transfers: self.uploads.held_at(now),
            most_transfers: TRANSFERS,
        }
    }

    // Returns the message ID of a response: the request's `id` for an acknowledgement, otherwise
    // the next one that the server draws. Returns `None` if the next one isn't available.
    fn reply_id(&mut self, confirmable: bool, id: u16) -> Option<u16>
        ensures id { result ≡ id_in self.old confirmable id }
        ensures after { self.new ≡ record self.old { ids = drawn_for confirmable self.old.ids self.old.now } }
    {
        if confirmable {
            Some(id)
        } else {
            self.ids.draw(self.now)
        }
    }

    // Advances the clock to `now`, never backwards, without expiring any exchange.
    fn hand(&mut self, now: u64)
        ensures { self.new ≡ handed self.old now }
    {
        self.now = self.now.max(now);
    }

    // Ignores a datagram: expires old exchanges, and returns `Nothing`.
    fn ignore(&mut self) -> Handled
        ensures handled { result ≡ Handled.Nothing }
        ensures after { self.new ≡ front_expired self.old }
    {
        self.exchanges.expire(self.now);
        Handled::Nothing
    }

    // Rejects a message: writes a Reset message with the message ID `id` over `reply`.
    fn reject(&mut self, endpoint: Endpoint, id: u16, reply: &mut Emission) -> Handled
        ensures handled { result ≡ Handled.Reply }
        ensures reply { reply.new ≡ reset_of endpoint id }
        ensures after { self.new ≡ front_expired self.old }
    {
        self.exchanges.expire(self.now);
        reset(endpoint, id, reply);
        Handled::Reply
    }

    // Handles a message by its class, for `handle`. A request goes to `request`, and an
    // acknowledgement or a reset to the observers. Others are rejected or ignored.
    fn receive(
        &mut self,
        endpoint: Endpoint,
        message: &Message<'_>,
        job: &mut Job,
        reply: &mut Emission,
    ) -> Handled
        ensures delivered { let f = front_expired self.old in
            handled result job.new reply.new ≡ handed_on (received_as f endpoint message.now (verdict message.now)) f endpoint }
        ensures after { let f = front_expired self.old in
            self.new ≡ after_received (received_as f endpoint message.now (verdict message.now)) f endpoint }
    {
        requests_are_within();
        let mut request = Request::blank();
        match classify_over(message, &mut request) {
            Classified::Request(asking) => {
                let request = RequestMessage {
                    endpoint,
                    message,
                    fields: &request,
                };
                self.request(&request, asking, job, reply)
            }
            Classified::Reset => self.reject(endpoint, message.id(), reply),
            Classified::Signal { reset } => {
                self.exchanges.expire(self.now);
                Handled::Signal {
                    mid: message.id(),
                    reset,
                }
            }
            Classified::Ignored => self.ignore(),
        }
    }

    // Handles a request. A duplicate gets the stored response, if there is one. A new request
    // without room for its exchange is answered 5.03. Above its address's share, only a confirmable
    // request is answered so; any other is ignored.
    fn request(
        &mut self,
        request: &RequestMessage<'_, '_>,
        asking: Asking<()>,
        job: &mut Job,
        reply: &mut Emission,
    ) -> Handled
        requires { IsAsking asking request.now.fields.now }
        ensures delivered { let f = front_expired self.old in
            handled result job.new reply.new ≡ handed_on (asked_in f request.now.endpoint request.now.message.now asking request.now.fields.now) f request.now.endpoint }
        ensures after { let f = front_expired self.old in
            self.new ≡ after_received (asked_in f request.now.endpoint request.now.message.now asking request.now.fields.now) f request.now.endpoint }
    {
        let message = request.message;
        match self
            .exchanges
            .look(self.now, request.endpoint, message.id())
        {
            Looked::New => match self.exchanges.room(request.endpoint.ip) {
                Room::Free => self.open(request, asking, job, reply),
                Room::OverShare if message.kind() != MessageType::Confirmable => Handled::Nothing,
                Room::Full | Room::OverShare => {
                    replied(self.write_now(request, Code::SERVICE_UNAVAILABLE, None, reply))
                }
            },
            Looked::Again(bytes) => {
                reply.to = request.endpoint;
                reply.bytes = bytes;
                Handled::Reply
            }
            Looked::Busy | Looked::Silent => Handled::Nothing,
        }
    }

    // Handles a new request for which there is room, by `asking`: serves it, answers it with the
    // code of a refusal, or sends no response. An exchange is opened in each case.
    fn open(
        &mut self,
        request: &RequestMessage<'_, '_>,
        asking: Asking<()>,
        job: &mut Job,
        reply: &mut Emission,
    ) -> Handled
        requires new { look_in self.old request.now.endpoint request.now.message.now ≡ IsNew }
        requires asking { IsAsking asking request.now.fields.now }
        ensures delivered { let x = new_request self.old request.now.endpoint request.now.message.now asking request.now.fields.now in
            handled result job.new reply.new ≡ handed_on x self.old request.now.endpoint }
        ensures after { let x = new_request self.old request.now.endpoint request.now.message.now asking request.now.fields.now in
            self.new ≡ after_received x self.old request.now.endpoint }
    {
        match self.authorize(request.endpoint, asking, request.fields.action) {
            Asking::Silent => {
                self.open_exchange(request);
                Handled::Nothing
            }
            Asking::Refuse(code) => self.respond_now(request, code, None, reply),
            Asking::Serve(()) => self.serve(request, job, reply),
        }
    }

    // Opens an exchange for a request, and returns the exchange's number and start time.
    fn open_exchange(&mut self, request: &RequestMessage<'_, '_>) -> Opening
        requires { look_in self.old request.now.endpoint request.now.message.now ≡ IsNew }
        ensures opening { result ≡ next_opening self.old }
        ensures after { self.new ≡ opening_for self.old request.now.endpoint request.now.message.now }
    {
        let confirmable = request.message.kind() == MessageType::Confirmable;
        let number = self.exchanges.open(
            self.now,
            request.endpoint,
            request.message.id(),
            confirmable,
        );
        Opening {
            number,
            at: self.now,
        }
    }

    // Serves a new request that its endpoint is allowed to send. The payload of a block is added to
    // its transfer first. If the request has no block, or the body is then complete, opens an
    // exchange, writes the request's job over `job`, and returns `Job`. Otherwise opens an exchange
    // and answers the request immediately: writes the response over `reply` and returns `Reply`, or
    // `Nothing` if no message ID is available.
    fn serve(
        &mut self,
        request: &RequestMessage<'_, '_>,
        job: &mut Job,
        reply: &mut Emission,
    ) -> Handled
        requires new { look_in self.old request.now.endpoint request.now.message.now ≡ IsNew }
        requires limits { IsServable (asked_by request.now.fields.now) }
        requires allowed { is_allowed self.old.managers request.now.endpoint request.now.fields.now.action ≡ true }
        ensures delivered { let x = request_received self.old request.now.endpoint request.now.message.now (asked_by request.now.fields.now) in
            handled result job.new reply.new ≡ handed_on x self.old request.now.endpoint }
        ensures after { let x = request_received self.old request.now.endpoint request.now.message.now (asked_by request.now.fields.now) in
            self.new ≡ after_received x self.old request.now.endpoint }
    {
        match request.fields.block1 {
            None => {
                let opening = self.open_exchange(request);
                write_job(job, opening, request, request.fields.payload);
                Handled::Job
            }
            Some(block) => self.serve_block(request, block, job, reply),
        }
    }

    // Returns 4.03 (Forbidden) instead of `asking` if the request would be served, but `endpoint`
    // isn't allowed `action`. Otherwise returns `asking`.
    fn authorize(&self, endpoint: Endpoint, asking: Asking<()>, action: Action) -> Asking<()>
        ensures { result ≡ authorized (is_allowed self.entry.now.managers endpoint action) asking }
    {
        match asking {
            Asking::Serve(()) if !self.is_allowed(endpoint, action) => Asking::Refuse(
                Code::FORBIDDEN,
            ),
            _ => asking,
        }
    }

    // Returns whether an endpoint is allowed an action. Managers are allowed each action, other
    // endpoints only actions that change no program.
    fn is_allowed(&self, endpoint: Endpoint, action: Action) -> bool
        ensures { result ≡ is_allowed self.entry.now.managers endpoint action }
    {
        !changes_program(action) || is_manager(&self.managers, endpoint)
    }

    // Adds the payload of a new request with this block to the request's transfer. Serves the
    // request if the body is complete; otherwise answers it immediately. This function isn't
    // inlined: inlining would make its caller zero the memory of a body for each request.
    #[inline(never)]
    fn serve_block(
        &mut self,
        request: &RequestMessage<'_, '_>,
        block: Block,
        job: &mut Job,
        reply: &mut Emission,
    ) -> Handled
        requires new { look_in self.old request.now.endpoint request.now.message.now ≡ IsNew }
        requires limits { IsServable (asked_by request.now.fields.now) }
        requires block { request.now.fields.now.block1 ≡ Some block }
        requires allowed { is_allowed self.old.managers request.now.endpoint request.now.fields.now.action ≡ true }
        ensures delivered { let x = request_received self.old request.now.endpoint request.now.message.now (asked_by request.now.fields.now) in
            handled result job.new reply.new ≡ handed_on x self.old request.now.endpoint }
        ensures after { let x = request_received self.old request.now.endpoint request.now.message.now (asked_by request.now.fields.now) in
            self.new ≡ after_received x self.old request.now.endpoint }
    {
        match self.add(request, block) {
            Added::Whole(body) => {
                let opening = self.open_exchange(request);
                write_job(job, opening, request, body.as_slice());
                Handled::Job
            }
            Added::Continue => self.respond_now(request, Code::CONTINUE, Some(block), reply),
            Added::Incomplete => {
                self.respond_now(request, Code::REQUEST_ENTITY_INCOMPLETE, None, reply)
            }
            Added::BadLength => self.respond_now(request, Code::BAD_REQUEST, None, reply),
            Added::TooLarge => {
                self.respond_now(request, Code::REQUEST_ENTITY_TOO_LARGE, None, reply)
            }
            Added::Full => self.respond_now(request, Code::SERVICE_UNAVAILABLE, None, reply),
        }
    }

    // Adds a request's payload to its transfer. Returns the whole body, or why it isn't complete.
    fn add(&mut self, request: &RequestMessage<'_, '_>, block: Block) -> Added
        requires { request.now.fields.now.block1 ≡ Some block }
        ensures added { add_seen result ≡ add_in self.old request.now.endpoint (asked_by request.now.fields.now) }
        ensures after { self.new ≡ record self.old {
          transfers = after_addition (addition_of self.old.now request.now.endpoint (asked_by request.now.fields.now)) self.old.transfers;
        } }
    {
        let slot = slot_asked(request.fields.action);
        self.uploads.add(
            self.now,
            request.endpoint,
            slot,
            Some(block),
            request.fields.payload,
        )
    }

    // Writes the response to a request over `reply`: this code, and the block that the request
    // sent. Returns whether a message ID was available; if not, there is no response. The response
    // isn't stored in the exchange.
    fn write_now(
        &mut self,
        request: &RequestMessage<'_, '_>,
        code: Code,
        block1: Option<Block>,
        reply: &mut Emission,
    ) -> bool
        requires { 64 ≤ code.byte }
        ensures emission { let response = settled_by code.byte block1 in
            emission_if result reply.new ≡ reply_sent self.old request.now.endpoint request.now.message.now response }
        ensures after { self.new ≡ record self.old {
          ids = drawn_for (is_confirmable request.now.message.now.kind) self.old.ids self.old.now;
        } }
    {
        let confirmable = request.message.kind() == MessageType::Confirmable;
        let Some(id) = self.reply_id(confirmable, request.message.id()) else {
            return false;
        };
        immediate(id, request, code, block1, reply);
        true
    }

    // Opens an exchange for a request, and answers the request immediately with this code. If no
    // message ID is available, the result is `Nothing`, and the exchange stays without a response.
    fn respond_now(
        &mut self,
        request: &RequestMessage<'_, '_>,
        code: Code,
        block1: Option<Block>,
        reply: &mut Emission,
    ) -> Handled
        requires new { look_in self.old request.now.endpoint request.now.message.now ≡ IsNew }
        requires code { 64 ≤ code.byte }
        ensures handled { let response = settled_by code.byte block1 in
            (job : Job) → handled result job reply.new ≡ reply_or_nothing (reply_sent self.old request.now.endpoint request.now.message.now response) }
        ensures after { self.new ≡ immediate_front self.old request.now.endpoint request.now.message.now (settled_by code.byte block1) }
    {
        let opening = self.open_exchange(request);
        let sent = self.write_now(request, code, block1, reply);
        if sent {
            self.exchanges.close(self.now, opening.number, &reply.bytes);
        }
        replied(sent)
    }
}

/// Returns whether an exchange is live at `now`, in milliseconds.
///
/// An exchange is live for less than EXCHANGE_LIFETIME after it was opened (RFC 7252, section
/// 4.8.2). The opening of a job without an exchange is never live.
pub fn is_live(now: u64, opening: &Opening) -> bool
    ensures { result ≡ spec.opening_is_live now opening.now }
{
    opening.number < NO_OPENING.number && (now < opening.at || now - opening.at < WINDOW)
}

// Returns the result for a request that is answered immediately: `Reply` if the response was
// written. Otherwise no message ID was available, and the result is `Nothing`.
fn replied(sent: bool) -> Handled
    ensures { result ≡ handled_if sent }
{
    if sent {
        Handled::Reply
    } else {
        Handled::Nothing
    }
}

/// Makes an empty emission, to be overwritten.
pub fn blank_emission() -> Emission
    ensures { result.bytes.items ≡ [] }
{
    Emission {
        to: Endpoint::default(),
        bytes: Datagram::new(),
    }
}

/// Makes a blank job, to be overwritten.
pub fn blank_job() -> Job {
    Job {
        origin: Origin::default(),
        turn: None,
        confirmable: false,
        token: ArrayVec::new(),
        etags: ArrayVec::new(),
        block: None,
        observe: None,
        ask: Ask::Run(blank_request()),
    }
}
