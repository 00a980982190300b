//! The joining of a state's blocks: the state's notification has the first block.
//!
//! See RFC 7959, section 2.6. `fcreq observe` calls it for each state of several blocks.
ghost use Rattle.std.specs.Prelude.{◌≡◌, ◌≤◌, IfErr, IfOk, OnErr, OnOk, length, max, take, true};
ghost use Rattle.coap_observer.specs.Completions.{IsBlockHandled, IsCompletion, block_id};
ghost use Rattle.coap_observer.specs.Notices.{is_first_part, notice_after};
ghost use Rattle.coap_client.specs.Fetching.{after_reply, going_on};
ghost use Rattle.coap_client.specs.Parts.{largest_szx};
ghost use Rattle.coap_client.specs.Replies.{next_of_answer};
ghost use Rattle.coap_observer.specs.Representations.{IsBegun, IsBlockAnswer, IsFollowingFault, IsNoteFault, IsNotedAs, IsStateBy, state_of};
ghost use Rattle.coap_client.specs.Requests.{IsBlock, IsFurther};
ghost use Rattle.coap_client.specs.Transmissions.{MakesCalls};

use crate::notice::{NotificationClass, is_notification};
use crate::observing::{DatedMessage, NotedMessage, Observer};
use crate::watch::Observation;
use coap_client::client_request::LARGEST_SZX;
use coap_client::fetcher::{FetchFault, Step};
use coap_client::part::Part;
use coap_client::peer::{Buffer, Peer};
use coap_client::reply::{Next, etag_of, next_of_answer, next_of_block};
use coap_msg::{Code, Message, read};
use std::alloc::{AllocError, Global};
use std::fmt;

/// Class of the success codes (RFC 7252, section 5.9.1).
const SUCCESS: u8 = 2;

/// Maximum number of requests for the further blocks of a state.
const REQUESTS: u32 = 1 << 22;

/// A state whose blocks are joined, up to some block.
///
/// It has the number and the size of the next block, the bytes of the blocks before that, and their
/// ETag.
#[derive(Drop)]
pub struct Joining {
    pub number: u32,
    pub szx: u8,
    pub body: Vec<u8>,
    pub etag: Vec<u8>,
}

/// The reason why the further blocks of a state can't be fetched.
#[derive(Clone, Copy, Debug, PartialEq, Eq)]
pub enum Unfetched {
    /// No response arrived, not even to the last transmission of a request.
    Silence,
    /// The server rejected a request by a Reset message.
    Rejected,
    /// The server has an error of this code.
    Refused(Code),
    /// A further block is of another version.
    Changed,
    /// A response isn't the requested block, or has an unknown critical option.
    Malformed,
    /// A block is missing after 4,194,304 requests, the maximum number.
    TooMany,
}

/// The text of a reason, such as `a further block was refused by 4.04`.
impl fmt::Display for Unfetched {
    ghost use Rattle.std.specs.Prelude.{Some};
    ghost use Rattle.coap_observer.specs.Representations.{unfetched_text};

    ghost output = { λ cause. Some (unfetched_text cause) };

    fn fmt<W: fmt::Write>(&self, f: &mut fmt::Formatter<W>) -> fmt::Result {
        match self {
            Unfetched::Silence => write!(f, "no answer to a request for a further block"),
            Unfetched::Rejected => write!(f, "a request for a further block was rejected"),
            Unfetched::Refused(code) => write!(f, "a further block was refused by {code}"),
            Unfetched::Changed => write!(f, "it changed while its blocks were fetched"),
            Unfetched::Malformed => write!(f, "a further block doesn't fit the request"),
            Unfetched::TooMany => write!(f, "a block is missing after 4194304 requests"),
        }
    }
}

/// The result of the requests for the further blocks of a state.
#[derive(Drop)]
pub enum Completion {
    /// All blocks of the state, joined, and the code of the last response.
    Whole(Code, Vec<u8>),
    /// A newer notification arrived meanwhile; the state is given up.
    Newer(NotedMessage),
    /// The further blocks can't be fetched.
    Unfetched(Unfetched),
}

/// The effect of a datagram that ends the wait for a block.
#[derive(Clone, Copy, PartialEq, Eq)]
pub enum BlockHandled {
    /// The next request follows.
    GoesOn,
    /// The state is whole; the last response has this code.
    Ended(Code),
    /// A newer notification arrived.
    Newer(NotedMessage),
    /// The further blocks can't be fetched.
    Unfetched(Unfetched),
}

impl Joining {
    /// Begins the joining of a state whose first block is `message`.
    ///
    /// Returns `None` if `message` isn't the first of several blocks.
    ///
    /// # Errors
    /// Returns `AllocError` if memory can't be allocated for the first of several blocks.
    pub fn begin(alloc: Global, message: &Message<'_>) -> Result<Option<Joining>, AllocError>
        ensures begun { IfOk result (IsBegun message.now) }
        ensures refused { OnErr result (is_first_part (next_of_answer 0 largest_szx message.now) ≡ true) }
    {
        let Next::Ask(part) = next_of_answer(0, LARGEST_SZX, message) else {
            return Ok(None);
        };
        let Part::Answer { number, szx } = part else {
            unreachable!();
        };
        let mut body = Vec::new(alloc);
        body.extend_from_slice(message.payload())?;
        let mut etag = Vec::new(alloc);
        etag.extend_from_slice(etag_of(message))?;
        Ok(Some(Joining {
            number,
            szx,
            body,
            etag,
        }))
    }

    // Handles `message`, the response to the request for the next block, and returns its effect.
    // Sets the next block, unless the joining ends. Returns `AllocError` if memory can't be
    // allocated.
    fn handle(&mut self, message: &Message<'_>) -> Result<Step, AllocError>
        requires { IsBlock self.old.number self.old.szx }
        ensures own { OnOk result (IsBlock self.new.number self.new.szx) }
        ensures step { IfOk result (IsStateBy (after_reply 0 message.now (state_of self.old)) self.new) }
    {
        match next_of_block(self.number, self.szx, &self.etag, message) {
            Next::Ask(part) => {
                self.go_on(part, message)?;
                Ok(Step::GoesOn)
            }
            Next::Last => {
                self.body.extend_from_slice(message.payload())?;
                Ok(Step::Ended(message.code()))
            }
            Next::Refused => {
                self.body.clear();
                self.body.extend_from_slice(message.payload())?;
                Ok(Step::Ended(message.code()))
            }
            Next::Stale => Ok(Step::Outdated),
            Next::Malformed => Ok(Step::Malformed),
        }
    }

    // Sets the next block to that of `part`. Appends the payload of `message`, the response to the
    // request before, and replaces the ETag by that of `message`. Returns `AllocError` if memory
    // can't be allocated.
    fn go_on(&mut self, part: Part, message: &Message<'_>) -> Result<(), AllocError>
        requires { IsFurther part }
        ensures own { OnOk result (IsBlock self.new.number self.new.szx) }
        ensures after { OnOk result (going_on part self.old.body.items self.old.etag.items message.now ≡ state_of self.new) }
    {
        let Part::Answer { number, szx } = part else {
            unreachable!();
        };
        self.body.extend_from_slice(message.payload())?;
        self.etag.clear();
        self.etag.extend_from_slice(etag_of(message))?;
        self.number = number;
        self.szx = szx;
        Ok(())
    }
}

impl Observation {
    /// Requests the further blocks of a state, one after the other, and joins them.
    ///
    /// Returns [`Completion::Whole`] with the joined blocks, or [`Completion::Newer`] after a
    /// notification that is to be shown. Returns [`Completion::Unfetched`] if the blocks can't be
    /// fetched.
    ///
    /// Each block follows the response with the block before it. The message IDs count up from
    /// `ids`, which is the next message ID afterwards; those of the registration and of the
    /// deregistration are skipped. Confirmable notifications that arrive meanwhile are
    /// acknowledged. A notification that is to be shown is at the start of `buffer`. It is recorded
    /// as shown if it is a state. After a notification that isn't newer, the client requests the
    /// block again.
    ///
    /// # Errors
    /// Returns an error if a notification can't be shown, or if sending, receiving, reading the
    /// clock or allocating memory fails.
    pub fn complete<P: Peer>(
        &mut self,
        alloc: Global,
        peer: &mut P,
        observer: &Observer<'_>,
        joining: Joining,
        ids: &mut u16,
        buffer: &mut Buffer,
    ) -> Result<Completion, FetchFault>
        requires { IsBlock joining.number joining.szx }
        ensures completed { IfOk result (IsCompletion P.went P.came P.is_time (MakesCalls (P.called peer.old) (P.called peer.new)) observer.now
            ids.old ids.new (state_of joining) self.old self.new buffer.new) }
        ensures fault { IfErr result (IsFollowingFault P.came P.is_error observer.now.token) }
    {
        let mut joining = joining;
        for requested in 0..REQUESTS {
            let id = block_id(observer, *ids);
            *ids = id.wrapping_add(1);
            let (number, szx) = (joining.number, joining.szx);
            let count = match observer.ask_block(alloc, peer, number, szx, id, buffer) {
                Ok(Some(count)) => count,
                Ok(None) => return Ok(Completion::Unfetched(Unfetched::Silence)),
                Err(FetchFault::Rejected) => return Ok(Completion::Unfetched(Unfetched::Rejected)),
                Err(fault) => return Err(fault),
            };
            match self.handle_block(peer, observer, id, &mut joining, count, buffer)? {
                BlockHandled::GoesOn => {}
                BlockHandled::Ended(code) => {
                    let Joining { body, .. } = joining;
                    return Ok(Completion::Whole(code, body));
                }
                BlockHandled::Newer(noted) => return Ok(Completion::Newer(noted)),
                BlockHandled::Unfetched(cause) => return Ok(Completion::Unfetched(cause)),
            }
        }
        Ok(Completion::Unfetched(Unfetched::TooMany))
    }

    // Handles the message that ended the wait for a block: the block, or a notification. Returns
    // the message's effect. The message is the first `count` bytes of `buffer`; `id` is the
    // request's message ID. Returns an error if a notification can't be shown, if the clock can't
    // be read, or if memory can't be allocated.
    fn handle_block<P: Peer>(
        &mut self,
        peer: &mut P,
        observer: &Observer<'_>,
        id: u16,
        joining: &mut Joining,
        count: usize,
        buffer: &Buffer,
    ) -> Result<BlockHandled, FetchFault>
        requires block { IsBlock joining.old.number joining.old.szx }
        requires long { count ≤ length buffer.now }
        requires arrived { IsBlockAnswer P.went P.came observer.now joining.old.number joining.old.szx id (take count buffer.now) }
        ensures handled { IfOk result (IsBlockHandled P.went P.came P.is_time (MakesCalls (P.called peer.old) (P.called peer.new)) observer.now id
            joining.old joining.new self.old self.new (take count buffer.now) count) }
        ensures fault { IfErr result (IsFollowingFault P.came P.is_error observer.now.token) }
    {
        let Ok(message) = read(&buffer[..count]) else {
            unreachable!();
        };
        if is_notification(&observer.token, &message) {
            let time = peer.now()?;
            match self.note(DatedMessage { count, time }, &message)? {
                Some(noted) => Ok(BlockHandled::Newer(noted)),
                None => Ok(BlockHandled::GoesOn),
            }
        } else {
            match joining.handle(&message)? {
                Step::GoesOn => Ok(BlockHandled::GoesOn),
                Step::Ended(code) if code.class() == SUCCESS => Ok(BlockHandled::Ended(code)),
                Step::Ended(code) => Ok(BlockHandled::Unfetched(Unfetched::Refused(code))),
                Step::Outdated => Ok(BlockHandled::Unfetched(Unfetched::Changed)),
                Step::Malformed => Ok(BlockHandled::Unfetched(Unfetched::Malformed)),
            }
        }
    }

    // Returns a notification if it is to be shown, and records it as shown if it is a state.
    // Returns `None` if the notification isn't newer or is a duplicate. Returns `FetchFault::Part`
    // if the notification can't be shown, and `FetchFault::Memory` if memory can't be allocated.
    fn note(
        &mut self,
        came: DatedMessage,
        message: &Message<'_>,
    ) -> Result<Option<NotedMessage>, FetchFault>
        ensures noted { IfOk result (IsNotedAs came message.now self.old self.new) }
        ensures fault { IfErr result (IsNoteFault (notice_after self.old (max self.old.at came.time) message.now)) }
    {
        let at = self.at.max(came.time);
        let (count, time) = (came.count, came.time);
        match self.notice_of(at, message) {
            NotificationClass::State(sequence) => {
                self.keep(sequence, at, message.id())?;
                Ok(Some(NotedMessage {
                    count,
                    time,
                    last: false,
                }))
            }
            NotificationClass::Last => Ok(Some(NotedMessage {
                count,
                time,
                last: true,
            })),
            NotificationClass::Malformed => Err(FetchFault::Part),
            NotificationClass::Older => Ok(None),
        }
    }
}

// Returns the message ID of a request for a further block: `next`, or the observer's third ID. The
// observer's first two IDs are skipped, since the registration and the deregistration have them.
fn block_id(observer: &Observer<'_>, next: u16) -> u16
    ensures { result ≡ block_id observer.now next }
{
    if next == observer.id || next == observer.id.wrapping_add(1) {
        observer.id.wrapping_add(2)
    } else {
        next
    }
}
