//! Fetches: sequences of requests, each sent after the response to the one before.
ghost use Rattle.std.specs.Prelude.{◌≡◌, ℕ, ◌+◌, ◌++◌, ◌%◌, [], IfErr, IfOk, OnOk, if◌then◌else◌, length};
ghost use Rattle.coap_client.specs.Requests.{IsPartOf};
ghost use Rattle.coap_client.specs.Replies.{begins_exchange};
ghost use Rattle.coap_client.specs.Joined.{SendsWhole};
ghost use Rattle.coap_client.specs.Faults.{IsFetchOutcomeFault, IsFetchFault};
ghost use Rattle.coap_client.specs.Transmissions.{MakesCalls};
ghost use Rattle.coap_client.specs.declared.fetcher.FetchFault.TheVariants.{Memory, Socket};
ghost use Rattle.coap_client.specs.Fetching.{IsFetchOutcome, IsFetched, IsSameAnswer, IsStepOf, Out, going_on, with_taken_id};

use crate::client_request::ClientRequest;
use crate::part::Part;
use crate::peer::{BUFFER, Peer};
use crate::reply::{Next, begins_exchange, etag_of, next_of};
use crate::transmission::{SentRequest, ask};
use coap_msg::{Code, Datagram, Message};
use coap_opts::Method;
use std::alloc::{AllocError, Global};
use std::io;
use thiserror::Error;

/// Maximum number of requests of a fetch.
///
/// It is more than the number of blocks that a body and a response can have together.
const REQUESTS: u32 = 1 << 22;

/// The errors of a fetch and of an observer.
#[derive(Debug, Drop, Error)]
pub enum FetchFault {
    /// No response arrived, not even to the last transmission of a request.
    #[error("no answer")]
    Silence,
    /// The server rejected a request by a Reset message (RFC 7252, section 4.2).
    #[error("the request was rejected")]
    Rejected,
    /// The response doesn't match the request.
    ///
    /// A success doesn't say that the server took the block of the body, or doesn't have the
    /// requested block of the response. Or a response has an unknown or repeated critical option.
    /// Or the fetch didn't end within 4,194,304 requests.
    #[error("the answer doesn't fit the block that was sent or asked for, or has a critical option that isn't known")]
    Malformed,
    /// The response changed during the fetch.
    ///
    /// A further block had another ETag than the blocks before it. That happened in both attempts
    /// of a GET, or in the only attempt of another method.
    #[error("the answer changed while its blocks were fetched")]
    Changed,
    /// A notification can't be shown.
    ///
    /// It has an unknown or repeated critical option, or is neither whole nor the first block of a
    /// state.
    #[error("what is observed has more than one block, or a critical option that isn't known")]
    Part,
    /// Sending or receiving failed.
    #[error("UDP: {0}")]
    Socket(#[source] io::Error),
    /// Memory couldn't be allocated for a request or for the response.
    #[error("{0}")]
    Memory(#[source] AllocError),
}

impl From<io::Error> for FetchFault {
    ghost from_gives = { λ error fault. fault ≡ Socket error };

    fn from(error: io::Error) -> FetchFault {
        FetchFault::Socket(error)
    }
}

impl From<AllocError> for FetchFault {
    ghost from_gives = { λ error fault. fault ≡ Memory error };

    fn from(error: AllocError) -> FetchFault {
        FetchFault::Memory(error)
    }
}

/// The result of a fetch.
#[derive(Drop)]
pub struct Fetched {
    /// The code of the last response.
    pub code: Code,
    /// The payloads of the response's blocks, joined.
    ///
    /// If the code isn't a success, the body is the payload of the last response alone.
    pub body: Vec<u8>,
}

/// The outcome of one attempt at a fetch.
#[derive(Drop)]
pub enum FetchOutcome {
    /// The attempt got the whole response.
    Ended(Fetched),
    /// The response changed during the attempt.
    ///
    /// The values are the message ID of the next request, and the message IDs of the separate
    /// responses so far.
    Outdated(u16, Vec<u16>),
    /// A response doesn't match the request.
    Malformed,
}

/// Fetches the response to the client request.
///
/// The message IDs of the requests count up from `first_id`.
///
/// The body of a PUT is sent in blocks if it has more than 1,024 bytes. A response in several
/// blocks is requested block by block (RFC 7959).
///
/// A confirmable request is retransmitted after 2, 4, 8 and 16 seconds without a response or an
/// acknowledgement. The client gives up 32 seconds after the last transmission. Once the request is
/// acknowledged, the client waits 93 seconds for the response. It waits 32 seconds for the response
/// to a non-confirmable request.
///
/// If the response to a GET changes during the fetch, the fetch starts again. It does so only once.
///
/// # Errors
/// Returns the [`FetchFault`] that ended the fetch.
pub fn fetch<P: Peer>(
    alloc: Global,
    peer: &mut P,
    client_request: &ClientRequest<'_>,
    first_id: u16,
) -> Result<Fetched, FetchFault>
    ensures fetched { IfOk result (λ f. IsFetched P.went P.came (P.called peer.old) (P.called peer.new) client_request.now first_id
        f.code.byte f.body.items) }
    ensures whole { IfOk result (λ f. SendsWhole P.went client_request.now f.code.byte) }
    ensures fault { IfErr result (IsFetchFault P.went P.came P.is_error (MakesCalls (P.called peer.old) (P.called peer.new))
        client_request.now first_id) }
{
    match fetch_once(alloc, peer, client_request, first_id, Vec::new(alloc))? {
        FetchOutcome::Ended(fetched) => Ok(fetched),
        FetchOutcome::Malformed => Err(FetchFault::Malformed),
        FetchOutcome::Outdated(id, earlier) if client_request.method == Method::Get => {
            match fetch_once(alloc, peer, client_request, id, earlier)? {
                FetchOutcome::Ended(fetched) => Ok(fetched),
                FetchOutcome::Malformed => Err(FetchFault::Malformed),
                FetchOutcome::Outdated(..) => Err(FetchFault::Changed),
            }
        }
        FetchOutcome::Outdated(..) => Err(FetchFault::Changed),
    }
}

// Makes one attempt at a fetch, from the first part on. `earlier` are the message IDs of the
// separate responses of an attempt before, if there was one. Returns the outcome, or an error other
// than `Changed`.
fn fetch_once<P: Peer>(
    alloc: Global,
    peer: &mut P,
    client_request: &ClientRequest<'_>,
    first_id: u16,
    earlier: Vec<u16>,
) -> Result<FetchOutcome, FetchFault>
    ensures fetch_outcome { IfOk result (IsFetchOutcome P.went P.came (P.called peer.old) (P.called peer.new) client_request.now first_id earlier.items) }
    ensures fault { IfErr result (IsFetchOutcomeFault P.went P.came P.is_error (MakesCalls (P.called peer.old) (P.called peer.new))
        client_request.now first_id earlier.items) }
{
    let mut fetch_state = FetchState {
        id: first_id,
        part: client_request.first_part(),
        body: Vec::new(alloc),
        etag: Vec::new(alloc),
        earlier,
    };
    let mut datagram = Datagram::new();
    let mut buffer = [0; BUFFER];
    for answered in 0..REQUESTS {
        client_request.write(alloc, fetch_state.part, fetch_state.id, &mut datagram)?;
        let request = fetch_state.request(client_request.confirmable, &datagram);
        let Some(message) = ask(peer, &request, &mut buffer)? else {
            return Err(FetchFault::Silence);
        };
        let step = fetch_state.handle(client_request, &message)?;
        match step {
            Step::GoesOn => {}
            Step::Ended(code) => {
                let FetchState { body, .. } = fetch_state;
                return Ok(FetchOutcome::Ended(Fetched { code, body }));
            }
            Step::Outdated => {
                let FetchState { id, earlier, .. } = fetch_state;
                return Ok(FetchOutcome::Outdated(id, earlier));
            }
            Step::Malformed => return Ok(FetchOutcome::Malformed),
        }
    }
    Err(FetchFault::Malformed)
}

/// The effect of a response on a fetch.
#[derive(Clone, Copy, PartialEq, Eq)]
pub enum Step {
    /// The next request follows.
    GoesOn,
    /// The fetch ends with this code.
    Ended(Code),
    /// The attempt ends, since the response changed.
    Outdated,
    /// The attempt ends, since the response doesn't match the request.
    Malformed,
}

// The state of a fetch: the outstanding request, the response so far with its ETag, and the message
// IDs of the separate responses so far.
#[derive(Drop)]
struct FetchState {
    id: u16,
    part: Part,
    body: Vec<u8>,
    etag: Vec<u8>,
    earlier: Vec<u16>,
}

impl FetchState {
    // Returns the outstanding request, which `datagram` encodes.
    fn request<'a>(&'a self, confirmable: bool, datagram: &'a Datagram) -> SentRequest<'a>
        ensures { (result.datagram.now ≡ datagram.entry.now) × (result.id ≡ self.entry.now.id) × (result.confirmable ≡ confirmable)
            × (result.earlier.now ≡ self.entry.now.earlier.items) }
    {
        SentRequest {
            datagram,
            id: self.id,
            confirmable,
            earlier: &self.earlier,
        }
    }

    // Handles `message`, the response to the outstanding request, and returns the effect on the
    // fetch. The next request is then outstanding if the result is `GoesOn`; otherwise the attempt
    // is over. Returns `AllocError` if memory can't be allocated.
    fn handle(
        &mut self,
        client_request: &ClientRequest<'_>,
        message: &Message<'_>,
    ) -> Result<Step, AllocError>
        requires { IsPartOf client_request.now self.old.part }
        ensures own { OnOk result (IsPartOf client_request.now self.new.part) }
        ensures step { IfOk result (IsStepOf (length client_request.now.payload.now) message.now self.old self.new) }
    {
        self.count(message)?;
        match next_of(client_request, self.part, &self.etag, message) {
            Next::Ask(part) => {
                self.go_on(part, message)?;
                Ok(Step::GoesOn)
            }
            Next::Last => {
                self.body.extend_from_slice(message.payload())?;
                Ok(Step::Ended(message.code()))
            }
            Next::Refused => {
                self.body.clear();
                self.body.extend_from_slice(message.payload())?;
                Ok(Step::Ended(message.code()))
            }
            Next::Stale => Ok(Step::Outdated),
            Next::Malformed => Ok(Step::Malformed),
        }
    }

    // Increments the message ID for the next request, and records the ID of a separate response.
    // Returns `AllocError` if memory can't be allocated.
    fn count(&mut self, message: &Message<'_>) -> Result<(), AllocError>
        ensures id { OnOk result (self.new.id ≡ (self.old.id + 1) % 65536) }
        ensures earlier { OnOk result (self.new.earlier.items ≡ with_taken_id message.now self.old.earlier.items) }
        ensures others { IsSameAnswer self.old self.new }
    {
        self.id = self.id.wrapping_add(1);
        if begins_exchange(message.kind()) {
            self.earlier.push(message.id())?;
        }
        Ok(())
    }

    // Makes the request for `part` the outstanding one. If `part` is a further block of the
    // response, appends the payload of `message`, the block before it, and records the ETag of
    // `message`. Returns `AllocError` if memory can't be allocated.
    fn go_on(&mut self, part: Part, message: &Message<'_>) -> Result<(), AllocError>
        ensures after { OnOk result (going_on part self.old.body.items self.old.etag.items message.now
            ≡ Out self.new.part self.new.body.items self.new.etag.items) }
        ensures part { OnOk result (self.new.part ≡ part) }
        ensures others { OnOk result ((self.new.id ≡ self.old.id) × (self.new.earlier.items ≡ self.old.earlier.items)) }
    {
        if matches!(part, Part::Answer { .. }) {
            self.body.extend_from_slice(message.payload())?;
            self.etag.clear();
            self.etag.extend_from_slice(etag_of(message))?;
        }
        self.part = part;
        Ok(())
    }
}
