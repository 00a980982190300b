//! Jobs: the work for requests and for notification leases.
ghost use Rattle.std.specs.Prelude.{◌≡◌};

use crate::slot_number::SlotNumber;
use arrayvec::ArrayVec;
use coap_block::Body;
use coap_msg::{Endpoint, Token};
use coap_opts::Block;
use coap_opts::request::ETAGS;
use fc_help::Request;

/// An exchange: its number and its start time.
///
/// Numbers count from 0. The time is in milliseconds.
#[derive(Clone, Copy, Default, PartialEq, Eq)]
pub struct Opening {
    pub number: u64,
    pub at: u64,
}

/// The origin of a job.
///
/// The origin has the job's exchange, endpoint and message ID, and the slot that the job's request
/// names. The slot is 0 if the request names none.
#[derive(Clone, Copy, Default, PartialEq, Eq)]
pub struct Origin {
    pub opening: Opening,
    pub endpoint: Endpoint,
    pub id: u16,
    pub slot: SlotNumber,
}

/// The variables that a program has after its install.
#[derive(Clone, Copy, PartialEq, Eq)]
pub enum InitialVars {
    /// Zeros.
    Zeros,
    /// The previous program's variables if they have the new one's size, else zeros.
    Kept,
}

/// The action that a job requests.
#[derive(Drop)]
pub enum Ask {
    /// Answer a request with the slot's program.
    Run(Request),
    /// Install the program of an image in the slot.
    Install(Body, InitialVars),
    /// Remove the slot's program.
    Remove,
    /// Describe the slot's program.
    Describe,
    /// List the slots that have a program (RFC 6690, section 4).
    Discover,
}

impl Ask {
    ghost use Rattle.fc_ticket.specs.Runs.{initial_vars_of};

    /// Returns the variables that an install is to leave.
    ///
    /// `Shard::install` of `fc_registry` takes the result. For any other action it is `Zeros`.
    pub fn initial_vars(&self) -> InitialVars
        ensures { result ≡ initial_vars_of self.now }
    {
        match self {
            Ask::Install(_, initial) => *initial,
            _ => InitialVars::Zeros,
        }
    }
}

/// A job: a request to answer, or an observer's notification lease.
///
/// The job of a request has an open exchange. The job of a lease answers the observer's request
/// again. This job has no exchange; its origin has the observer's endpoint and slot.
#[derive(Drop)]
pub struct Job {
    pub origin: Origin,
    /// The number of the job's lease among the leases of its slot's observers.
    ///
    /// It is `None` for a request.
    pub turn: Option<u64>,
    /// Whether the job's request is confirmable.
    pub confirmable: bool,
    pub token: Token,
    /// The serials that a GET has as ETags (RFC 7252, section 5.10.6.2).
    ///
    /// The client has the responses of these serials.
    pub etags: ArrayVec<u64, ETAGS>,
    /// The block that the job's request names (RFC 7959).
    ///
    /// For a PUT it is the last block of the body, for a GET the requested block.
    pub block: Option<Block>,
    /// The value of Observe in a GET of a slot (RFC 7641, section 2).
    ///
    /// 0 registers the client as an observer, 1 cancels the registration.
    pub observe: Option<u32>,
    pub ask: Ask,
}
