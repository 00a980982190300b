//! A CoAP observer of a resource: registration, notifications, and states of several blocks.
//!
//! The sources are RFC 7641, and RFC 7959, section 2.6. The modules hold the classes of responses,
//! the record of the notifications that were shown, the observer's calls on a peer, and the joining
//! of a state's blocks. The requests, the peer and the errors are those of `coap_client`.
//!
//! # What is proved
//!
//! *An observer:*
//!
//! - Its registration and its deregistration are messages that fit a datagram, with its token. They
//!   are retransmitted as a confirmable request of a fetch is: the registration until it has a
//!   response, the deregistration until it is acknowledged. While the registration is outstanding,
//!   only its response is acknowledged. While the deregistration is outstanding, each confirmable
//!   notification is acknowledged.
//! - The classification of a response is exact, by RFC 7641's comparison. The response is a newer
//!   state; not newer, or a duplicate of one already shown (one result for both); the last; or one
//!   that can't be shown.
//! - The next notification to show came from `Peer::receive`. It is a separate response with the
//!   observer's token, and was acknowledged if it is confirmable. It is a state newer than the one
//!   accepted last, at a time that the peer returned; or it is the last, and no clause says that the
//!   last is newer.
//! - A skipped datagram isn't a notification, or isn't newer, or is a duplicate of one already
//!   shown. Nothing is sent except the acknowledgement of each confirmable notification.
//! - A successful deregistration was sent and acknowledged.
//! - An observer reads the clock after it received a notification and acknowledged a confirmable
//!   one.
//!
//! *An observer that fails:*
//!
//! - A registration has no response, or a deregistration no acknowledgement: it was sent by the
//!   whole schedule.
//! - A request is rejected: the last datagram received is a Reset message with its ID.
//! - Out of memory: no call was made, unless the blocks of a state were requested.
//! - During the wait for a notification: the last notification can't be shown, or is a newer state
//!   for which there was no memory. So an older notification never ends the observation.
//! - Or a call on the peer returned an error.
//! - `deregister_by` calls the peer to send its request in each case.
//!
//! *A state of several blocks that an observer is notified of:*
//!
//! - Each further block is requested by a GET without Observe, whose token is its message ID, by
//!   the schedule of a confirmable request. Its response, or a notification, ends the wait.
//! - The body consists of the payloads of the notification and of the responses to these requests,
//!   joined. All have one ETag, or none, each begins at the end of those before it, and none
//!   follows the last (RFC 7959, sections 2.4 and 2.6).
//! - The first request is for block 1, and each response with a block that is followed by others
//!   leads to the request for the next one. After a notification that isn't newer, or is a
//!   duplicate, the same block is requested again. No other notification lets the requests go on.
//! - Message IDs count up from a given one, modulo 65,536. Those of the registration and of the
//!   deregistration are skipped.
//! - The joining ends in exactly one way. All blocks arrived; or a newer state, which is recorded
//!   as shown, or the last response arrived before; or the blocks can't be fetched. The reason for
//!   that is the one that the last response or its absence gives, and has an exact text. If there
//!   was an error, no clause says which calls were made before it.
//!
//! *RFC 7641's comparison:*
//!
//! - 0 is newer than 16,777,215. A number ahead by 8,388,607 is newer, and so is one lower by
//!   8,388,609.
//! - Of two numbers 8,388,608 apart, neither is newer within 128 s. The same number isn't newer
//!   within 128 s either. Any number is newer 128,001 ms later.
//! - Of two states at the same time, at most one is newer.
//! - A response that can be shown is the last if it has no Observe, or one of four bytes. A success
//!   with an Observe of three bytes is a state. The first of several blocks can be shown if it is a
//!   state.
//! - A registration has Observe 0, a deregistration Observe 1.
//!
//! By the contracts of `Observer::register`, `deregister`, `deregister_by`, `ask_block`, `notice_of`,
//! `is_newer`, `Observation::notice_of`, `keep`, `next`, `complete`; `Joining`; `laws`.
#![tactic(auto)]

pub mod joining;
pub mod laws;
pub mod notice;
pub mod observing;
pub mod watch;

pub use joining::{Completion, Joining, Unfetched};
pub use notice::NotificationClass;
pub use observing::{NotedMessage, Observer};
pub use watch::Observation;
