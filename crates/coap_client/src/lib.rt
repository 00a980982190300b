//! A CoAP client: block-wise fetches, and pings.
//!
//! The modules hold the requests, the classification of replies, the transmission of a request, the
//! fetch, the ping, and the server as a client sees it. An observer of a resource is in
//! `coap_observer`, which sends its requests by this crate.
//!
//! # What is proved
//!
//! *Paths and messages:*
//!
//! - A text is a path exactly if it consists of segments of 1 to 255 bytes, each after a slash.
//!   Otherwise the error has the number of the first segment that is empty or too long, counted
//!   from 1, and says whether that segment is empty or too long. Or the error says that the text
//!   doesn't begin with a slash.
//! - A datagram is received into 1,281 bytes, one more than the maximum length of a message. A
//!   datagram that fills these bytes may be truncated, and is skipped.
//! - Each request of a client request is a message that fits a datagram. It has the whole body, a
//!   block of it, or a block option that requests a further block of the response. The size of that
//!   block is the one that the server named last. A Content-Format, if the client request has one,
//!   is in each request with the body or a block of it, between the path and the query.
//! - Each datagram has one meaning for a request: a piggybacked response, a separate response, an
//!   acknowledgement, a rejection, or none of these. The next step after each response is defined
//!   exactly. There is no next step after a response with an unknown critical option, or with two
//!   Block1 or two Block2.
//!
//! *A fetch that returns a response:*
//!
//! - Its result follows from a list of replies. For each reply, the request that results from the
//!   earlier replies was passed to `Peer::send`, and the reply's datagram came from
//!   `Peer::receive`.
//! - A separate response answers a request whose acknowledgement arrived, unless the request was
//!   non-confirmable. The response's message ID is none of the earlier ones. A confirmable separate
//!   response is acknowledged, and acknowledged again if it is received again.
//! - The fetch's calls on the peer (`Peer::called`) follow, call by call, from the datagrams
//!   received. There is one request for each of these replies, and no other. Each request is sent
//!   after the response to the request before it. Message IDs count up.
//! - A confirmable request is retransmitted with the same bytes after waits of 2, 4, 8 and 16
//!   seconds, so it is sent at most five times. After its acknowledgement it isn't sent again, and
//!   the wait is 93 seconds more. A non-confirmable request is sent once, with a wait of 32
//!   seconds.
//! - The first datagram that answers, acknowledges or rejects a request ends its wait. A separate
//!   response answers only if one is awaited, and if no response with its message ID has answered
//!   before.
//! - Apart from requests, only acknowledgements are sent: one for each confirmable response, also
//!   for one whose message ID has answered before.
//! - If the fetch ends with a success, requests that were sent have the whole body, joined. Each
//!   block of the body follows a success that reports that the server took the block before. The
//!   response consists of the payloads of blocks of one ETag, or of none. Each of them begins at
//!   the end of those before it, and none follows the last.
//! - The fetch starts again at most once, and only for a GET.
//!
//! *A fetch that fails, in terms of its calls:*
//!
//! - *No answer*: earlier requests have their responses, and the last request was sent by the whole
//!   schedule. Its waits add up to at least 62 seconds, or to 32 for a non-confirmable request. Or
//!   2^64 - 1 datagrams arrived in one wait.
//! - *Rejected*: the last datagram received is a Reset message with the request's ID (RFC 7252,
//!   section 4.2).
//! - *A response that doesn't match*: the replies lead to such a response, or there are 2^22
//!   replies.
//! - *Changed*: a further block has another ETag, for the second time, or for the first time and
//!   the method isn't GET.
//! - *Out of memory*: each request that was sent has its response. No clause says that memory was
//!   exhausted.
//! - *UDP*: a call on the peer returned that error. No clause says which calls were made before it.
//! - There is no other error.
//!
//! *A ping* is an empty confirmable message:
//!
//! - It succeeds only if a Reset message with its ID arrives (RFC 7252, section 4.3). *No answer*
//!   is returned only after the whole schedule of a confirmable request.
//! - Other datagrams are skipped, and nothing else is sent.
//!
//! *A [`UdpPeer`]:*
//!
//! - A receive returns nothing only if a reading of its clock is at or after the end of the wait.
//!   An interruption by a signal doesn't end a wait and isn't an error. An error is one of the
//!   clock, or one of the socket other than `Interrupted`, `WouldBlock` and `TimedOut`.
//! - A wait ends the given number of seconds after a reading of the clock. The peer's times are the
//!   milliseconds from its start to a reading.
//!
//! By the contracts of `Path::parse`, `ClientRequest::new`, `ClientRequest::write`, `is_reply`,
//! `is_separate`, `next_of`, `fetch`, `ping`, `UdpPeer`, `laws`.
//!
//! No public clause of [`UdpPeer`] says which bytes its socket sends and receives, or that a
//! receive ends with its wait. Tests check both over a socket.
#![tactic(auto)]

pub mod client_request;
pub mod fetcher;
pub mod laws;
pub mod part;
pub mod path;
pub mod peer;
pub mod ping;
pub mod reply;
pub mod transmission;
pub mod udp;

pub use client_request::{ClientRequest, RequestTarget};
pub use fetcher::{FetchFault, Fetched, fetch};
pub use part::Part;
pub use path::{Path, PathError};
pub use peer::Peer;
pub use reply::Next;
pub use udp::UdpPeer;
