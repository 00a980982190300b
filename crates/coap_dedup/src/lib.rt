//! Exchanges: stored requests and responses, to recognise duplicates.
//!
//! See RFC 7252, section 4.5. The exchanges are in order of arrival, with an index of their keys.
//!
//! [`Exchanges`] stores the requests that arrived within EXCHANGE_LIFETIME. [`Exchanges::look`]
//! returns whether a request is new or a duplicate. [`Exchanges::open`] begins an exchange, and
//! [`Exchanges::close`] stores its response.
//!
//! ```rust
//! ghost use Rattle.std.specs.Prelude.{◌≤◌};
//!
//! use coap_dedup::{Exchanges, Looked, Room};
//! use coap_msg::{Datagram, Endpoint};
//!
//! /// Returns the response to a confirmable request.
//! ///
//! /// A duplicate within 247,000 ms gets the bytes of the first response.
//! fn answer_once(
//!     exchanges: &mut Exchanges,
//!     now: u64,
//!     from: Endpoint,
//!     id: u16,
//!     answer: Datagram,
//! ) -> Option<Datagram>
//!     requires { exchanges.old.now ≤ now }
//! {
//!     match exchanges.look(now, from, id) {
//!         Looked::New => match exchanges.room(from.ip) {
//!             Room::Free => {
//!                 let number = exchanges.open(now, from, id, true);
//!                 exchanges.close(now, number, &answer);
//!                 Some(answer)
//!             }
//!             Room::Full | Room::OverShare => None,
//!         },
//!         Looked::Again(first) => Some(first),
//!         Looked::Busy | Looked::Silent => None,
//!     }
//! }
//! ```
//!
//! # What is proved
//!
//! - A request is new, or a duplicate of an exchange that is less than 247,000 ms old. That
//!   exchange is in progress, or has a stored response (`look`).
//! - A new request of an IP address has room if fewer requests than the address's share are stored
//!   for it, and fewer than the limit in all (`room`).
//! - A new exchange is opened if there is room (`open`), and each response is stored for its own
//!   exchange (`close`).
//! - `held_at` returns how many exchanges are within their lifetime at a time, and `places` the
//!   limit on their number.
//! - `comparisons` returns at most 17 for every table, and at most 11 for a table of 1,024 places.
//!   The contract of `look` doesn't say that this is the number of keys that the last look
//!   compared.
//!
//! By the contracts of `Exchanges::look`, `room`, `open`, `close`, `expire`, `held_at`,
//! `places`, `comparisons`.
#![tactic(auto)]

mod answers;
pub mod exchange;
pub mod exchanges;
mod key;
mod requests;

pub use exchange::{DEFAULT_LIMITS, EXCHANGES, Limits, MOST_EXCHANGES};
pub use exchanges::{Closed, Exchanges, Looked, Room};
