//! The protocol front end: exchanges, jobs of datagrams, answers and responses.
//!
//! [`Front`] stores the exchanges. It parses datagrams, makes jobs, and writes responses. Each time
//! and each byte is an argument; the crate has no clock and no socket.
//!
//! ```rust
//! use coap_msg::{Emission, Endpoint};
//! use fc_front::{Answer, Answered, Delivered, End, Front};
//!
//! /// Returns the datagram to send if each job is answered 4.04.
//! fn reply(front: &mut Front, now: u64, from: Endpoint, bytes: &[u8]) -> Option<Emission> {
//!     match front.deliver(now, from, bytes) {
//!         Delivered::Reply(emission) => Some(emission),
//!         Delivered::Job(job) => match front.answer(now, &job, &Answer::other(End::Missing)) {
//!             Answered::Sent(emission) => Some(emission),
//!             Answered::Late | Answered::NoId => None,
//!         },
//!         Delivered::Nothing | Delivered::Signal { .. } => None,
//!     }
//! }
//! ```
//!
//! # What is proved
//!
//! - Each delivery and each answer is as defined, including duplicates and message IDs.
//! - A run's answer can't be made without the mark of the run's commit, and is no other job's
//!   answer. Only the answer of a successful run contains the requested block of the reply.
//! - A PUT in blocks is executed exactly if its last block fits. The body is then the payloads
//!   since block number 0, joined.
//! - A timer that fires makes the job of a POST of its slot's resource. The job has no exchange, so
//!   answering the job sends nothing.
//! - `gauges` returns how many exchanges and transfers a front holds at a time, and their limits.
//!   It changes nothing.
//! - The head word of a restored program is that of its stored state. The head word of each other
//!   slot is 0 at a start.
//!
//! By the contracts of `Front::deliver`, `handle`, `answer`, `respond`, `tick`, `fire`, `fresh_id`,
//! `gauges`, `Heads`, `Answer::ran`.
#![tactic(auto)]

pub mod answer;
pub mod by_value;
pub mod front;
pub mod gauges;
pub mod heads;
mod ids;
mod job_writer;
pub mod policy;
mod reply;
mod request_message;
mod text;

pub use answer::{Answer, End, Words};
pub use by_value::{Answered, Delivered};
pub use front::{Front, Handled, Responded};
pub use gauges::FrontGauges;
pub use heads::{Heads, head_word};
pub use policy::{ANY_ADDRESS, DEFAULT_POLICY, MOST_NETWORKS, Managers, Network, Policy};
