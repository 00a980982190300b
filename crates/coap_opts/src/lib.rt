//! Classification of CoAP messages; option values; responses with their options.
//!
//! The sources are RFC 7252, sections 5.4 and 5.10; RFC 7641; and RFC 7959.
//!
//! [`classify`] returns the request that a message carries, with its fields, or the required
//! reaction to the message; the first check that fails decides. The module [`served`] lists the
//! served options and methods. A [`Reply`] carries any set of the options that the server sends.
//!
//! ```rust
//! use coap_msg::read;
//! use coap_opts::{Action, Asking, Classified, classify};
//!
//! /// Returns the slot whose program the datagram requests by a GET of `/r/N`.
//! fn asked_slot(bytes: &[u8]) -> Option<u8> {
//!     let message = read(bytes).ok()?;
//!     match classify(&message) {
//!         Classified::Request(Asking::Serve(request)) => match request.action {
//!             Action::Get(slot) => Some(slot),
//!             _ => None,
//!         },
//!         _ => None,
//!     }
//! }
//! ```
//!
//! # What is proved
//!
//! - The first check that fails refuses a request; if none fails, the request is accepted with its
//!   fields. A law states the checks, their order and their codes in literals.
//! - Each field of an accepted request is derived from its message's options, within stated limits.
//!   A refusal has the code of an error. Each message that isn't a request has a stated verdict.
//! - A response with any set of options is a message, and is written in its one encoding.
//! - Decoding an encoded integer or block gives it again. The value of a block option is computed
//!   from the block's number, M and SZX. Each resource has one path.
//! - Each named option has its registered number, the lengths of its value, and the methods that it
//!   is defined for.
//! - Observe 0 registers, Observe 1 cancels, and no other value does either.
//!
//! By the contracts of `classify`, `classify_over`, `Reply::write`, `decode_uint`, `encode_uint`,
//! `Block`, `laws`.
#![tactic(auto)]

pub mod block;
pub mod classifier;
pub mod collector;
pub mod fields;
pub mod firsts;
pub mod laws;
pub mod number;
pub mod observe;
pub mod path;
pub mod recognition;
pub mod reply;
pub mod request;
pub mod served;
pub mod uint;

pub use block::Block;
pub use classifier::{classify, classify_over};
pub use observe::{CANCEL, REGISTER, has_observe};
pub use reply::{Reply, ReplyOptions};
pub use request::{Action, Asking, Classified, Method, Query, Request, Resource};
pub use served::{OPTIONS, Row};
pub use uint::{UintBytes, decode_uint, encode_uint};
