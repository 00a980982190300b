//! Responses: envelopes, ETag, Observe and block options, Reset messages.
//!
//! The source is RFC 7252, section 5.2.
//!
//! [`Envelope`] has the header fields of a response. [`respond`], [`text`], [`content`] and [`ran`]
//! write a response over the caller's datagram, and [`reset`] writes the message that rejects
//! another. [`BodyBlock`] is the block of a body that one message carries, borrowed from the body.
//!
//! ```rust
//! use coap_msg::{Code, Datagram, Emission};
//! use coap_reply::{BodyBlock, Envelope, ran};
//!
//! /// Writes the notification that a resource has this body since the change `serial`.
//! fn notify(envelope: &Envelope<'_>, body: &[u8], serial: u64) -> Emission {
//!     let mut bytes = Datagram::new();
//!     let block = BodyBlock::cut(body, None);
//!     ran(envelope, Code::CONTENT, &block, serial, true, &mut bytes);
//!     Emission {
//!         to: envelope.to,
//!         bytes,
//!     }
//! }
//! ```
//!
//! # What is proved
//!
//! - A response with a code, options and a payload is written in its one encoding, for the endpoint
//!   of its envelope.
//! - A 2.05 (Content) carries the requested block with its Block2. If there is no such block, the
//!   response is a 4.00.
//! - A 2.05 in response to a run has the revision counter as its ETag. If the client observes the
//!   slot, the 2.05 also has Observe, with the counter's lowest 24 bits. A 2.04 carries the bytes
//!   alone, and an error carries nothing.
//! - `BodyBlock::cut` returns the requested block of a body.
//! - Laws state each response with its option numbers in literals. Parsing a written response gives
//!   that response.
//!
//! By the contracts of `respond`, `text`, `content`, `ran`, `reset`, `reply_kind`,
//! `BodyBlock::cut`, `laws`.
#![tactic(auto)]

pub mod block;
pub mod laws;
pub mod reply;

pub use block::{BLOCK, BodyBlock};
pub use reply::{Envelope, content, ran, reply_kind, reset, respond, text};
