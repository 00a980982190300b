//! CoAP messages and their encoding in a datagram; endpoints and emissions.
//!
//! The message format is that of RFC 7252, section 3.
//!
//! [`read`] parses a datagram into a zero-copy [`Message`]. [`write`] emits the one encoding of an
//! [`Outgoing`]. [`writer`] has the steps of `write`, for callers that write options of another
//! type. In contracts a message is the record of `specs/Wire`: type, code, id, token, options in
//! order, payload.
//!
//! ```rust
//! use coap_msg::{Code, read};
//!
//! /// Returns the message ID of a datagram that is a GET.
//! fn id_of_get(bytes: &[u8]) -> Option<u16> {
//!     let message = read(bytes).ok()?;
//!     (message.code() == Code::GET).then_some(message.id())
//! }
//! ```
//!
//! # What is proved
//!
//! - For every message: the parsed message is the one that the datagram encodes, every encoded
//!   message is parsed, and each message has one encoding.
//! - `read` asks for a Reset exactly if a confirmable message has a format error.
//! - `write` emits the one encoding of a message, and each step of `writer` emits its part.
//! - Each named code has the class and the detail that its RFC registers.
//!
//! By the contracts of `read`, `write`, `Options`, `Message::values`, `writer`, `laws`.
#![tactic(auto)]

pub mod code;
pub mod laws;
pub mod message;
pub mod options;
pub mod parser;
pub mod types;
pub mod values;
mod wire;
pub mod writer;

pub use code::Code;
pub use message::Message;
pub use options::Options;
pub use parser::read;
pub use types::{Bad, Datagram, Emission, Endpoint, MessageType, ShortValue, Token, WINDOW};
pub use values::Values;
pub use writer::{Outgoing, write};
