//! The inputs of a run: request, readings, variables, and the helpers.
//!
//! The crate also defines the maximum length of a reply.
//!
//! ```rust
//! use fc_help::{Method, Request, Vars};
//!
//! /// Returns the inputs for `GET /r/7?on`, with eight bytes of variables.
//! fn given() -> (Request, Vars) {
//!     (
//!         Request::new(Method::Get, 7, None, b"on", b""),
//!         Vars::zeros(8),
//!     )
//! }
//! ```
//!
//! # What is proved
//!
//! - A request is laid out as the region of memory that its program reads. Requests and variables
//!   are compared and copied whole, and readings are compared.
//! - Each helper has a stated name, stated arguments and results. A reply has a stated maximum
//!   length.
//! - `laws` states each byte of the region and of the readings by its place, and each helper by its
//!   number.
//!
//! By the contracts of `Request`, `Request::region`, `Vars`, `helper_of`, `name_of`, `signature_of`,
//! `room_of`, `laws`.
#![tactic(auto)]

pub mod helper;
pub mod laws;
pub mod readings;
pub mod request;
pub mod vars;

pub use helper::{Arguments, Helper, Signature, helper_of, name_of, room_of, signature_of};
pub use readings::{NO_READINGS, READINGS, Readings, are_same_readings};
pub use request::{Method, Request};
pub use vars::Vars;
