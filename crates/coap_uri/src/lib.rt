//! Targets of CoAP requests: the server and the resource that a path or a coap URI names.
//!
//! The sources are RFC 7252, sections 6.1 and 6.4, and the URL Standard. [`Address::parse`] reads a
//! target, and [`resource_of`] returns its resource in the form that `coap_client` requests.
//!
//! # What is proved
//!
//! - The server and the resource of a target. A target is a path with its query, without escapes,
//!   at a port of this host, or a URI of the scheme coap, read as the URL Standard says. A URI
//!   gives the host, the port, the segments of its path and the arguments of its query, each with
//!   its escapes decoded (RFC 7252, section 6.4). Such a URI has no user, no password, no fragment,
//!   and no slash in a segment. Without a port it has port 5683, and `localhost` is 127.0.0.1.
//! - A text with `://` that doesn't begin with a slash is read as a URI, and any other as a path. A
//!   text that is no address is reported with the first of these faults that it has. It is a path
//!   without a port, or a URI with a port. It is no URI, or is a URI of another scheme. It has
//!   other parts. Its host is no IPv4 address. An escaped slash is in its path.
//! - An argument of a query has at most 255 bytes. A target that names no resource has a bad path
//!   or a longer argument.
//!
//! By the contracts of `Address::parse`, `resource_of`, `laws`.
#![tactic(auto)]

pub mod address;
pub mod laws;
pub mod resource;

pub use address::{Address, AddressError};
pub use resource::{ResourceError, resource_of};
