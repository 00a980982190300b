//! The served options and methods: one row for each.
//!
//! A later service adds its rows here.
ghost use Rattle.std.specs.Prelude.{◌≡◌};
ghost use Rattle.coap_opts.specs.Served as spec;

use crate::number::{
    BLOCK1, BLOCK2, CONTENT_FORMAT, ETAG, OBSERVE, PROXY_SCHEME, PROXY_URI, URI_HOST, URI_PATH,
    URI_PORT, URI_QUERY,
};
use crate::request::{Action, Method, Resource};
use coap_msg::Code;

/// The properties of a recognised option.
#[derive(Clone, Copy)]
pub struct Row {
    /// Its number; options with odd numbers are critical (RFC 7252, section 5.4.6).
    pub number: u16,
    /// The minimum length of its value, in bytes.
    pub least: usize,
    /// The maximum length of its value, in bytes.
    pub greatest: usize,
    /// Whether it may occur more than once (RFC 7252, section 5.4.5).
    pub repeatable: bool,
    /// The only method with which it is recognised; `None` for any method.
    pub only: Option<Code>,
}

/// The number of recognised options.
pub const ROWS: usize = 11;

/// The recognised options, in the order of their numbers.
pub const OPTIONS: [Row; ROWS] = [
    Row {
        number: URI_HOST,
        least: 1,
        greatest: 255,
        repeatable: false,
        only: None,
    },
    Row {
        number: ETAG,
        least: 1,
        greatest: 8,
        repeatable: true,
        only: Some(Code::GET),
    },
    Row {
        number: OBSERVE,
        least: 0,
        greatest: 3,
        repeatable: false,
        only: Some(Code::GET),
    },
    Row {
        number: URI_PORT,
        least: 0,
        greatest: 2,
        repeatable: false,
        only: None,
    },
    Row {
        number: URI_PATH,
        least: 0,
        greatest: 255,
        repeatable: true,
        only: None,
    },
    Row {
        number: CONTENT_FORMAT,
        least: 0,
        greatest: 2,
        repeatable: false,
        only: None,
    },
    Row {
        number: URI_QUERY,
        least: 0,
        greatest: 255,
        repeatable: true,
        only: None,
    },
    Row {
        number: BLOCK2,
        least: 0,
        greatest: 3,
        repeatable: false,
        only: Some(Code::GET),
    },
    Row {
        number: BLOCK1,
        least: 0,
        greatest: 3,
        repeatable: false,
        only: Some(Code::PUT),
    },
    Row {
        number: PROXY_URI,
        least: 1,
        greatest: 1034,
        repeatable: false,
        only: None,
    },
    Row {
        number: PROXY_SCHEME,
        least: 1,
        greatest: 255,
        repeatable: false,
        only: None,
    },
];

/// Returns the action for a method on a resource, for the classifier.
///
/// Returns `None` if the resource doesn't serve the method.
pub(crate) fn action_of(resource: Resource, method: Method) -> Option<Action>
    ensures { result ≡ spec.action_of resource method }
{
    match (resource, method) {
        (Resource::Run(slot), Method::Get) => Some(Action::Get(slot)),
        (Resource::Run(slot), Method::Post) => Some(Action::Post(slot)),
        (Resource::Program(slot), Method::Put) => Some(Action::Install(slot)),
        (Resource::Program(slot), Method::Delete) => Some(Action::Remove(slot)),
        (Resource::Program(slot), Method::Get) => Some(Action::Describe(slot)),
        (Resource::Core, Method::Get) => Some(Action::Discover),
        _ => None,
    }
}
