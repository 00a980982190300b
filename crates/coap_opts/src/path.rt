//! Methods and resources, by code and path.
ghost use Rattle.std.specs.Prelude.{◌≡◌, ◌+◌, ◌*◌, ◌<◌, ◌&&◌, nat_lt, IfSome};
ghost use Rattle.coap_msg.specs.Reading.{guard};
ghost use Rattle.coap_opts.specs.Path as spec;

use crate::request::{Method, Resource};
use coap_msg::Code;

/// Number of slots.
const SLOTS: u8 = 64;

/// Returns the method with this code, or `None` if the server knows no such method.
pub(crate) fn method_of(code: Code) -> Option<Method>
    ensures { result ≡ spec.method_of code.byte }
{
    match code {
        Code::GET => Some(Method::Get),
        Code::POST => Some(Method::Post),
        Code::PUT => Some(Method::Put),
        Code::DELETE => Some(Method::Delete),
        _ => None,
    }
}

/// Returns the resource that a path of two segments names.
///
/// Returns `None` if there is no such resource.
pub(crate) fn resource_named(first: &[u8], second: &[u8]) -> Option<Resource>
    ensures { result ≡ spec.resource_named first.now second.now }
{
    if first == b"r".as_slice() {
        Some(Resource::Run(slot_named(second)?))
    } else if first == b"p".as_slice() {
        Some(Resource::Program(slot_named(second)?))
    } else if first == b".well-known".as_slice() && second == b"core".as_slice() {
        Some(Resource::Core)
    } else {
        None
    }
}

/// Returns the slot that a segment names.
///
/// Returns `None` unless the segment is one digit, or two digits whose first isn't 0, and the slot
/// is below 64.
fn slot_named(segment: &[u8]) -> Option<u8>
    ensures { result ≡ spec.slot_named segment.now }
{
    match segment {
        [ones] => digit(*ones),
        [tens, ones] => two_digits(digit(*tens)?, digit(*ones)?),
        _ => None,
    }
}

/// Returns the slot that two digits name.
///
/// Returns `None` if the first is 0, or if the slot isn't below 64.
fn two_digits(tens: u8, ones: u8) -> Option<u8>
    requires tens { tens < 10 }
    requires ones { ones < 10 }
    ensures { result ≡ guard (nat_lt 0 tens && nat_lt (10 * tens + ones) 64) (10 * tens + ones) }
{
    let slot = 10 * tens + ones;
    if tens > 0 && slot < SLOTS {
        Some(slot)
    } else {
        None
    }
}

/// Returns the value of an ASCII digit, or `None` if `byte` isn't one.
fn digit(byte: u8) -> Option<u8>
    ensures value { result ≡ spec.digit byte }
    ensures below { IfSome result (λ d. d < 10) }
{
    if byte.is_ascii_digit() {
        Some(byte - b'0')
    } else {
        None
    }
}
