//! The helpers: the host's functions that a program may call.
ghost use Rattle.std.specs.Prelude.{MatchOption, None, ◌≡◌};
ghost use Rattle.fc_help.specs.Helpers.{helper_name, helper_number, helper_of, room_of, signature, signature_of};

use crate::request::Method;

/// A host function that a program may call.
#[derive(Clone, Copy, PartialEq, Eq)]
pub enum Helper {
    /// `payload_len()`: the payload's length.
    PayloadLen,
    /// `payload_byte(i)`: byte `i` of the payload, or 2^64 - 1 past its end.
    PayloadByte,
    /// `var_get(i)`: the 8-byte word `i` of the variables, or 0 past their end.
    VarGet,
    /// `var_put(i, x)`: sets word `i` of the variables to `x` and returns 1.
    ///
    /// Returns 0 if word `i` is past their end.
    VarPut,
    /// `reply_put(p, n)`: appends the `n` bytes at `p` to the reply and returns 1.
    ///
    /// Returns 0 if there is no room for them.
    ReplyPut,
    /// `reply_byte(x)`: appends the low byte of `x` to the reply and returns 1.
    ///
    /// Returns 0 if there is no room for it.
    ReplyByte,
    /// `notify()`: sets the notify flag of the run, and returns 0.
    Notify,
}

/// The arguments of a helper: none, R1, or R1 and R2.
#[derive(Clone, Copy, PartialEq, Eq)]
pub enum Arguments {
    /// No argument.
    NoArgument,
    /// One number.
    OneNumber,
    /// Two numbers.
    TwoNumbers,
    /// A pointer, and the number of bytes at it.
    Bytes,
}

/// A helper's arguments and the greatest number that it returns; the least is 0.
#[derive(Clone, Copy, PartialEq, Eq)]
pub struct Signature {
    pub arguments: Arguments,
    pub most: u64,
}

/// Returns the helper with a number, 1 to 7 (RFC 9669, section 4.3.1).
///
/// Returns `None` if no helper has the number.
pub fn helper_of(number: i32) -> Option<Helper>
    ensures helper { result ≡ helper_of number }
    ensures number { MatchOption result (helper_of number ≡ None) (λ helper. helper_number helper ≡ number) }
{
    match number {
        1 => Some(Helper::PayloadLen),
        2 => Some(Helper::PayloadByte),
        3 => Some(Helper::VarGet),
        4 => Some(Helper::VarPut),
        5 => Some(Helper::ReplyPut),
        6 => Some(Helper::ReplyByte),
        7 => Some(Helper::Notify),
        _ => None,
    }
}

/// Returns the name of a helper in a source.
pub fn name_of(helper: Helper) -> &'static str
    ensures { result.now ≡ helper_name helper }
{
    match helper {
        Helper::PayloadLen => "payload_len",
        Helper::PayloadByte => "payload_byte",
        Helper::VarGet => "var_get",
        Helper::VarPut => "var_put",
        Helper::ReplyPut => "reply_put",
        Helper::ReplyByte => "reply_byte",
        Helper::Notify => "notify",
    }
}

/// Returns a helper's arguments, and the greatest number that it returns.
pub fn signature_of(helper: Helper) -> Signature
    ensures { result ≡ signature_of helper }
{
    match helper {
        Helper::PayloadLen => make_signature(Arguments::NoArgument, 1024),
        Helper::PayloadByte => make_signature(Arguments::OneNumber, u64::MAX),
        Helper::VarGet => make_signature(Arguments::OneNumber, u64::MAX),
        Helper::VarPut => make_signature(Arguments::TwoNumbers, 1),
        Helper::ReplyPut => make_signature(Arguments::Bytes, 1),
        Helper::ReplyByte => make_signature(Arguments::OneNumber, 1),
        Helper::Notify => make_signature(Arguments::NoArgument, 0),
    }
}

fn make_signature(arguments: Arguments, most: u64) -> Signature
    ensures { result ≡ signature arguments most }
{
    Signature { arguments, most }
}

/// Returns the maximum length of a reply: 4,096 bytes for a GET, 1,024 for a POST.
pub fn room_of(method: Method) -> usize
    ensures { result ≡ room_of method }
{
    match method {
        Method::Get => 4096,
        Method::Post => 1024,
    }
}
