//! The reply's code, from a program's result.
ghost use Rattle.std.specs.Prelude.{◌≡◌};
ghost use Rattle.fc_kinds.specs.Meaning.{is_answer, reply_code, success_of};

use fc_help::Method;

/// 2.04 Changed.
const CHANGED: u8 = 0x44;

/// 2.05 Content.
const CONTENT: u8 = 0x45;

/// 4.00 Bad Request.
const BAD_REQUEST: u8 = 0x80;

/// 4.03 Forbidden.
const FORBIDDEN: u8 = 0x83;

/// 4.04 Not Found.
const NOT_FOUND: u8 = 0x84;

/// 5.00 Internal Server Error.
const INTERNAL_ERROR: u8 = 0xa0;

/// Returns the code of a method's success.
fn success(method: Method) -> u8
    ensures { result ≡ success_of method }
{
    match method {
        Method::Get => CONTENT,
        Method::Post => CHANGED,
    }
}

/// Returns whether a program may return the code `answer`.
///
/// A program may return the method's success, 4.00, 4.03 and 4.04.
fn may_answer(method: Method, answer: u64) -> bool
    ensures { result ≡ is_answer method answer }
{
    answer == success(method) as u64
        || answer == BAD_REQUEST as u64
        || answer == FORBIDDEN as u64
        || answer == NOT_FOUND as u64
}

/// Returns the reply's code for the number `answer` in R0 at the exit.
///
/// 0 gives the method's success, and a code that the program may return is kept. Any other number
/// is the program's fault, and gives 5.00.
pub(crate) fn code_for(method: Method, answer: u64) -> u8
    ensures { result ≡ reply_code method answer }
{
    if answer == 0 {
        success(method)
    } else if may_answer(method, answer) {
        answer as u8
    } else {
        INTERNAL_ERROR
    }
}
