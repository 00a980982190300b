//! Recognition of a message's options (RFC 7252, section 5.4), for the collector.
ghost use Rattle.std.specs.Prelude.{◌≡◌, ◌<◌, IfSome, Some};
ghost use Rattle.coap_opts.specs.Recognition as spec;
ghost use Rattle.coap_opts.specs.Verdict.{has};

use crate::number::{
    BLOCK1, BLOCK2, CONTENT_FORMAT, ETAG, OBSERVE, PROXY_SCHEME, PROXY_URI, URI_HOST, URI_PATH,
    URI_PORT, URI_QUERY,
};
use crate::served::{OPTIONS, ROWS, Row};
use coap_msg::Code;

/// Returns the place in [`OPTIONS`] of the row with this option number.
///
/// Returns `None` if no row has the number. The numbers stand in the order of the table: a row's
/// place is its index there.
#[tactic(auto, unfolding(crate::specs::Recognition::row_place, crate::specs::Served::rows))]
#[inline(always)]
pub(crate) fn row_place(number: u16) -> Option<usize>
    ensures place { result ≡ spec.row_place number }
    ensures within { IfSome result (λ place. place < ROWS) }
{
    match number {
        URI_HOST => Some(0),
        ETAG => Some(1),
        OBSERVE => Some(2),
        URI_PORT => Some(3),
        URI_PATH => Some(4),
        CONTENT_FORMAT => Some(5),
        URI_QUERY => Some(6),
        BLOCK2 => Some(7),
        BLOCK1 => Some(8),
        PROXY_URI => Some(9),
        PROXY_SCHEME => Some(10),
        _ => None,
    }
}

/// Returns the place of an option's row, or `None` if the option isn't recognised.
///
/// `code` is the message's code. A recognised option is known, has a legal length and is defined
/// for the method. It doesn't repeat a non-repeatable option (RFC 7252, sections 5.4.1, 5.4.3 and
/// 5.4.5). `before` is the number of the message's previous option, if there is one.
#[tactic(auto, unfolding(crate::specs::Recognition::is_recognised))]
pub(crate) fn recognised_place(
    code: Code,
    before: Option<u16>,
    number: u16,
    length: usize,
) -> Option<usize>
    ensures recognised { has result ≡ spec.is_recognised code.byte before number length }
    ensures place { IfSome result (λ place. spec.row_place number ≡ Some place) }
    ensures within { IfSome result (λ place. place < ROWS) }
{
    let place = row_place(number)?;
    if fits(&OPTIONS[place], code, before, length) {
        Some(place)
    } else {
        None
    }
}

/// Returns whether an option of `row` with a value of this length is recognised.
///
/// `code` and `before` are as in [`recognised_place`].
fn fits(row: &Row, code: Code, before: Option<u16>, length: usize) -> bool
    ensures { result ≡ spec.fits row.now code.byte before length }
{
    let is_sized = row.least <= length && length <= row.greatest;
    let is_repeat = before == Some(row.number);
    let is_defined = row.only.is_none_or(|only| only == code);
    is_sized && is_defined && (row.repeatable || !is_repeat)
}
