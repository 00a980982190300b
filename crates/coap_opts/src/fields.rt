//! Values of options, each decoded from the first value that the collector stored.
//!
//! The classifier stores them in the fields of a request. If the request has no such option, the
//! result is `None`.
ghost use Rattle.std.specs.Prelude.{◌≡◌, ◌≤◌, [], length, true};
ghost use Rattle.std.specs.Option.{option_map};
ghost use Rattle.coap_opts.specs.Values.{place_in, uint_value};
ghost use Rattle.coap_opts.specs.Collected.{resource_with};
ghost use Rattle.coap_opts.specs.Firsts.{AreShort, first_at};
ghost use Rattle.coap_opts.specs.Recognition.{allows_at_most, row_of};

use crate::block::Block;
use crate::collector::Segments;
use crate::firsts::Firsts;
use crate::path::resource_named;
use crate::request::Resource;
use crate::uint::decode_uint;

/// Returns the integer in the first value of an option, or `None` if no value is stored.
///
/// The option has the number `number`, and its row allows at most 2 bytes.
pub(crate) fn u16_of(firsts: &Firsts<'_>, number: u16) -> Option<u16>
    requires short { AreShort firsts.now }
    requires allows { allows_at_most 2 (row_of number) ≡ true }
    ensures { result ≡ option_map uint_value (first_at firsts.now number) }
{
    Some(decode_u16(firsts.of(number)?))
}

/// Decodes an integer of at most 2 bytes.
fn decode_u16(bytes: &[u8]) -> u16
    requires { length bytes.now ≤ 2 }
    ensures { result ≡ uint_value bytes.now }
{
    decode_uint(bytes) as u16
}

/// Returns the integer in the first value of an option, or `None` if no value is stored.
///
/// The option has the number `number`, and its row allows at most 3 bytes.
pub(crate) fn u24_of(firsts: &Firsts<'_>, number: u16) -> Option<u32>
    requires short { AreShort firsts.now }
    requires allows { allows_at_most 3 (row_of number) ≡ true }
    ensures { result ≡ option_map uint_value (first_at firsts.now number) }
{
    Some(decode_u24(firsts.of(number)?))
}

/// Decodes an integer of at most 3 bytes.
fn decode_u24(bytes: &[u8]) -> u32
    requires { length bytes.now ≤ 3 }
    ensures { result ≡ uint_value bytes.now }
{
    decode_uint(bytes) as u32
}

/// Returns the block in the first value of an option, or `None` if no value is stored.
///
/// The option has the number `number`, that of Block1 or Block2.
pub(crate) fn block_of(firsts: &Firsts<'_>, number: u16) -> Option<Block>
    requires short { AreShort firsts.now }
    requires allows { allows_at_most 3 (row_of number) ≡ true }
    ensures { result ≡ option_map place_in (first_at firsts.now number) }
{
    Some(Block::read(firsts.of(number)?))
}

/// Returns the resource that a path names, or `None` if there is no such resource.
pub(crate) fn resource_of(path: Segments<'_>) -> Option<Resource>
    ensures { result ≡ resource_with path.entry [] }
{
    match path {
        Segments::Two(first, second) => resource_named(first, second),
        _ => None,
    }
}
