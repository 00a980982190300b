//! Unsigned integers in the values of options (RFC 7252, section 3.2).
ghost use Rattle.std.specs.Prelude.{◌≡◌, ◌<◌, ◌≤◌, ◌*◌, ◌^◌, length};
ghost use Rattle.coap_opts.specs.Values.{uint_bytes, uint_value, without_zeros};

use coap_msg::ShortValue;

/// The encoding of an unsigned integer: 0 to 8 bytes in network order.
pub type UintBytes = ShortValue;

/// Decodes an integer of at most 8 bytes in network order.
///
/// `bytes` may begin with zeros.
pub fn decode_uint(bytes: &[u8]) -> u64
    requires { length bytes.now ≤ 8 }
    ensures number { result ≡ uint_value bytes.now }
    ensures below { result < 256 ^ length bytes.now }
{
    let mut number: u64 = 0;
    for byte in bytes {
        number = 256 * number + u64::from(*byte);
    }
    number
}

/// Encodes a number in network order without leading zeros; 0 as no bytes.
#[tactic(auto, unfolding(crate::specs::Values::uint_bytes))]
pub fn encode_uint(number: u64) -> UintBytes
    ensures { result.items ≡ uint_bytes number }
{
    let bytes = number.to_be_bytes();
    let mut encoded = UintBytes::new();
    let _fits = encoded.try_extend_from_slice(without_leading_zeros(&bytes));
    encoded
}

/// Returns `bytes` without the zeros at their start; empty if all are 0.
fn without_leading_zeros(bytes: &[u8]) -> &[u8]
    ensures stripped { result.now ≡ without_zeros bytes.now }
    ensures short { length result.now ≤ length bytes.now }
{
    let mut rest = bytes;
    while let [0, after @ ..] = rest {
        rest = after;
    }
    rest
}
