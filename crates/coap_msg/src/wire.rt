//! Constants of the message format, and two-byte integers in network order.
//!
//! The format is that of RFC 7252, sections 3 and 3.1.
ghost use Rattle.std.specs.Prelude.{[], ◌%◌, ◌*◌, ◌+◌, ◌/◌, ◌∷◌, ◌≡◌};

use byteorder::{BigEndian, ByteOrder};

/// Version and type of a confirmable message: 1 and 0.
///
/// They are the first byte's upper nibble.
pub(crate) const CONFIRMABLE: u8 = 0b0100;

/// Version and type of a non-confirmable message: 1 and 1.
pub(crate) const NON_CONFIRMABLE: u8 = 0b0101;

/// Version and type of an acknowledgement: 1 and 2.
pub(crate) const ACKNOWLEDGEMENT: u8 = 0b0110;

/// Version and type of a reset: 1 and 3.
pub(crate) const RESET: u8 = 0b0111;

/// Delta or length nibble 13: an 8-bit extended value follows.
pub(crate) const NIBBLE_EXT8: u8 = 13;

/// Delta or length nibble 14: a 16-bit extended value follows.
pub(crate) const NIBBLE_EXT16: u8 = 14;

/// The number that is added to an 8-bit extended value.
pub(crate) const EXT8_BIAS: u32 = 13;

/// The number that is added to a 16-bit extended value.
pub(crate) const EXT16_BIAS: u32 = 269;

/// Payload marker: the payload follows.
pub(crate) const PAYLOAD_MARKER: u8 = 0xff;

/// Length of the fixed header, in bytes; the token follows.
pub(crate) const HEADER: usize = 4;

/// Returns the number that two bytes in network order represent.
pub(crate) fn number_of(high: u8, low: u8) -> u16
    ensures { result ≡ 256 * high + low }
{
    BigEndian::read_u16(&[high, low])
}

/// Returns the two bytes of a number, in network order.
pub(crate) fn two_bytes(number: u16) -> [u8; 2]
    ensures { result ≡ (number / 256) ∷ (number % 256) ∷ [] }
{
    let mut bytes = [0; 2];
    BigEndian::write_u16(&mut bytes, number);
    bytes
}
