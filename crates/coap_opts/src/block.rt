//! Block options of a body: Block1 and Block2 (RFC 7959, section 2.2).
ghost use Rattle.std.specs.Prelude.{◌<◌, ◌^◌};

use crate::uint::{UintBytes, decode_uint, encode_uint};
use std::marker::Model;

/// A block of a body: its number, its size, and whether more blocks follow.
///
/// In contracts a block is the record of these three fields.
#[derive(Clone, Copy, PartialEq, Eq)]
pub struct Block {
    number: u32,
    more: bool,
    szx: u8,
}

impl Model for Block {
    ghost use Rattle.std.specs.Prelude.{◌<◌, ◌^◌};
    ghost use Rattle.coap_opts.specs.Values.{Place};

    ghost Value = { Place };

    ghost view = { λ b. record { number = b.number; more = b.more; szx = b.szx } };

    ghost invariant = { λ b. (b.number < 2 ^ 20) × (b.szx < 8) };

    ghost inverse = { λ p. record { number = p.number; more = p.more; szx = p.szx } };
}

impl Block {
    ghost use Rattle.std.specs.Prelude.{◌≡◌, ◌≤◌, length};
    ghost use Rattle.coap_opts.specs.Values.{block_size, block_value, place_in, uint_bytes, uint_value};

    /// Makes the block with these three fields (RFC 7959, section 2.2).
    ///
    /// `number` is the block number, and `more` says whether more blocks follow. The block size is
    /// 2 to the power of `szx` + 4.
    pub fn new(number: u32, more: bool, szx: u8) -> Block
        requires number { number < 2 ^ 20 }
        requires szx { szx < 8 }
        ensures { result ≡ record { number = number; more = more; szx = szx } }
    {
        Block { number, more, szx }
    }

    /// Decodes the value of a Block1 or Block2 option.
    ///
    /// `bytes` has at most 3 bytes, and may begin with zeros.
    pub fn read(bytes: &[u8]) -> Block
        requires { length bytes.now ≤ 3 }
        ensures block { result ≡ place_in bytes.now }
        ensures value { block_value result ≡ uint_value bytes.now }
    {
        let value = decode_uint(bytes) as u32;
        Block {
            number: value / 16,
            more: value / 8 % 2 == 1,
            szx: (value % 8) as u8,
        }
    }

    /// Encodes the block as the value of a Block1 or Block2 option.
    ///
    /// The value has no leading zeros.
    pub fn value(self) -> UintBytes
        ensures { result.items ≡ uint_bytes (block_value self) }
    {
        let more = if self.more { 8 } else { 0 };
        encode_uint(u64::from(16 * self.number + more + u32::from(self.szx)))
    }

    /// Returns the 20-bit block number, which counts from 0.
    pub fn number(self) -> u32
        ensures number { result ≡ self.number }
        ensures limit { result < 2 ^ 20 }
    {
        self.number
    }

    /// Returns the M bit: `true` if more blocks follow.
    pub fn more(self) -> bool
        ensures { result ≡ self.more }
    {
        self.more
    }

    /// Returns the SZX field, 0 to 7; the block size is 2 to the power of SZX + 4.
    ///
    /// The value 7 is reserved.
    pub fn szx(self) -> u8
        ensures szx { result ≡ self.szx }
        ensures limit { result < 8 }
    {
        self.szx
    }

    /// Returns the block size in bytes: 16 to 1,024.
    ///
    /// For the reserved SZX 7 it returns 2,048.
    pub fn size(self) -> usize
        ensures { result ≡ block_size self.szx }
    {
        1 << (self.szx + 4)
    }
}
