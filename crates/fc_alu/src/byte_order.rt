//! Byte-order changes.
ghost use Rattle.std.specs.Prelude.{◌≡◌};
ghost use Rattle.fc_alu.specs.Arithmetic.{ordered};

use crate::operation::low_half;
use fc_isa::{ByteOrder, SwapWidth};

/// Returns the low 16, 32 or 64 bits of `dst` in the byte order `order`.
///
/// All higher bits are zero (RFC 9669, section 4.2, END). Registers are little-endian, so a change
/// to little-endian keeps the order of the bytes.
#[tactic(auto, unfolding(crate::specs::Arithmetic::ordered))]
#[inline(always)]
pub fn reorder(order: ByteOrder, width: SwapWidth, dst: u64) -> u64
    ensures { result ≡ ordered order width dst }
{
    match (order, width) {
        (ByteOrder::Little, SwapWidth::S16) => dst & 0xffff,
        (ByteOrder::Little, SwapWidth::S32) => dst & 0xffff_ffff,
        (ByteOrder::Little, SwapWidth::S64) => dst,
        (_, SwapWidth::S16) => ((dst & 0xffff) as u16).swap_bytes() as u64,
        (_, SwapWidth::S32) => low_half(dst).swap_bytes() as u64,
        (_, SwapWidth::S64) => dst.swap_bytes(),
    }
}
