//! Moves with sign extension.
ghost use Rattle.std.specs.Prelude.{◌≡◌};
ghost use Rattle.fc_alu.specs.Arithmetic.{sign_extended};

use crate::operation::low_half;
use fc_isa::{SignExtension, Width};

/// Sign-extends the low 8, 16 or 32 bits to 32 or 64 bits.
///
/// In an extension to 32 bits, the upper half of the result is zero (RFC 9669, section 4.1, MOVSX).
#[tactic(auto, unfolding(crate::specs::Arithmetic::sign_extended))]
#[inline(always)]
pub fn sign_extend(extension: SignExtension, src: u64) -> u64
    ensures { result ≡ sign_extended extension src }
{
    match extension {
        SignExtension::Byte(Width::W32) => (((src
            & 0xff) as u8).cast_signed() as i32).cast_unsigned() as u64,
        SignExtension::Byte(Width::W64) => (((src
            & 0xff) as u8).cast_signed() as i64).cast_unsigned(),
        SignExtension::HalfWord(Width::W32) => (((src
            & 0xffff) as u16).cast_signed() as i32).cast_unsigned() as u64,
        SignExtension::HalfWord(Width::W64) => (((src
            & 0xffff) as u16).cast_signed() as i64).cast_unsigned(),
        SignExtension::Word => (low_half(src).cast_signed() as i64).cast_unsigned(),
    }
}
