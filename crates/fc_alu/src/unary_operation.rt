//! Operations on one register.
ghost use Rattle.std.specs.Prelude.{◌≡◌};
ghost use Rattle.fc_alu.specs.Arithmetic.{negated, unary_result};

use crate::byte_order::reorder;
use crate::operation::low_half;
use fc_isa::{UnaryOp, Width};

/// Computes an operation on one register (RFC 9669, sections 4.1 and 4.2).
#[tactic(auto, unfolding(crate::specs::Arithmetic::unary_result))]
#[inline(always)]
pub fn unary(op: UnaryOp, dst: u64) -> u64
    ensures { result ≡ unary_result op dst }
{
    match op {
        UnaryOp::Neg(width) => neg(width, dst),
        UnaryOp::End(order, width) => reorder(order, width, dst),
    }
}

/// Negates a whole register, or its low half.
///
/// The negation of a low half has zeros in the upper half (RFC 9669, section 4.1).
#[tactic(auto, unfolding(crate::specs::Arithmetic::negated))]
#[inline(always)]
pub fn neg(width: Width, dst: u64) -> u64
    ensures { result ≡ negated width dst }
{
    match width {
        Width::W32 => low_half(dst).wrapping_neg() as u64,
        Width::W64 => dst.wrapping_neg(),
    }
}
