//! Operations with two operands.
ghost use Rattle.std.specs.Prelude.{◌≡◌, ◌%◌, ◌^◌};
ghost use Rattle.fc_alu.specs.Arithmetic.{computed, computed_at};

use fc_isa::{AluOp, Width};

/// Computes an operation on two whole registers, or on their low halves.
///
/// An operation on low halves sets the upper half of the result to zero (RFC 9669, section 4.1).
#[tactic(auto, unfolding(crate::specs::Arithmetic::computed_at))]
#[inline(always)]
pub fn arithmetic(op: AluOp, width: Width, dst: u64, operand: u64) -> u64
    ensures { result ≡ computed_at op width dst operand }
{
    match width {
        Width::W32 => compute32(op, low_half(dst), low_half(operand)) as u64,
        Width::W64 => compute64(op, dst, operand),
    }
}

/// Returns the low 32 bits.
#[inline(always)]
pub(crate) fn low_half(n: u64) -> u32
    ensures { result ≡ n % 2 ^ 32 }
{
    (n & 0xffff_ffff) as u32
}

/// Computes an operation on two 32-bit numbers (RFC 9669, section 4.1).
///
/// A division by 0 gives 0, and a modulo by 0 gives `a`. Shifts use the low 5 bits of `b`.
#[tactic(auto, unfolding(crate::specs::Arithmetic::computed))]
#[inline(always)]
fn compute32(op: AluOp, a: u32, b: u32) -> u32
    ensures { result ≡ computed 32 op a b }
{
    match op {
        AluOp::Add => a.wrapping_add(b),
        AluOp::Sub => a.wrapping_sub(b),
        AluOp::Mul => a.wrapping_mul(b),
        AluOp::Div => a.checked_div(b).unwrap_or(0),
        AluOp::Sdiv => sdiv32(a, b),
        AluOp::Mod => a.checked_rem(b).unwrap_or(a),
        AluOp::Smod => smod32(a, b),
        AluOp::Or => a | b,
        AluOp::And => a & b,
        AluOp::Xor => a ^ b,
        AluOp::Lsh => a << (b & 31),
        AluOp::Rsh => a >> (b & 31),
        AluOp::Arsh => (a.cast_signed() >> (b & 31)).cast_unsigned(),
        AluOp::Mov => b,
    }
}

/// Computes an operation on two 64-bit numbers (RFC 9669, section 4.1).
///
/// A division by 0 gives 0, and a modulo by 0 gives `a`. Shifts use the low 6 bits of `b`.
#[tactic(auto, unfolding(crate::specs::Arithmetic::computed))]
#[inline(always)]
fn compute64(op: AluOp, a: u64, b: u64) -> u64
    ensures { result ≡ computed 64 op a b }
{
    match op {
        AluOp::Add => a.wrapping_add(b),
        AluOp::Sub => a.wrapping_sub(b),
        AluOp::Mul => a.wrapping_mul(b),
        AluOp::Div => a.checked_div(b).unwrap_or(0),
        AluOp::Sdiv => sdiv64(a, b),
        AluOp::Mod => a.checked_rem(b).unwrap_or(a),
        AluOp::Smod => smod64(a, b),
        AluOp::Or => a | b,
        AluOp::And => a & b,
        AluOp::Xor => a ^ b,
        AluOp::Lsh => a << (b & 63),
        AluOp::Rsh => a >> (b & 63),
        AluOp::Arsh => (a.cast_signed() >> (b & 63)).cast_unsigned(),
        AluOp::Mov => b,
    }
}

/// Returns the signed quotient, truncated toward zero, or 0 if `b` is 0.
///
/// The least signed number divided by -1 is itself.
#[tactic(auto, unfolding(crate::specs::Arithmetic::computed))]
fn sdiv32(a: u32, b: u32) -> u32
    ensures { result ≡ computed 32 AluOp.Sdiv a b }
{
    if b == 0 {
        return 0;
    }
    a.cast_signed()
        .wrapping_div(b.cast_signed())
        .cast_unsigned()
}

/// Returns the remainder of the signed division, or `a` if `b` is 0.
///
/// The remainder has the dividend's sign, or is 0.
#[tactic(auto, unfolding(crate::specs::Arithmetic::computed))]
fn smod32(a: u32, b: u32) -> u32
    ensures { result ≡ computed 32 AluOp.Smod a b }
{
    if b == 0 {
        return a;
    }
    a.cast_signed()
        .wrapping_rem(b.cast_signed())
        .cast_unsigned()
}

/// Returns the signed quotient, truncated toward zero, or 0 if `b` is 0.
///
/// The least signed number divided by -1 is itself.
#[tactic(auto, unfolding(crate::specs::Arithmetic::computed))]
fn sdiv64(a: u64, b: u64) -> u64
    ensures { result ≡ computed 64 AluOp.Sdiv a b }
{
    if b == 0 {
        return 0;
    }
    a.cast_signed()
        .wrapping_div(b.cast_signed())
        .cast_unsigned()
}

/// Returns the remainder of the signed division, or `a` if `b` is 0.
///
/// The remainder has the dividend's sign, or is 0.
#[tactic(auto, unfolding(crate::specs::Arithmetic::computed))]
fn smod64(a: u64, b: u64) -> u64
    ensures { result ≡ computed 64 AluOp.Smod a b }
{
    if b == 0 {
        return a;
    }
    a.cast_signed()
        .wrapping_rem(b.cast_signed())
        .cast_unsigned()
}
