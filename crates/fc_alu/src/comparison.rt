//! Comparisons of conditional jumps.
ghost use Rattle.std.specs.Prelude.{◌≡◌};
ghost use Rattle.fc_alu.specs.Comparison.{compared, holds, truth};

use crate::operation::low_half;
use fc_isa::{Jump, Relation, Width};

/// Returns whether a conditional jump is taken (RFC 9669, section 4.3).
///
/// `left` is the value of the first operand, a register. `right` is the value of the second
/// operand, a register, or the immediate sign-extended to 64 bits.
pub fn truth(jump: Jump, left: u64, right: u64) -> bool
    ensures { result ≡ truth jump left right }
{
    compare(jump.relation, jump.width, left, right)
}

/// Returns whether two registers, or their low halves, are in the relation.
#[tactic(auto, unfolding(crate::specs::Comparison::compared))]
#[inline(always)]
pub fn compare(relation: Relation, width: Width, left: u64, right: u64) -> bool
    ensures { result ≡ compared relation width left right }
{
    match width {
        Width::W32 => compare32(relation, low_half(left), low_half(right)),
        Width::W64 => compare64(relation, left, right),
    }
}

/// Returns whether two 32-bit numbers are in the relation.
#[tactic(auto, unfolding(crate::specs::Comparison::holds))]
#[inline(always)]
fn compare32(relation: Relation, a: u32, b: u32) -> bool
    ensures { result ≡ holds 32 relation a b }
{
    match relation {
        Relation::Eq => a == b,
        Relation::Ne => a != b,
        Relation::Gt => a > b,
        Relation::Ge => a >= b,
        Relation::Lt => a < b,
        Relation::Le => a <= b,
        Relation::Sgt => a.cast_signed() > b.cast_signed(),
        Relation::Sge => a.cast_signed() >= b.cast_signed(),
        Relation::Slt => a.cast_signed() < b.cast_signed(),
        Relation::Sle => a.cast_signed() <= b.cast_signed(),
        Relation::Set => a & b != 0,
    }
}

/// Returns whether two 64-bit numbers are in the relation.
#[tactic(auto, unfolding(crate::specs::Comparison::holds))]
#[inline(always)]
fn compare64(relation: Relation, a: u64, b: u64) -> bool
    ensures { result ≡ holds 64 relation a b }
{
    match relation {
        Relation::Eq => a == b,
        Relation::Ne => a != b,
        Relation::Gt => a > b,
        Relation::Ge => a >= b,
        Relation::Lt => a < b,
        Relation::Le => a <= b,
        Relation::Sgt => a.cast_signed() > b.cast_signed(),
        Relation::Sge => a.cast_signed() >= b.cast_signed(),
        Relation::Slt => a.cast_signed() < b.cast_signed(),
        Relation::Sle => a.cast_signed() <= b.cast_signed(),
        Relation::Set => a & b != 0,
    }
}
