//! Abstract values after arithmetic.
ghost use Rattle.std.specs.Prelude.{IfErr, IfOk, None, Some, ◌≡◌, ◌≤◌};
ghost use Rattle.fc_isa.specs.Rules.{number_of};
ghost use Rattle.fc_kinds.specs.Containing.{AreKinds, IsKind};
ghost use Rattle.fc_kinds.specs.Transfer.{kind_added, alu_kind, moved, numbers, operand_kind, ordered_interval, kind_subtracted, unary_interval};

use crate::interval::{Interval, all, alu_interval};
use crate::kind::{Kind, Regs};
use crate::operands::{num, operand_fault, operand_kind};
use crate::pointers::{distance, is_near, minus, plus};
use fc_isa::{AluOp, ByteOrder, Operand, Rule, SwapWidth, UnaryOp, Width};

/// Returns the abstract value after an operation on two numbers.
///
/// The first number is in the interval `a`, and `b` is the abstract value of the second.
///
/// # Errors
/// Returns the broken rule if `b` isn't a number.
fn numbers(op: AluOp, width: Width, a: Interval, b: Kind) -> Result<Kind, Rule>
    requires left { a.lo ≤ a.hi }
    requires right { IsKind b }
    ensures kind { IfOk result (λ k. numbers op width b a ≡ Some k) }
    ensures refused { IfErr result (λ rule. numbers op width b a ≡ None) }
    ensures rule { IfErr result (λ rule. (20 ≤ number_of rule) × (number_of rule ≤ 27)) }
{
    match b {
        Kind::Num { lo, hi } => Ok(num(alu_interval(op, width, a, Interval { lo, hi }))),
        Kind::Unset => Err(Rule::UnsetRegister),
        _ => Err(Rule::OperandKind),
    }
}

/// Returns the abstract value of a sum, or of a pointer moved forwards.
///
/// `a` is the destination's abstract value, and `b` that of `operand`.
///
/// # Errors
/// Returns the broken rule if `a` is unset, if `b` isn't a number, or if a pointer is moved too
/// far.
fn added(operand: Operand, a: Kind, b: Kind) -> Result<Kind, Rule>
    requires left { IsKind a }
    requires right { IsKind b }
    ensures kind { IfOk result (λ k. kind_added operand a b ≡ Some k) }
    ensures refused { IfErr result (λ rule. kind_added operand a b ≡ None) }
    ensures rule { IfErr result (λ rule. (20 ≤ number_of rule) × (number_of rule ≤ 27)) }
{
    match a {
        Kind::Num { lo, hi } => numbers(AluOp::Add, Width::W64, Interval { lo, hi }, b),
        Kind::Unset => Err(Rule::UnsetRegister),
        Kind::Stack { level, lo, hi } => {
            let (least, most) = distance(operand, b)?;
            let (lo, hi) = (plus(lo, least), plus(hi, most));
            if is_near(lo, hi) {
                Ok(Kind::Stack { level, lo, hi })
            } else {
                Err(Rule::PointerStep)
            }
        }
        Kind::Req { lo, hi } => {
            let (least, most) = distance(operand, b)?;
            let (lo, hi) = (plus(lo, least), plus(hi, most));
            if is_near(lo, hi) {
                Ok(Kind::Req { lo, hi })
            } else {
                Err(Rule::PointerStep)
            }
        }
        Kind::Vars { lo, hi } => {
            let (least, most) = distance(operand, b)?;
            let (lo, hi) = (plus(lo, least), plus(hi, most));
            if is_near(lo, hi) {
                Ok(Kind::Vars { lo, hi })
            } else {
                Err(Rule::PointerStep)
            }
        }
        Kind::Dev { lo, hi } => {
            let (least, most) = distance(operand, b)?;
            let (lo, hi) = (plus(lo, least), plus(hi, most));
            if is_near(lo, hi) {
                Ok(Kind::Dev { lo, hi })
            } else {
                Err(Rule::PointerStep)
            }
        }
    }
}

/// Returns the abstract value of a difference, or of a pointer moved backwards.
///
/// `a` is the destination's abstract value, and `b` that of `operand`.
///
/// # Errors
/// Returns the broken rule if `a` is unset, if `b` isn't a number, or if a pointer is moved too
/// far.
fn subtracted(operand: Operand, a: Kind, b: Kind) -> Result<Kind, Rule>
    requires left { IsKind a }
    requires right { IsKind b }
    ensures kind { IfOk result (λ k. kind_subtracted operand a b ≡ Some k) }
    ensures refused { IfErr result (λ rule. kind_subtracted operand a b ≡ None) }
    ensures rule { IfErr result (λ rule. (20 ≤ number_of rule) × (number_of rule ≤ 27)) }
{
    match a {
        Kind::Num { lo, hi } => numbers(AluOp::Sub, Width::W64, Interval { lo, hi }, b),
        Kind::Unset => Err(Rule::UnsetRegister),
        Kind::Stack { level, lo, hi } => {
            let (least, most) = distance(operand, b)?;
            let (lo, hi) = (minus(lo, most), minus(hi, least));
            if is_near(lo, hi) {
                Ok(Kind::Stack { level, lo, hi })
            } else {
                Err(Rule::PointerStep)
            }
        }
        Kind::Req { lo, hi } => {
            let (least, most) = distance(operand, b)?;
            let (lo, hi) = (minus(lo, most), minus(hi, least));
            if is_near(lo, hi) {
                Ok(Kind::Req { lo, hi })
            } else {
                Err(Rule::PointerStep)
            }
        }
        Kind::Vars { lo, hi } => {
            let (least, most) = distance(operand, b)?;
            let (lo, hi) = (minus(lo, most), minus(hi, least));
            if is_near(lo, hi) {
                Ok(Kind::Vars { lo, hi })
            } else {
                Err(Rule::PointerStep)
            }
        }
        Kind::Dev { lo, hi } => {
            let (least, most) = distance(operand, b)?;
            let (lo, hi) = (minus(lo, most), minus(hi, least));
            if is_near(lo, hi) {
                Ok(Kind::Dev { lo, hi })
            } else {
                Err(Rule::PointerStep)
            }
        }
    }
}

/// Returns the abstract value after a move of a value `b`.
///
/// A 64-bit move keeps `b`. A 32-bit move gives the range of a number's low half.
///
/// # Errors
/// Returns the broken rule if `b` is unset, or if it is a pointer and the move has 32 bits.
fn moved(width: Width, b: Kind) -> Result<Kind, Rule>
    requires { IsKind b }
    ensures kind { IfOk result (λ k. moved width b ≡ Some k) }
    ensures refused { IfErr result (λ rule. moved width b ≡ None) }
    ensures rule { IfErr result (λ rule. (20 ≤ number_of rule) × (number_of rule ≤ 27)) }
{
    match (width, b) {
        (_, Kind::Unset) => Err(Rule::UnsetRegister),
        (Width::W64, Kind::Num { .. }) => Ok(b),
        (Width::W64, Kind::Stack { .. }) => Ok(b),
        (Width::W64, Kind::Req { .. }) => Ok(b),
        (Width::W64, Kind::Vars { .. }) => Ok(b),
        (Width::W64, Kind::Dev { .. }) => Ok(b),
        (Width::W32, Kind::Num { lo, hi }) => {
            let s = Interval { lo, hi };
            Ok(num(alu_interval(AluOp::Mov, Width::W32, s, s)))
        }
        (Width::W32, _) => Err(Rule::OperandKind),
    }
}

/// Returns the destination's abstract value after an operation.
///
/// The destination's abstract value before is `a`, and `b` is that of `operand`.
///
/// # Errors
/// Returns the broken rule if an operand is unset or of the wrong kind, or if a pointer is moved
/// too far.
#[tactic(auto, unfolding(crate::specs::Transfer::alu_kind))]
fn alu_kind(op: AluOp, width: Width, operand: Operand, a: Kind, b: Kind) -> Result<Kind, Rule>
    requires left { IsKind a }
    requires right { IsKind b }
    ensures kind { IfOk result (λ k. alu_kind op width operand a b ≡ Some k) }
    ensures refused { IfErr result (λ rule. alu_kind op width operand a b ≡ None) }
    ensures rule { IfErr result (λ rule. (20 ≤ number_of rule) × (number_of rule ≤ 27)) }
{
    match (op, width) {
        (AluOp::Mov, _) => moved(width, b),
        (AluOp::Add, Width::W64) => added(operand, a, b),
        (AluOp::Sub, Width::W64) => subtracted(operand, a, b),
        _ => match a {
            Kind::Num { lo, hi } => numbers(op, width, Interval { lo, hi }, b),
            _ => Err(operand_fault(a, b)),
        },
    }
}

/// Returns the destination's abstract value after an operation; `a` is that before.
///
/// # Errors
/// Returns the broken rule if an operand is unset or of the wrong kind, or if a pointer is moved
/// too far.
pub(crate) fn alu_after(
    op: AluOp,
    width: Width,
    a: Kind,
    operand: &Operand,
    regs: &Regs,
) -> Result<Kind, Rule>
    requires left { IsKind a }
    requires kinds { AreKinds regs.now }
    ensures kind { IfOk result (λ k. alu_kind op width operand.now a (operand_kind width operand.now regs.now) ≡ Some k) }
    ensures refused { IfErr result (λ rule. alu_kind op width operand.now a (operand_kind width operand.now regs.now) ≡ None) }
    ensures rule { IfErr result (λ rule. (20 ≤ number_of rule) × (number_of rule ≤ 27)) }
{
    alu_kind(op, width, *operand, a, operand_kind(width, *operand, regs))
}

/// Returns an interval of the results of an operation on one register, with a number in `s`.
#[tactic(auto, unfolding(crate::specs::Transfer::unary_interval))]
pub(crate) fn unary_interval(op: UnaryOp, s: Interval) -> Interval
    ensures { result ≡ unary_interval op s }
{
    match op {
        UnaryOp::Neg(width) => all(width),
        UnaryOp::End(order, width) => ordered_interval(order, width, s),
    }
}

/// Returns an interval of the results of a byte-order change of numbers in `s`.
fn ordered_interval(order: ByteOrder, width: SwapWidth, s: Interval) -> Interval
    ensures { result ≡ ordered_interval order width s }
{
    let hi = match width {
        SwapWidth::S16 => 0xffff,
        SwapWidth::S32 => 0xffff_ffff,
        SwapWidth::S64 => 0xffff_ffff_ffff_ffff,
    };
    match order {
        ByteOrder::Little if s.hi <= hi => s,
        _ => Interval { lo: 0, hi },
    }
}
