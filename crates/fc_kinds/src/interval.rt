//! Intervals of numbers, and their operations and refinements for the transfer function.
ghost use Rattle.std.specs.Prelude.{◌≡◌, ◌≤◌, ◌-◌, ◌^◌, ◌%◌};
ghost use Rattle.fc_kinds.specs.Intervals.{above, above_equal, added, all, alu_interval, clipped, divided, equal, exchanged, masked, merged, moded, multiplied, refined, shifted_left, shifted_right, shifted_signed, extended_values, interval_of, subtracted, unequal, without};
ghost use Rattle.fc_kinds.specs.Containing.{IsInterval};
ghost use Rattle.fc_alu.specs.Words.{bits_of};

use fc_isa::{AluOp, Relation, SignExtension, Width};

/// The numbers from `lo` to `hi`.
#[derive(Clone, Copy, PartialEq, Eq)]
pub struct Interval {
    pub lo: u64,
    pub hi: u64,
}

/// Returns the greatest number of a width.
fn limit(width: Width) -> u64
    ensures { result ≡ 2 ^ bits_of width - 1 }
{
    match width {
        Width::W32 => 0xffff_ffff,
        Width::W64 => 0xffff_ffff_ffff_ffff,
    }
}

/// Returns the interval of all numbers of a width.
pub fn all(width: Width) -> Interval
    ensures { result ≡ all (bits_of width) }
{
    Interval {
        lo: 0,
        hi: limit(width),
    }
}

/// Returns an interval that contains the low bits of the numbers in `s`.
///
/// It is `s` itself if all numbers in `s` have this width, and otherwise all numbers of the width.
fn clipped(width: Width, s: Interval) -> Interval
    requires { s.lo ≤ s.hi }
    ensures is { result ≡ clipped (bits_of width) s }
    ensures proper { IsInterval (bits_of width) result }
{
    if s.hi <= limit(width) { s } else { all(width) }
}

/// Returns the interval of sums, or all numbers if a sum may overflow the width.
fn added(width: Width, a: Interval, b: Interval) -> Interval
    requires left { IsInterval (bits_of width) a }
    requires right { IsInterval (bits_of width) b }
    ensures { result ≡ added (bits_of width) a b }
{
    match a.hi.checked_add(b.hi) {
        Some(hi) if hi <= limit(width) => Interval {
            lo: a.lo + b.lo,
            hi,
        },
        _ => all(width),
    }
}

/// Returns the interval of differences, or all numbers if one may be below 0.
fn subtracted(width: Width, a: Interval, b: Interval) -> Interval
    requires left { IsInterval (bits_of width) a }
    requires right { IsInterval (bits_of width) b }
    ensures { result ≡ subtracted (bits_of width) a b }
{
    if a.lo >= b.hi {
        Interval {
            lo: a.lo - b.hi,
            hi: a.hi - b.lo,
        }
    } else {
        all(width)
    }
}

/// Returns the interval of products, or all numbers if one may overflow the width.
fn multiplied(width: Width, a: Interval, b: Interval) -> Interval
    requires left { IsInterval (bits_of width) a }
    requires right { IsInterval (bits_of width) b }
    ensures { result ≡ multiplied (bits_of width) a b }
{
    match a.hi.checked_mul(b.hi) {
        Some(hi) if hi <= limit(width) => Interval {
            lo: a.lo.wrapping_mul(b.lo),
            hi,
        },
        _ => all(width),
    }
}

/// Returns an interval of quotients; a quotient by 0 is 0.
fn divided(a: Interval, b: Interval) -> Interval
    requires { b.lo ≤ b.hi }
    ensures { result ≡ divided a b }
{
    if b.lo >= 1 {
        Interval {
            lo: a.lo / b.hi,
            hi: a.hi / b.lo,
        }
    } else {
        Interval { lo: 0, hi: a.hi }
    }
}

/// Returns an interval of remainders; a remainder by 0 is the dividend.
fn moded(a: Interval, b: Interval) -> Interval
    requires { b.lo ≤ b.hi }
    ensures { result ≡ moded a b }
{
    if b.lo >= 1 {
        Interval {
            lo: 0,
            hi: a.hi.min(b.hi - 1),
        }
    } else {
        Interval { lo: 0, hi: a.hi }
    }
}

/// Returns an interval of the results of `or` and `xor`.
///
/// It is from 0 to the least number of the form `2 ^ k - 1` that is at least both upper ends.
fn merged(width: Width, a: Interval, b: Interval) -> Interval
    requires left { IsInterval (bits_of width) a }
    requires right { IsInterval (bits_of width) b }
    ensures { result ≡ merged (bits_of width) a b }
{
    let greatest = a.hi.max(b.hi);
    Interval {
        lo: 0,
        hi: u64::MAX.checked_shr(greatest.leading_zeros()).unwrap_or(0),
    }
}

/// Returns an interval of the results of `and`: from 0 to the lesser upper end.
fn masked(a: Interval, b: Interval) -> Interval
    ensures { result ≡ masked a b }
{
    Interval {
        lo: 0,
        hi: a.hi.min(b.hi),
    }
}

/// Returns the number of bits of a shift whose count is `n`: `n` modulo the width.
fn count(width: Width, n: u64) -> u32
    ensures { result ≡ n % bits_of width }
{
    match width {
        Width::W32 => (n & 31) as u32,
        Width::W64 => (n & 63) as u32,
    }
}

/// Returns an interval of numbers shifted left.
///
/// It has all numbers if the count isn't known, or if a number may overflow the width.
fn shifted_left(width: Width, a: Interval, b: Interval) -> Interval
    requires left { IsInterval (bits_of width) a }
    requires right { IsInterval (bits_of width) b }
    ensures { result ≡ shifted_left (bits_of width) a b }
{
    let by = count(width, b.lo);
    if b.lo == b.hi && a.hi <= limit(width) >> by {
        Interval {
            lo: a.lo << by,
            hi: a.hi << by,
        }
    } else {
        all(width)
    }
}

/// Returns an interval of numbers shifted right; from 0 if the count isn't known.
fn shifted_right(width: Width, a: Interval, b: Interval) -> Interval
    ensures { result ≡ shifted_right (bits_of width) a b }
{
    if b.lo == b.hi {
        let by = count(width, b.lo);
        Interval {
            lo: a.lo >> by,
            hi: a.hi >> by,
        }
    } else {
        Interval { lo: 0, hi: a.hi }
    }
}

/// Returns an interval of numbers shifted right, with their sign.
///
/// It has all numbers if the count isn't known, or if a number may be negative.
fn shifted_signed(width: Width, a: Interval, b: Interval) -> Interval
    ensures { result ≡ shifted_signed (bits_of width) a b }
{
    if b.lo == b.hi && a.hi <= limit(width) >> 1 {
        let by = count(width, b.lo);
        Interval {
            lo: a.lo >> by,
            hi: a.hi >> by,
        }
    } else {
        all(width)
    }
}

/// Returns an interval that contains the results of an operation on intervals.
///
/// Both intervals have numbers of the operation's width.
#[tactic(auto, unfolding(crate::specs::Intervals::interval_of))]
fn interval_of(op: AluOp, width: Width, a: Interval, b: Interval) -> Interval
    requires left { IsInterval (bits_of width) a }
    requires right { IsInterval (bits_of width) b }
    ensures { result ≡ interval_of (bits_of width) op a b }
{
    match op {
        AluOp::Add => added(width, a, b),
        AluOp::Sub => subtracted(width, a, b),
        AluOp::Mul => multiplied(width, a, b),
        AluOp::Div => divided(a, b),
        AluOp::Or | AluOp::Xor => merged(width, a, b),
        AluOp::And => masked(a, b),
        AluOp::Lsh => shifted_left(width, a, b),
        AluOp::Rsh => shifted_right(width, a, b),
        AluOp::Mod => moded(a, b),
        AluOp::Mov => b,
        AluOp::Arsh => shifted_signed(width, a, b),
        AluOp::Sdiv | AluOp::Smod => all(width),
    }
}

/// Returns an interval that contains the results of an operation.
///
/// The operation is on two registers, or on their low halves, with numbers in these intervals.
#[tactic(auto, unfolding(crate::specs::Intervals::alu_interval))]
pub fn alu_interval(op: AluOp, width: Width, a: Interval, b: Interval) -> Interval
    requires left { a.lo ≤ a.hi }
    requires right { b.lo ≤ b.hi }
    ensures is { result ≡ alu_interval op width a b }
    ensures proper { IsInterval (bits_of width) result }
{
    interval_of(op, width, clipped(width, a), clipped(width, b))
}

/// Returns an interval that contains the results of a move with sign extension.
#[tactic(auto, unfolding(crate::specs::Intervals::extended_values))]
pub fn extended_values(extension: SignExtension, b: Interval) -> Interval
    ensures { result ≡ extended_values extension b }
{
    match extension {
        SignExtension::Byte(width) if b.hi < 0x80 => b,
        SignExtension::Byte(width) => all(width),
        SignExtension::HalfWord(width) if b.hi < 0x8000 => b,
        SignExtension::HalfWord(width) => all(width),
        SignExtension::Word if b.hi < 0x8000_0000 => b,
        SignExtension::Word => all(Width::W64),
    }
}

/// Narrows two intervals to numbers for which the relation may hold.
///
/// `a` is on the relation's left and `b` on its right, and the relation is of all 64 bits. Returns
/// `None` if an unsigned relation, or one of equality, holds for no two numbers in the intervals.
/// For a signed comparison or a test of bits, returns both intervals unchanged.
#[tactic(auto, unfolding(crate::specs::Intervals::refined))]
pub fn refined(relation: Relation, a: Interval, b: Interval) -> Option<(Interval, Interval)>
    requires left { a.lo ≤ a.hi }
    requires right { b.lo ≤ b.hi }
    ensures { result ≡ refined relation a b }
{
    match relation {
        Relation::Eq => equal(a, b),
        Relation::Gt => above(a, b),
        Relation::Ge => above_equal(a, b),
        Relation::Ne => unequal(a, b),
        Relation::Lt => exchanged(above(b, a)),
        Relation::Le => exchanged(above_equal(b, a)),
        Relation::Set | Relation::Sgt | Relation::Sge | Relation::Slt | Relation::Sle => {
            Some((a, b))
        }
    }
}

/// Returns a refinement with its intervals exchanged; `None` stays `None`.
///
/// `a < b` is thus refined as `b > a`.
fn exchanged(pair: Option<(Interval, Interval)>) -> Option<(Interval, Interval)>
    ensures { result ≡ exchanged pair }
{
    match pair {
        Some((a, b)) => Some((b, a)),
        None => None,
    }
}

/// Refines two intervals by `a > b`.
///
/// Returns `None` if the relation holds for no two numbers in the intervals.
fn above(a: Interval, b: Interval) -> Option<(Interval, Interval)>
    ensures { result ≡ above a b }
{
    if a.hi > b.lo {
        let first = Interval {
            lo: a.lo.max(b.lo + 1),
            hi: a.hi,
        };
        let second = Interval {
            lo: b.lo,
            hi: b.hi.min(a.hi - 1),
        };
        Some((first, second))
    } else {
        None
    }
}

/// Refines two intervals by `a >= b`.
///
/// Returns `None` if the relation holds for no two numbers in the intervals.
fn above_equal(a: Interval, b: Interval) -> Option<(Interval, Interval)>
    ensures { result ≡ above_equal a b }
{
    if a.hi >= b.lo {
        let first = Interval {
            lo: a.lo.max(b.lo),
            hi: a.hi,
        };
        let second = Interval {
            lo: b.lo,
            hi: b.hi.min(a.hi),
        };
        Some((first, second))
    } else {
        None
    }
}

/// Refines two intervals by `a == b`.
///
/// Returns `None` if the intervals have no number in common. Otherwise both intervals of the result
/// are the numbers that `a` and `b` have in common.
fn equal(a: Interval, b: Interval) -> Option<(Interval, Interval)>
    ensures { result ≡ equal a b }
{
    let common = Interval {
        lo: a.lo.max(b.lo),
        hi: a.hi.min(b.hi),
    };
    if common.lo <= common.hi {
        Some((common, common))
    } else {
        None
    }
}

/// Refines two intervals by `a != b`.
///
/// Returns `None` if the relation holds for no two numbers in the intervals. Only `a` changes, and
/// only if `b` is a single number at one of the ends of `a`.
fn unequal(a: Interval, b: Interval) -> Option<(Interval, Interval)>
    requires left { a.lo ≤ a.hi }
    requires right { b.lo ≤ b.hi }
    ensures { result ≡ unequal a b }
{
    if b.lo < b.hi {
        return Some((a, b));
    }
    if a.lo == a.hi && a.lo == b.lo {
        return None;
    }
    Some((without(a, b.lo), b))
}

/// Returns the interval without a number at one of its ends.
///
/// If the number is at neither end, the interval doesn't change.
fn without(a: Interval, n: u64) -> Interval
    requires some { a.lo ≤ a.hi }
    requires other { (a.lo ≡ a.hi) → (a.lo ≡ n) → ⊥ }
    ensures { result ≡ without a n }
{
    if a.lo == n {
        Interval {
            lo: a.lo + 1,
            hi: a.hi,
        }
    } else if a.hi == n {
        Interval {
            lo: a.lo,
            hi: a.hi - 1,
        }
    } else {
        a
    }
}
