//! Pointers: arithmetic on them, and accesses through them.
ghost use Rattle.std.specs.Prelude.{IfErr, IfOk, None, Some, ℤ, int_le, negsuc, pos, ◌&&◌, ◌+ℤ◌, ◌-ℤ◌, ◌≡◌, ◌≤ℤ◌, ◌≤◌};
ghost use Rattle.fc_isa.specs.Rules.{number_of};
ghost use Rattle.fc_kinds.specs.Containing.{IsKind};
ghost use Rattle.fc_kinds.specs.Transfer.{bytes_loaded, distance, inside, may_read, may_write, size_of};

use crate::kind::Kind;
use fc_isa::{LoadType, Operand, Rule, Size};

/// Length of a stack frame, in bytes.
const FRAME: u16 = 256;

/// Length of the request's region, in bytes.
const REQUEST: u16 = 1104;

/// Length of the readings, in bytes.
const READINGS: u16 = 64;

/// Returns the least and the greatest distance over which an operand moves a pointer.
///
/// `b` is the operand's abstract value.
///
/// # Errors
/// Returns the broken rule if the operand isn't a number, or is in a register and may be above
/// 65,536.
pub(crate) fn distance(operand: Operand, b: Kind) -> Result<(i64, i64), Rule>
    requires { IsKind b }
    ensures far { IfOk result (λ d. distance operand b ≡ Some d) }
    ensures least { IfOk result (λ d. (negsuc 2147483647 ≤ℤ d.0) × (d.0 ≤ℤ pos 2147483647)) }
    ensures most { IfOk result (λ d. (negsuc 2147483647 ≤ℤ d.1) × (d.1 ≤ℤ pos 2147483647)) }
    ensures refused { IfErr result (λ rule. distance operand b ≡ None) }
    ensures rule { IfErr result (λ rule. (20 ≤ number_of rule) × (number_of rule ≤ 27)) }
{
    match operand {
        Operand::Imm(imm) => Ok((imm as i64, imm as i64)),
        Operand::Reg(_) => match b {
            Kind::Num { lo, hi } if hi <= 65_536 => Ok((lo as i64, hi as i64)),
            Kind::Num { .. } => Err(Rule::PointerStep),
            Kind::Unset => Err(Rule::UnsetRegister),
            _ => Err(Rule::OperandKind),
        },
    }
}

/// Returns whether a moved pointer's offsets are within the allowed range.
///
/// The offsets are `lo` to `hi`, and the range is -65,536 to 65,536 bytes from the region's start.
pub(crate) fn is_near(lo: i64, hi: i64) -> bool
    ensures { result ≡ (int_le (negsuc 65535) lo && int_le hi (pos 65536)) }
{
    -65_536 <= lo && hi <= 65_536
}

/// Returns the sum of an offset and a distance, which can't overflow.
pub(crate) fn plus(a: i64, b: i64) -> i64
    requires left { (negsuc 1099511627775 ≤ℤ a) × (a ≤ℤ pos 1099511627776) }
    requires right { (negsuc 2147483647 ≤ℤ b) × (b ≤ℤ pos 2147483647) }
    ensures { result ≡ a +ℤ b }
{
    a + b
}

/// Returns the difference of an offset and a distance, which can't overflow.
pub(crate) fn minus(a: i64, b: i64) -> i64
    requires left { (negsuc 1099511627775 ≤ℤ a) × (a ≤ℤ pos 1099511627776) }
    requires right { (negsuc 2147483647 ≤ℤ b) × (b ≤ℤ pos 2147483647) }
    ensures { result ≡ a -ℤ b }
{
    a - b
}

/// Returns the number of bytes of an access of this size.
pub(crate) fn size_of(size: Size) -> u16
    ensures is { result ≡ size_of size }
    ensures few { result ≤ 8 }
{
    match size {
        Size::Byte => 1,
        Size::HalfWord => 2,
        Size::Word => 4,
        Size::DoubleWord => 8,
    }
}

/// Returns the number of bytes that a load reads.
pub(crate) fn bytes_loaded(loaded: LoadType) -> u16
    ensures is { result ≡ bytes_loaded loaded }
    ensures few { result ≤ 8 }
{
    match loaded {
        LoadType::Unsigned(size) => size_of(size),
        LoadType::SignedByte => 1,
        LoadType::SignedHalfWord => 2,
        LoadType::SignedWord => 4,
    }
}

/// Returns a number of bytes as an offset.
fn whole(n: u16) -> i64
    ensures { result ≡ pos n }
{
    n as i64
}

/// Returns an access's offset in 64 bits.
fn widened(offset: i16) -> i64
    ensures { result ≡ offset }
{
    offset as i64
}

/// Returns whether an access is within a region of `region` bytes.
///
/// The access has `bytes` bytes, at `offset` from a pointer whose own offset is from `lo` to `hi`.
fn inside(region: u16, bytes: u16, offset: i16, lo: i64, hi: i64) -> bool
    requires lo { (negsuc 65535 ≤ℤ lo) × (lo ≤ℤ pos 65536) }
    requires hi { (negsuc 65535 ≤ℤ hi) × (hi ≤ℤ pos 65536) }
    ensures { result ≡ inside region bytes offset lo hi }
{
    let by = widened(offset);
    let first = plus(lo, by);
    let end = plus(plus(hi, by), whole(bytes));
    first >= 0 && end <= whole(region)
}

/// Returns whether `bytes` bytes may be read at `offset` from a pointer.
///
/// All of them must be in the pointer's region. Returns `false` if `kind` isn't a pointer.
pub(crate) fn may_read(vars_size: u16, bytes: u16, offset: i16, kind: Kind) -> bool
    requires { IsKind kind }
    ensures { result ≡ may_read vars_size bytes offset kind }
{
    match kind {
        Kind::Stack { lo, hi, .. } => inside(FRAME, bytes, offset, lo, hi),
        Kind::Req { lo, hi } => inside(REQUEST, bytes, offset, lo, hi),
        Kind::Vars { lo, hi } => inside(vars_size, bytes, offset, lo, hi),
        Kind::Dev { lo, hi } => inside(READINGS, bytes, offset, lo, hi),
        Kind::Unset | Kind::Num { .. } => false,
    }
}

/// Returns whether `bytes` bytes may be written at `offset` from a pointer.
///
/// All of them must be in a stack frame or in the variables. Returns `false` if `kind` isn't a
/// pointer into one of these.
pub(crate) fn may_write(vars_size: u16, bytes: u16, offset: i16, kind: Kind) -> bool
    requires { IsKind kind }
    ensures { result ≡ may_write vars_size bytes offset kind }
{
    match kind {
        Kind::Stack { lo, hi, .. } => inside(FRAME, bytes, offset, lo, hi),
        Kind::Vars { lo, hi } => inside(vars_size, bytes, offset, lo, hi),
        Kind::Unset | Kind::Num { .. } | Kind::Req { .. } | Kind::Dev { .. } => false,
    }
}

/// Returns the rule that a refused access breaks.
///
/// The abstract value isn't a pointer, the bytes may be outside its region, or the access would
/// write the request or the readings. The contract says only that the rule is one from 20 to 27.
pub(crate) fn access_fault(vars_size: u16, bytes: u16, offset: i16, kind: Kind) -> Rule
    requires { IsKind kind }
    ensures { (20 ≤ number_of result) × (number_of result ≤ 27) }
{
    match kind {
        Kind::Unset => Rule::UnsetRegister,
        Kind::Num { .. } => Rule::OperandKind,
        _ if may_read(vars_size, bytes, offset, kind) => Rule::RequestStore,
        _ => Rule::Access,
    }
}
