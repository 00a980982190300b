//! The operands that an instruction reads.
ghost use Rattle.std.specs.Prelude.{IfErr, IfOk, false, slice_set, ◌≡◌, ◌≤◌};
ghost use Rattle.fc_isa.specs.Rules.{number_of};
ghost use Rattle.fc_kinds.specs.Containing.{AreKinds, IsKind};
ghost use Rattle.fc_kinds.specs.Transfer.{immediate, is_number, num, operand_kind};

use crate::interval::Interval;
use crate::kind::{Kind, Regs};
use fc_isa::{Operand, Rule, Target, Width};

/// Returns the interval of an abstract value that is a number.
///
/// # Errors
/// Returns the broken rule if the register is unset or a pointer.
pub(crate) fn number(kind: Kind) -> Result<Interval, Rule>
    ensures number { IfOk result (λ s. kind ≡ num s) }
    ensures refused { IfErr result (λ rule. is_number kind ≡ false) }
    ensures rule { IfErr result (λ rule. (20 ≤ number_of rule) × (number_of rule ≤ 27)) }
{
    match kind {
        Kind::Num { lo, hi } => Ok(Interval { lo, hi }),
        Kind::Unset => Err(Rule::UnsetRegister),
        _ => Err(Rule::OperandKind),
    }
}

/// Returns whether the abstract value is a number.
pub(crate) fn is_number(kind: Kind) -> bool
    ensures { result ≡ is_number kind }
{
    matches!(kind, Kind::Num { .. })
}

/// Returns the abstract value of the numbers in an interval.
pub(crate) fn num(s: Interval) -> Kind
    ensures { result ≡ num s }
{
    Kind::Num { lo: s.lo, hi: s.hi }
}

/// Returns the rule that two operands break if they aren't both numbers.
///
/// An unset register is reported before a pointer. The contract says only that the rule is one from
/// 20 to 27.
pub(crate) fn operand_fault(a: Kind, b: Kind) -> Rule
    ensures { (20 ≤ number_of result) × (number_of result ≤ 27) }
{
    match (a, b) {
        (Kind::Unset, _) => Rule::UnsetRegister,
        (_, Kind::Unset) => Rule::UnsetRegister,
        _ => Rule::OperandKind,
    }
}

/// Returns the abstract value of the second operand.
///
/// The abstract value of an immediate is a single number of this width.
pub(crate) fn operand_kind(width: Width, operand: Operand, regs: &Regs) -> Kind
    requires { AreKinds regs.now }
    ensures kind { result ≡ operand_kind width operand regs.now }
    ensures is { IsKind result }
{
    match operand {
        Operand::Imm(imm) => {
            let n = immediate(width, imm);
            Kind::Num { lo: n, hi: n }
        }
        Operand::Reg(reg) => regs[reg.index()],
    }
}

/// Returns an immediate's 32 bits, or its sign extension to 64 bits.
fn immediate(width: Width, imm: i32) -> u64
    ensures { result ≡ immediate width imm }
{
    match width {
        Width::W32 => imm.cast_unsigned() as u64,
        Width::W64 => (imm as i64).cast_unsigned(),
    }
}

/// Sets the abstract value of a register.
pub(crate) fn put(regs: &mut Regs, dst: Target, kind: Kind)
    ensures { regs.new ≡ slice_set regs.old dst kind }
{
    regs[dst.index()] = kind;
}
