//! Loads and stores.
ghost use Rattle.std.specs.Prelude.{IfErr, IfOk, None, Some, ℤ, ◌≡◌, ◌≤◌};
ghost use Rattle.fc_isa.specs.Rules.{number_of};
ghost use Rattle.fc_kinds.specs.Containing.{AreKinds};
ghost use Rattle.fc_kinds.specs.Transfer.{loaded_interval, transfer};

use crate::interval::{Interval, all};
use crate::kind::{Kind, Regs};
use crate::operands::{is_number, num, put};
use crate::pointers::{access_fault, bytes_loaded, may_read, may_write, size_of};
use fc_isa::{Insn, LoadType, Reg, Rule, Size, Target, Width};

/// Updates the abstract state to that after a load.
///
/// The address is a base register plus an offset. The variables have `vars_size` bytes.
///
/// # Errors
/// Returns the broken rule if the base isn't a pointer, or the bytes aren't in its region. The
/// state then doesn't change.
#[tactic(auto, unfolding(crate::specs::Transfer::transfer))]
pub(crate) fn load(
    loaded: LoadType,
    dst: Target,
    base: Reg,
    offset: i16,
    regs: &mut Regs,
    vars_size: u16,
) -> Result<(), Rule>
    requires { AreKinds regs.old }
    ensures after { IfOk result (λ u. transfer vars_size (Insn.Load loaded dst base offset) regs.old ≡ Some regs.new) }
    ensures refused { IfErr result (λ rule. transfer vars_size (Insn.Load loaded dst base offset) regs.old ≡ None) }
    ensures kept { IfErr result (λ rule. regs.new ≡ regs.old) }
    ensures rule { IfErr result (λ rule. (20 ≤ number_of rule) × (number_of rule ≤ 27)) }
{
    let kind = regs[base.index()];
    let bytes = bytes_loaded(loaded);
    if may_read(vars_size, bytes, offset, kind) {
        put(regs, dst, num(loaded_interval(loaded)));
        Ok(())
    } else {
        Err(access_fault(vars_size, bytes, offset, kind))
    }
}

/// Returns the interval of the numbers that a load can give.
fn loaded_interval(loaded: LoadType) -> Interval
    ensures { result ≡ loaded_interval loaded }
{
    match loaded {
        LoadType::Unsigned(Size::Byte) => Interval { lo: 0, hi: 0xff },
        LoadType::Unsigned(Size::HalfWord) => Interval { lo: 0, hi: 0xffff },
        LoadType::Unsigned(Size::Word) => Interval {
            lo: 0,
            hi: 0xffff_ffff,
        },
        _ => all(Width::W64),
    }
}

/// Checks a store of an immediate at a base register plus an offset.
///
/// The state doesn't change. The variables have `vars_size` bytes.
///
/// # Errors
/// Returns the broken rule if the base isn't a pointer, the bytes aren't in its region, or the
/// region is the request or the readings.
#[tactic(auto, unfolding(crate::specs::Transfer::transfer))]
pub(crate) fn store_imm(
    size: Size,
    base: Reg,
    offset: i16,
    regs: &mut Regs,
    vars_size: u16,
) -> Result<(), Rule>
    requires { AreKinds regs.old }
    ensures after { (imm : ℤ) → IfOk result (λ u. transfer vars_size (Insn.StoreImm size base offset imm) regs.old ≡ Some regs.new) }
    ensures refused { (imm : ℤ) → IfErr result (λ rule. transfer vars_size (Insn.StoreImm size base offset imm) regs.old ≡ None) }
    ensures kept { IfErr result (λ rule. regs.new ≡ regs.old) }
    ensures rule { IfErr result (λ rule. (20 ≤ number_of rule) × (number_of rule ≤ 27)) }
{
    let kind = regs[base.index()];
    let bytes = size_of(size);
    if may_write(vars_size, bytes, offset, kind) {
        Ok(())
    } else {
        Err(access_fault(vars_size, bytes, offset, kind))
    }
}

/// Checks a store of a register at a base register plus an offset.
///
/// The state doesn't change. The variables have `vars_size` bytes.
///
/// # Errors
/// Returns the broken rule if the base isn't a pointer, the bytes aren't in its region, or the
/// region is the request or the readings. Also returns the broken rule if the stored register isn't
/// a number.
#[tactic(auto, unfolding(crate::specs::Transfer::transfer))]
pub(crate) fn store(
    size: Size,
    base: Reg,
    offset: i16,
    src: Reg,
    regs: &mut Regs,
    vars_size: u16,
) -> Result<(), Rule>
    requires { AreKinds regs.old }
    ensures after { IfOk result (λ u. transfer vars_size (Insn.Store size base offset src) regs.old ≡ Some regs.new) }
    ensures refused { IfErr result (λ rule. transfer vars_size (Insn.Store size base offset src) regs.old ≡ None) }
    ensures kept { IfErr result (λ rule. regs.new ≡ regs.old) }
    ensures rule { IfErr result (λ rule. (20 ≤ number_of rule) × (number_of rule ≤ 27)) }
{
    let (to, kind) = (regs[base.index()], regs[src.index()]);
    let bytes = size_of(size);
    if !may_write(vars_size, bytes, offset, to) {
        Err(store_fault(access_fault(vars_size, bytes, offset, to), kind))
    } else if is_number(kind) {
        Ok(())
    } else {
        Err(store_fault(Rule::PointerStore, kind))
    }
}

/// Returns the rule that a refused store breaks: `other`, or an unset register.
///
/// If `stored`, the stored register's abstract value, is unset, an unset register is reported
/// before any other rule. The contract says only that the rule is one from 20 to 27.
fn store_fault(other: Rule, stored: Kind) -> Rule
    requires { (20 ≤ number_of other) × (number_of other ≤ 27) }
    ensures { (20 ≤ number_of result) × (number_of result ≤ 27) }
{
    match stored {
        Kind::Unset => Rule::UnsetRegister,
        _ => other,
    }
}
