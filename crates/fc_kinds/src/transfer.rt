//! The verifier's transfer function: the abstract state after an instruction.
ghost use Rattle.std.specs.Prelude.{IfErr, IfOk, None, Some, true, ◌≡◌, ◌≤◌};
ghost use Rattle.fc_isa.specs.Rules.{number_of};
ghost use Rattle.fc_kinds.specs.Containing.{AreKinds};
ghost use Rattle.fc_kinds.specs.Transfer.{is_access, transfer};
ghost use Rattle.fc_kinds.specs.declared.kind.Kind.TheVariants.{Num};

use crate::arithmetic::{alu_after, unary_interval};
use crate::calls::{call_helper, returned};
use crate::interval::extended_values;
use crate::kind::{Kind, Regs};
use crate::memory::{load, store, store_imm};
use crate::operands::{is_number, num, number, operand_fault, operand_kind, put};
use fc_isa::{Insn, Jump, Rule};

/// Updates the abstract state to that after an instruction.
///
/// The program's variables have `vars_size` bytes. The state after a local call is that after the
/// function's exit.
///
/// # Errors
/// Returns a rule, 20 to 27, that the instruction breaks in this state; a wide load's second half
/// breaks rule 27. The state then doesn't change.
#[tactic(auto, unfolding(crate::specs::Transfer::transfer))]
pub fn after(insn: Insn, regs: &mut Regs, vars_size: u16) -> Result<(), Rule>
    requires { AreKinds regs.old }
    ensures after { IfOk result (λ u. transfer vars_size insn regs.old ≡ Some regs.new) }
    ensures refused { IfErr result (λ rule. transfer vars_size insn regs.old ≡ None) }
    ensures kept { IfErr result (λ rule. regs.new ≡ regs.old) }
    ensures rule { IfErr result (λ rule. (20 ≤ number_of rule) × (number_of rule ≤ 27)) }
{
    match insn {
        Insn::Alu {
            op,
            width,
            dst,
            operand,
        } => {
            let kind = alu_after(op, width, regs[dst.index()], &operand, regs)?;
            put(regs, dst, kind);
            Ok(())
        }
        Insn::Unary { op, dst } => {
            let s = number(regs[dst.index()])?;
            put(regs, dst, num(unary_interval(op, s)));
            Ok(())
        }
        Insn::SignExtend {
            extension,
            dst,
            src,
        } => {
            let s = number(regs[src.index()])?;
            put(regs, dst, num(extended_values(extension, s)));
            Ok(())
        }
        Insn::LoadWide { dst, value } => {
            put(regs, dst, one_number(value));
            Ok(())
        }
        Insn::Load { .. } | Insn::StoreImm { .. } | Insn::Store { .. } => {
            after_access(insn, regs, vars_size)
        }
        Insn::JumpAlways { .. } | Insn::JumpAlwaysLong { .. } => Ok(()),
        Insn::JumpIf(jump) => jump_if(&jump, regs),
        Insn::CallLocal { .. } => {
            returned(regs);
            Ok(())
        }
        Insn::Exit if is_number(regs[0]) => Ok(()),
        Insn::Exit => Err(Rule::ExitValue),
        Insn::CallHelper { number } => call_helper(number, regs, vars_size),
        Insn::WideSecond => Err(Rule::HelperArgument),
    }
}

/// Returns the abstract value of this number.
fn one_number(value: u64) -> Kind
    ensures { result ≡ Num value value }
{
    Kind::Num {
        lo: value,
        hi: value,
    }
}

/// Updates the abstract state to that after a load or a store.
///
/// # Errors
/// Returns the errors of `load`, `store_imm` and `store`. The state then doesn't change.
#[tactic(auto, unfolding(crate::specs::Transfer::transfer))]
fn after_access(insn: Insn, regs: &mut Regs, vars_size: u16) -> Result<(), Rule>
    requires kinds { AreKinds regs.old }
    requires access { is_access insn ≡ true }
    ensures after { IfOk result (λ u. transfer vars_size insn regs.old ≡ Some regs.new) }
    ensures refused { IfErr result (λ rule. transfer vars_size insn regs.old ≡ None) }
    ensures kept { IfErr result (λ rule. regs.new ≡ regs.old) }
    ensures rule { IfErr result (λ rule. (20 ≤ number_of rule) × (number_of rule ≤ 27)) }
{
    match insn {
        Insn::Load {
            loaded,
            dst,
            base,
            offset,
        } => load(loaded, dst, base, offset, regs, vars_size),
        Insn::StoreImm {
            size,
            base,
            offset,
            ..
        } => store_imm(size, base, offset, regs, vars_size),
        Insn::Store {
            size,
            base,
            offset,
            src,
        } => store(size, base, offset, src, regs, vars_size),
        _ => unreachable!(),
    }
}

/// Checks that a conditional jump compares two numbers.
///
/// Such a jump has no effect on the state.
///
/// # Errors
/// Returns the broken rule if one of the operands is unset or a pointer.
#[tactic(auto, unfolding(crate::specs::Transfer::transfer))]
fn jump_if(jump: &Jump, regs: &Regs) -> Result<(), Rule>
    requires { AreKinds regs.now }
    ensures after { IfOk result (λ u. transfer 0 (Insn.JumpIf jump.now) regs.now ≡ Some regs.now) }
    ensures refused { IfErr result (λ rule. transfer 0 (Insn.JumpIf jump.now) regs.now ≡ None) }
    ensures rule { IfErr result (λ rule. (20 ≤ number_of rule) × (number_of rule ≤ 27)) }
{
    let left = regs[jump.left.index()];
    let right = operand_kind(jump.width, jump.right, regs);
    if is_number(left) && is_number(right) {
        Ok(())
    } else {
        Err(operand_fault(left, right))
    }
}
