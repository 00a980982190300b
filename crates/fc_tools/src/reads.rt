//! The registers that decide whether an instruction's preconditions hold.
ghost use Rattle.std.specs.Prelude.{◌≡◌};
ghost use Rattle.fc_tools.specs.Reads.{argument_list, arguments_read, arithmetic_reads, operand_read, read_by, read_with, registers_in};

use fc_help::{Arguments, helper_of, signature_of};
use fc_isa::{AluOp, Insn, Operand, Reg, Target};

/// The registers that an instruction reads, in the order of the instruction's line.
#[derive(Clone, Copy)]
pub enum Reads {
    Nothing,
    One(Reg),
    Two(Reg, Reg),
}

/// Returns the registers that an instruction reads.
///
/// The abstract values of these registers decide whether the instruction's preconditions hold.
pub fn registers_read(insn: Insn) -> Reads
    ensures { registers_in result ≡ read_by insn }
{
    match insn {
        Insn::Alu {
            op,
            dst,
            operand,
            ..
        } => arithmetic_reads(op, dst, operand),
        Insn::Unary { dst, .. } => Reads::One(register(dst)),
        Insn::SignExtend { src, .. } => Reads::One(src),
        Insn::Load { base, .. } => Reads::One(base),
        Insn::StoreImm { base, .. } => Reads::One(base),
        Insn::Store { base, src, .. } => Reads::Two(base, src),
        Insn::JumpIf(jump) => read_with(jump.left, jump.right),
        Insn::CallHelper { number } => arguments_read(number),
        Insn::Exit => Reads::One(Reg::new(0)),
        Insn::LoadWide { .. } | Insn::WideSecond | Insn::CallLocal { .. } => Reads::Nothing,
        Insn::JumpAlways { .. } | Insn::JumpAlwaysLong { .. } => Reads::Nothing,
    }
}

/// Returns the registers that an operation reads; a move reads only its operand.
fn arithmetic_reads(op: AluOp, dst: Target, operand: Operand) -> Reads
    ensures { registers_in result ≡ arithmetic_reads op dst operand }
{
    match op {
        AluOp::Mov => operand_read(operand),
        _ => read_with(register(dst), operand),
    }
}

/// Returns a writable register as a register.
fn register(target: Target) -> Reg
    ensures { result ≡ target }
{
    Reg::new(target.number())
}

/// Returns the register of a second operand, or `Nothing` for an immediate.
fn operand_read(operand: Operand) -> Reads
    ensures { registers_in result ≡ operand_read operand }
{
    match operand {
        Operand::Imm(_) => Reads::Nothing,
        Operand::Reg(reg) => Reads::One(reg),
    }
}

/// Returns a register, and that of a second operand unless it is an immediate.
fn read_with(first: Reg, operand: Operand) -> Reads
    ensures { registers_in result ≡ read_with first operand }
{
    match operand {
        Operand::Imm(_) => Reads::One(first),
        Operand::Reg(reg) => Reads::Two(first, reg),
    }
}

/// Returns the registers of a helper's arguments.
///
/// Returns `Nothing` if no helper has the number.
fn arguments_read(number: i32) -> Reads
    ensures { registers_in result ≡ arguments_read number }
{
    match helper_of(number) {
        None => Reads::Nothing,
        Some(helper) => argument_registers(signature_of(helper).arguments),
    }
}

/// Returns the registers that have these arguments: none, R1, or R1 and R2.
fn argument_registers(arguments: Arguments) -> Reads
    ensures { registers_in result ≡ argument_list arguments }
{
    match arguments {
        Arguments::NoArgument => Reads::Nothing,
        Arguments::OneNumber => Reads::One(Reg::new(1)),
        Arguments::TwoNumbers | Arguments::Bytes => Reads::Two(Reg::new(1), Reg::new(2)),
    }
}
