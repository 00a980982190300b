//! The disassembler: from instructions to source text.
ghost use Rattle.std.specs.Prelude.{IfOk, IsTrue, ◌≡◌, string_bytes, Some, pos};
ghost use Rattle.fc_isa.specs.Program.{is_program};
ghost use Rattle.fc_isa.specs.Encoding.{extended_bits};
ghost use Rattle.fc_asm.specs.Listing.{listing, mnemonic_of, operands_of};
ghost use Rattle.fc_asm.specs.Shown.{shown_texts};

use crate::mnemonic::Mnemonic;
use fc_isa::{Insn, Operand, Reg, SignExtension, Target, Width};
use std::alloc::{AllocError, Global};
use std::fmt;

/// Disassembles a program to one instruction on each line.
///
/// The assembler accepts this text.
///
/// # Errors
/// Returns `AllocError` if memory can't be allocated.
pub fn disassemble(alloc: Global, program: &[Insn]) -> Result<String, AllocError>
    requires { IsTrue (is_program program.now) }
    ensures { IfOk result (λ s. string_bytes s ≡ listing program.now) }
{
    let mut text = String::new(alloc);
    for insn in program {
        if let Some(mnemonic) = mnemonic(*insn) {
            let line = ListingLine {
                mnemonic,
                operands: shown_operands(*insn),
            };
            write!(text, "{line}")?;
        }
    }
    Ok(text)
}

/// An operand as the disassembler writes it.
#[derive(Clone, Copy)]
enum ShownOperand {
    Register(usize),
    Number(i64),
    Wide(u64),
}

impl fmt::Display for ShownOperand {
    ghost use Rattle.std.specs.Prelude.{Some};
    ghost use Rattle.fc_asm.specs.Shown.{shown_text};

    ghost output = { λ s. Some (shown_text s) };

    fn fmt<W: fmt::Write>(&self, f: &mut fmt::Formatter<W>) -> fmt::Result {
        match *self {
            ShownOperand::Register(number) => write!(f, "r{number}"),
            ShownOperand::Number(value) => write!(f, "{value}"),
            ShownOperand::Wide(value) => write!(f, "{value}"),
        }
    }
}

impl From<Target> for ShownOperand {
    ghost use Rattle.std.specs.Prelude.{◌≡◌};
    ghost use Rattle.fc_asm.specs.declared.disassembler.ShownOperand.TheVariants.{Register};

    ghost from_gives = { λ t s. s ≡ Register t };

    fn from(target: Target) -> Self {
        ShownOperand::Register(target.index())
    }
}

impl From<Reg> for ShownOperand {
    ghost use Rattle.std.specs.Prelude.{◌≡◌};
    ghost use Rattle.fc_asm.specs.declared.disassembler.ShownOperand.TheVariants.{Register};

    ghost from_gives = { λ r s. s ≡ Register r };

    fn from(reg: Reg) -> Self {
        ShownOperand::Register(reg.index())
    }
}

impl From<i16> for ShownOperand {
    ghost use Rattle.std.specs.Prelude.{◌≡◌};
    ghost use Rattle.fc_asm.specs.declared.disassembler.ShownOperand.TheVariants.{Number};

    ghost from_gives = { λ k s. s ≡ Number k };

    fn from(offset: i16) -> Self {
        ShownOperand::Number(i64::from(offset))
    }
}

impl From<i32> for ShownOperand {
    ghost use Rattle.std.specs.Prelude.{◌≡◌};
    ghost use Rattle.fc_asm.specs.declared.disassembler.ShownOperand.TheVariants.{Number};

    ghost from_gives = { λ k s. s ≡ Number k };

    fn from(imm: i32) -> Self {
        ShownOperand::Number(i64::from(imm))
    }
}

impl From<Operand> for ShownOperand {
    ghost use Rattle.std.specs.Prelude.{◌≡◌};
    ghost use Rattle.fc_asm.specs.Shown.{shown_operand};

    ghost from_gives = { λ o s. s ≡ shown_operand o };

    fn from(operand: Operand) -> Self {
        match operand {
            Operand::Imm(imm) => imm.into(),
            Operand::Reg(reg) => reg.into(),
        }
    }
}

/// The operands of a line.
#[derive(Clone, Copy)]
enum Operands {
    Zero,
    One(ShownOperand),
    Two(ShownOperand, ShownOperand),
    Three(ShownOperand, ShownOperand, ShownOperand),
}

/// A line of a disassembly, which prints with its line feed.
#[derive(Clone, Copy)]
struct ListingLine {
    mnemonic: Mnemonic,
    operands: Operands,
}

impl fmt::Display for ListingLine {
    ghost use Rattle.std.specs.Prelude.{Some};
    ghost use Rattle.fc_asm.specs.Listing.{line};
    ghost use Rattle.fc_asm.specs.Shown.{shown_texts};

    ghost output = { λ l. Some (line l.mnemonic (shown_texts l.operands)) };

    fn fmt<W: fmt::Write>(&self, f: &mut fmt::Formatter<W>) -> fmt::Result {
        let name = self.mnemonic;
        match self.operands {
            Operands::Zero => write!(f, "{name}\n"),
            Operands::One(a) => write!(f, "{name} {a}\n"),
            Operands::Two(a, b) => write!(f, "{name} {a}, {b}\n"),
            Operands::Three(a, b, c) => write!(f, "{name} {a}, {b}, {c}\n"),
        }
    }
}

/// Returns an instruction's mnemonic, or `None` for a wide load's second half.
fn mnemonic(insn: Insn) -> Option<Mnemonic>
    ensures { result ≡ mnemonic_of insn }
{
    Some(match insn {
        Insn::Alu { op, width, .. } => Mnemonic::Alu(op, width),
        Insn::Unary { op, .. } => Mnemonic::Unary(op),
        Insn::SignExtend { extension, .. } => extend(extension),
        Insn::LoadWide { .. } => Mnemonic::LoadWide,
        Insn::WideSecond => return None,
        Insn::Load { loaded, .. } => Mnemonic::Load(loaded),
        Insn::StoreImm { size, .. } => Mnemonic::StoreImm(size),
        Insn::Store { size, .. } => Mnemonic::Store(size),
        Insn::JumpAlways { .. } => Mnemonic::JumpAlways,
        Insn::JumpAlwaysLong { .. } => Mnemonic::JumpAlwaysLong,
        Insn::JumpIf(jump) => Mnemonic::JumpIf(jump.relation, jump.width),
        Insn::CallHelper { .. } => Mnemonic::CallHelper,
        Insn::CallLocal { .. } => Mnemonic::CallLocal,
        Insn::Exit => Mnemonic::Exit,
    })
}

/// Returns the mnemonic of a move with sign extension.
fn extend(extension: SignExtension) -> Mnemonic
    ensures { Some result ≡ mnemonic_of (Insn.SignExtend extension 0 0) }
{
    match extension {
        SignExtension::Byte(width) | SignExtension::HalfWord(width) => Mnemonic::SignExtend(width),
        SignExtension::Word => Mnemonic::SignExtend(Width::W64),
    }
}

/// Returns the number of low bits that a sign extension extends.
fn bits(extension: SignExtension) -> i32
    ensures { result ≡ pos (extended_bits extension) }
{
    match extension {
        SignExtension::Byte(_) => 8,
        SignExtension::HalfWord(_) => 16,
        SignExtension::Word => 32,
    }
}

/// Returns an instruction's operands, in the order of the line.
///
/// A wide load's second half has no operands, and no line either.
fn shown_operands(insn: Insn) -> Operands
    ensures { shown_texts result ≡ operands_of insn }
{
    match insn {
        Insn::Alu { dst, operand, .. } => Operands::Two(dst.into(), operand.into()),
        Insn::Unary { dst, .. } => Operands::One(dst.into()),
        Insn::SignExtend {
            extension,
            dst,
            src,
        } => { Operands::Three(dst.into(), src.into(), bits(extension).into()) }
        Insn::LoadWide { dst, value } => Operands::Two(dst.into(), ShownOperand::Wide(value)),
        Insn::Load {
            dst,
            base,
            offset,
            ..
        } => { Operands::Three(dst.into(), base.into(), offset.into()) }
        Insn::StoreImm {
            base,
            offset,
            imm,
            ..
        } => { Operands::Three(base.into(), offset.into(), imm.into()) }
        Insn::Store {
            base,
            offset,
            src,
            ..
        } => { Operands::Three(base.into(), offset.into(), src.into()) }
        Insn::JumpAlways { offset } => Operands::One(offset.into()),
        Insn::JumpAlwaysLong { offset } => Operands::One(offset.into()),
        Insn::JumpIf(jump) => {
            Operands::Three(jump.left.into(), jump.right.into(), jump.offset.into())
        }
        Insn::CallHelper { number } => Operands::One(number.into()),
        Insn::CallLocal { offset } => Operands::One(offset.into()),
        Insn::WideSecond => Operands::Zero,
        Insn::Exit => Operands::Zero,
    }
}
