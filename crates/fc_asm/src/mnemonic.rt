//! The names of instructions.
ghost use Rattle.std.specs.Prelude.{◌++◌, ◌≡◌};
ghost use Rattle.fc_asm.specs.Names.{alu_name, load_name, name_of, order_name, relation_name, size_name, swap_digits, width_digits};

use fc_isa::{AluOp, ByteOrder, LoadType, Relation, Size, SwapWidth, UnaryOp, Width};
use std::fmt;

/// A mnemonic, the first word of a line: an instruction without its operands.
///
/// A mnemonic prints as that word.
#[derive(Clone, Copy)]
pub enum Mnemonic {
    /// `add64` and similar mnemonics.
    Alu(AluOp, Width),
    /// `neg64`, `be32` and similar mnemonics.
    Unary(UnaryOp),
    /// `movsx64`, `movsx32`.
    SignExtend(Width),
    /// `lddw`.
    LoadWide,
    /// `ldxw`, `ldsxw` and similar mnemonics.
    Load(LoadType),
    /// `stw` and similar mnemonics.
    StoreImm(Size),
    /// `stxw` and similar mnemonics.
    Store(Size),
    /// `ja`.
    JumpAlways,
    /// `ja32`.
    JumpAlwaysLong,
    /// `jgt`, `jgt32` and similar mnemonics.
    JumpIf(Relation, Width),
    /// `call`.
    CallHelper,
    /// `callf`.
    CallLocal,
    /// `exit`.
    Exit,
}

impl fmt::Display for Mnemonic {
    ghost use Rattle.std.specs.Prelude.{Some};
    ghost use Rattle.fc_asm.specs.Names.{name_of};

    ghost output = { λ m. Some (name_of m) };

    fn fmt<W: fmt::Write>(&self, f: &mut fmt::Formatter<W>) -> fmt::Result {
        let (stem, suffix) = parts(*self);
        write!(f, "{stem}{suffix}")
    }
}

/// Returns the word of a mnemonic as a stem and a suffix, for `Display`.
fn parts(mnemonic: Mnemonic) -> (&'static str, &'static str)
    ensures { result.0.now ++ result.1.now ≡ name_of mnemonic }
{
    match mnemonic {
        Mnemonic::Alu(op, width) => (alu_name(op), width_digits(width)),
        Mnemonic::Unary(UnaryOp::Neg(width)) => ("neg", width_digits(width)),
        Mnemonic::Unary(UnaryOp::End(order, width)) => (order_name(order), swap_digits(width)),
        Mnemonic::SignExtend(width) => ("movsx", width_digits(width)),
        Mnemonic::LoadWide => ("lddw", ""),
        Mnemonic::Load(loaded) => (load_name(loaded), ""),
        Mnemonic::StoreImm(size) => ("st", size_name(size)),
        Mnemonic::Store(size) => ("stx", size_name(size)),
        Mnemonic::JumpAlways => ("ja", ""),
        Mnemonic::JumpAlwaysLong => ("ja32", ""),
        Mnemonic::JumpIf(relation, Width::W64) => (relation_name(relation), ""),
        Mnemonic::JumpIf(relation, Width::W32) => (relation_name(relation), "32"),
        Mnemonic::CallHelper => ("call", ""),
        Mnemonic::CallLocal => ("callf", ""),
        Mnemonic::Exit => ("exit", ""),
    }
}

fn alu_name(op: AluOp) -> &'static str
    ensures { result.now ≡ alu_name op }
{
    match op {
        AluOp::Add => "add",
        AluOp::Sub => "sub",
        AluOp::Mul => "mul",
        AluOp::Div => "div",
        AluOp::Or => "or",
        AluOp::And => "and",
        AluOp::Lsh => "lsh",
        AluOp::Rsh => "rsh",
        AluOp::Mod => "mod",
        AluOp::Xor => "xor",
        AluOp::Mov => "mov",
        AluOp::Arsh => "arsh",
        AluOp::Sdiv => "sdiv",
        AluOp::Smod => "smod",
    }
}

fn width_digits(width: Width) -> &'static str
    ensures { result.now ≡ width_digits width }
{
    match width {
        Width::W32 => "32",
        Width::W64 => "64",
    }
}

fn order_name(order: ByteOrder) -> &'static str
    ensures { result.now ≡ order_name order }
{
    match order {
        ByteOrder::Little => "le",
        ByteOrder::Big => "be",
        ByteOrder::Swapped => "swap",
    }
}

fn swap_digits(width: SwapWidth) -> &'static str
    ensures { result.now ≡ swap_digits width }
{
    match width {
        SwapWidth::S16 => "16",
        SwapWidth::S32 => "32",
        SwapWidth::S64 => "64",
    }
}

fn size_name(size: Size) -> &'static str
    ensures { result.now ≡ size_name size }
{
    match size {
        Size::Byte => "b",
        Size::HalfWord => "h",
        Size::Word => "w",
        Size::DoubleWord => "dw",
    }
}

fn load_name(loaded: LoadType) -> &'static str
    ensures { result.now ≡ load_name loaded }
{
    match loaded {
        LoadType::Unsigned(Size::Byte) => "ldxb",
        LoadType::Unsigned(Size::HalfWord) => "ldxh",
        LoadType::Unsigned(Size::Word) => "ldxw",
        LoadType::Unsigned(Size::DoubleWord) => "ldxdw",
        LoadType::SignedByte => "ldsxb",
        LoadType::SignedHalfWord => "ldsxh",
        LoadType::SignedWord => "ldsxw",
    }
}

fn relation_name(relation: Relation) -> &'static str
    ensures { result.now ≡ relation_name relation }
{
    match relation {
        Relation::Eq => "jeq",
        Relation::Gt => "jgt",
        Relation::Ge => "jge",
        Relation::Set => "jset",
        Relation::Ne => "jne",
        Relation::Sgt => "jsgt",
        Relation::Sge => "jsge",
        Relation::Lt => "jlt",
        Relation::Le => "jle",
        Relation::Slt => "jslt",
        Relation::Sle => "jsle",
    }
}
