//! The mnemonics by their names.
ghost use Rattle.std.specs.Prelude.{List, ℕ, ◌≡◌};
ghost use Rattle.std.specs.Str.{bytes_eq};
ghost use Rattle.indexmap.specs.IndexMap.{get_by};
ghost use Rattle.fc_asm.specs.Names.{mnemonic_named};

use crate::mnemonic::Mnemonic;
use fc_isa::{AluOp, ByteOrder, LoadType, Relation, Size, SwapWidth, UnaryOp, Width};
use indexmap::IndexMap;
use std::alloc::{AllocError, Global};

/// The table of mnemonics, by the first word of a line.
#[derive(Drop)]
pub struct Names {
    by_name: IndexMap<&'static str, Mnemonic>,
    ghost complete: { (word : List ℕ) → get_by (λ name. bytes_eq word name.now) by_name ≡ mnemonic_named word },
}

impl Names {
    /// Makes the table of all mnemonics.
    ///
    /// # Errors
    /// Returns `AllocError` if memory can't be allocated.
    pub fn new(alloc: Global) -> Result<Names, AllocError> {
        let mut by_name = IndexMap::new(alloc);
        for (name, mnemonic) in &NAMES {
            by_name.insert(*name, *mnemonic)?;
        }
        Ok(Names { by_name })
    }

    /// Returns the mnemonic with this name, or `None` if no instruction has it.
    pub fn find(&self, word: &str) -> Option<Mnemonic>
        ensures { result ≡ mnemonic_named word.now }
    {
        self.by_name.get(word).copied()
    }
}

static NAMES: [(&'static str, Mnemonic); 84] = [
    ("add64", Mnemonic::Alu(AluOp::Add, Width::W64)),
    ("sub64", Mnemonic::Alu(AluOp::Sub, Width::W64)),
    ("mul64", Mnemonic::Alu(AluOp::Mul, Width::W64)),
    ("div64", Mnemonic::Alu(AluOp::Div, Width::W64)),
    ("or64", Mnemonic::Alu(AluOp::Or, Width::W64)),
    ("and64", Mnemonic::Alu(AluOp::And, Width::W64)),
    ("lsh64", Mnemonic::Alu(AluOp::Lsh, Width::W64)),
    ("rsh64", Mnemonic::Alu(AluOp::Rsh, Width::W64)),
    ("mod64", Mnemonic::Alu(AluOp::Mod, Width::W64)),
    ("xor64", Mnemonic::Alu(AluOp::Xor, Width::W64)),
    ("mov64", Mnemonic::Alu(AluOp::Mov, Width::W64)),
    ("arsh64", Mnemonic::Alu(AluOp::Arsh, Width::W64)),
    ("sdiv64", Mnemonic::Alu(AluOp::Sdiv, Width::W64)),
    ("smod64", Mnemonic::Alu(AluOp::Smod, Width::W64)),
    ("add32", Mnemonic::Alu(AluOp::Add, Width::W32)),
    ("sub32", Mnemonic::Alu(AluOp::Sub, Width::W32)),
    ("mul32", Mnemonic::Alu(AluOp::Mul, Width::W32)),
    ("div32", Mnemonic::Alu(AluOp::Div, Width::W32)),
    ("or32", Mnemonic::Alu(AluOp::Or, Width::W32)),
    ("and32", Mnemonic::Alu(AluOp::And, Width::W32)),
    ("lsh32", Mnemonic::Alu(AluOp::Lsh, Width::W32)),
    ("rsh32", Mnemonic::Alu(AluOp::Rsh, Width::W32)),
    ("mod32", Mnemonic::Alu(AluOp::Mod, Width::W32)),
    ("xor32", Mnemonic::Alu(AluOp::Xor, Width::W32)),
    ("mov32", Mnemonic::Alu(AluOp::Mov, Width::W32)),
    ("arsh32", Mnemonic::Alu(AluOp::Arsh, Width::W32)),
    ("sdiv32", Mnemonic::Alu(AluOp::Sdiv, Width::W32)),
    ("smod32", Mnemonic::Alu(AluOp::Smod, Width::W32)),
    ("neg64", Mnemonic::Unary(UnaryOp::Neg(Width::W64))),
    ("neg32", Mnemonic::Unary(UnaryOp::Neg(Width::W32))),
    ("movsx64", Mnemonic::SignExtend(Width::W64)),
    ("movsx32", Mnemonic::SignExtend(Width::W32)),
    (
        "le16",
        Mnemonic::Unary(UnaryOp::End(ByteOrder::Little, SwapWidth::S16)),
    ),
    (
        "le32",
        Mnemonic::Unary(UnaryOp::End(ByteOrder::Little, SwapWidth::S32)),
    ),
    (
        "le64",
        Mnemonic::Unary(UnaryOp::End(ByteOrder::Little, SwapWidth::S64)),
    ),
    (
        "be16",
        Mnemonic::Unary(UnaryOp::End(ByteOrder::Big, SwapWidth::S16)),
    ),
    (
        "be32",
        Mnemonic::Unary(UnaryOp::End(ByteOrder::Big, SwapWidth::S32)),
    ),
    (
        "be64",
        Mnemonic::Unary(UnaryOp::End(ByteOrder::Big, SwapWidth::S64)),
    ),
    (
        "swap16",
        Mnemonic::Unary(UnaryOp::End(ByteOrder::Swapped, SwapWidth::S16)),
    ),
    (
        "swap32",
        Mnemonic::Unary(UnaryOp::End(ByteOrder::Swapped, SwapWidth::S32)),
    ),
    (
        "swap64",
        Mnemonic::Unary(UnaryOp::End(ByteOrder::Swapped, SwapWidth::S64)),
    ),
    ("lddw", Mnemonic::LoadWide),
    ("ldxb", Mnemonic::Load(LoadType::Unsigned(Size::Byte))),
    ("ldxh", Mnemonic::Load(LoadType::Unsigned(Size::HalfWord))),
    ("ldxw", Mnemonic::Load(LoadType::Unsigned(Size::Word))),
    (
        "ldxdw",
        Mnemonic::Load(LoadType::Unsigned(Size::DoubleWord)),
    ),
    ("ldsxb", Mnemonic::Load(LoadType::SignedByte)),
    ("ldsxh", Mnemonic::Load(LoadType::SignedHalfWord)),
    ("ldsxw", Mnemonic::Load(LoadType::SignedWord)),
    ("stb", Mnemonic::StoreImm(Size::Byte)),
    ("sth", Mnemonic::StoreImm(Size::HalfWord)),
    ("stw", Mnemonic::StoreImm(Size::Word)),
    ("stdw", Mnemonic::StoreImm(Size::DoubleWord)),
    ("stxb", Mnemonic::Store(Size::Byte)),
    ("stxh", Mnemonic::Store(Size::HalfWord)),
    ("stxw", Mnemonic::Store(Size::Word)),
    ("stxdw", Mnemonic::Store(Size::DoubleWord)),
    ("ja", Mnemonic::JumpAlways),
    ("ja32", Mnemonic::JumpAlwaysLong),
    ("jeq", Mnemonic::JumpIf(Relation::Eq, Width::W64)),
    ("jgt", Mnemonic::JumpIf(Relation::Gt, Width::W64)),
    ("jge", Mnemonic::JumpIf(Relation::Ge, Width::W64)),
    ("jset", Mnemonic::JumpIf(Relation::Set, Width::W64)),
    ("jne", Mnemonic::JumpIf(Relation::Ne, Width::W64)),
    ("jsgt", Mnemonic::JumpIf(Relation::Sgt, Width::W64)),
    ("jsge", Mnemonic::JumpIf(Relation::Sge, Width::W64)),
    ("jlt", Mnemonic::JumpIf(Relation::Lt, Width::W64)),
    ("jle", Mnemonic::JumpIf(Relation::Le, Width::W64)),
    ("jslt", Mnemonic::JumpIf(Relation::Slt, Width::W64)),
    ("jsle", Mnemonic::JumpIf(Relation::Sle, Width::W64)),
    ("jeq32", Mnemonic::JumpIf(Relation::Eq, Width::W32)),
    ("jgt32", Mnemonic::JumpIf(Relation::Gt, Width::W32)),
    ("jge32", Mnemonic::JumpIf(Relation::Ge, Width::W32)),
    ("jset32", Mnemonic::JumpIf(Relation::Set, Width::W32)),
    ("jne32", Mnemonic::JumpIf(Relation::Ne, Width::W32)),
    ("jsgt32", Mnemonic::JumpIf(Relation::Sgt, Width::W32)),
    ("jsge32", Mnemonic::JumpIf(Relation::Sge, Width::W32)),
    ("jlt32", Mnemonic::JumpIf(Relation::Lt, Width::W32)),
    ("jle32", Mnemonic::JumpIf(Relation::Le, Width::W32)),
    ("jslt32", Mnemonic::JumpIf(Relation::Slt, Width::W32)),
    ("jsle32", Mnemonic::JumpIf(Relation::Sle, Width::W32)),
    ("call", Mnemonic::CallHelper),
    ("callf", Mnemonic::CallLocal),
    ("exit", Mnemonic::Exit),
];
