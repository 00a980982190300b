//! Instructions and their parts (RFC 9669, sections 4 and 5).
ghost use Rattle.std.specs.Prelude.{◌≡◌, ◌<◌, ℕ};

use std::marker::Model;

/// A register, R0 to R10. In contracts a register is its number.
#[derive(Clone, Copy, PartialEq, Eq)]
pub struct Reg {
    number: u8,
}

impl Model for Reg {
    ghost Value = { ℕ };

    ghost view = { λ r. r.number };

    ghost invariant = { λ r. r.number < 11 };

    ghost inverse = { λ n. record { number = n } };
}

impl Reg {
    /// Makes the register with this number.
    #[inline(always)]
    pub fn new(number: u8) -> Self
        requires { number < 11 }
        ensures { result ≡ number }
    {
        Reg { number }
    }

    /// Returns the register's number as an index into an array of eleven registers.
    #[inline(always)]
    pub fn index(self) -> usize
        ensures number { result ≡ self }
        ensures below { result < 11 }
    {
        self.number as usize
    }

    /// Returns the register's number.
    #[inline(always)]
    pub fn number(self) -> u8
        ensures number { result ≡ self }
        ensures below { result < 11 }
    {
        self.number
    }
}

/// A writable register, R0 to R9. In contracts a register is its number.
#[derive(Clone, Copy, PartialEq, Eq)]
pub struct Target {
    number: u8,
}

impl Model for Target {
    ghost Value = { ℕ };

    ghost view = { λ t. t.number };

    ghost invariant = { λ t. t.number < 10 };

    ghost inverse = { λ n. record { number = n } };
}

impl Target {
    /// Makes the register with this number.
    #[inline(always)]
    pub fn new(number: u8) -> Self
        requires { number < 10 }
        ensures { result ≡ number }
    {
        Target { number }
    }

    /// Returns the register's number as an index into an array of eleven registers.
    #[inline(always)]
    pub fn index(self) -> usize
        ensures number { result ≡ self }
        ensures below { result < 10 }
    {
        self.number as usize
    }

    /// Returns the register's number.
    #[inline(always)]
    pub fn number(self) -> u8
        ensures number { result ≡ self }
        ensures below { result < 10 }
    {
        self.number
    }
}

/// The width of an operation: the low half of a register, or all of it.
#[derive(Clone, Copy, Debug, PartialEq, Eq)]
pub enum Width {
    W32,
    W64,
}

/// The second operand: an immediate, or a register.
#[derive(Clone, Copy, PartialEq, Eq)]
pub enum Operand {
    Imm(i32),
    Reg(Reg),
}

/// An arithmetic operation with two operands (RFC 9669, section 4.1).
#[derive(Clone, Copy, Debug, PartialEq, Eq)]
pub enum AluOp {
    Add,
    Sub,
    Mul,
    Div,
    Or,
    And,
    Lsh,
    Rsh,
    Mod,
    Xor,
    Mov,
    Arsh,
    Sdiv,
    Smod,
}

/// An operation on one register (RFC 9669, sections 4.1 and 4.2).
///
/// The destination register is the only operand.
#[derive(Clone, Copy, Debug, PartialEq, Eq)]
pub enum UnaryOp {
    /// `neg64` and `neg32`.
    Neg(Width),
    /// `le16`, `be32`, `swap64` and similar instructions.
    End(ByteOrder, SwapWidth),
}

/// The source width of `movsx`, and the width to which the source is extended.
///
/// A word is extended to 64 bits only.
#[derive(Clone, Copy, Debug, PartialEq, Eq)]
pub enum SignExtension {
    Byte(Width),
    HalfWord(Width),
    Word,
}

/// The byte order that `end` gives a number (RFC 9669, section 4.2).
///
/// The host is little-endian.
#[derive(Clone, Copy, Debug, PartialEq, Eq)]
pub enum ByteOrder {
    Little,
    Big,
    Swapped,
}

/// The number of low bits that a byte-order change keeps.
#[derive(Clone, Copy, Debug, PartialEq, Eq)]
pub enum SwapWidth {
    S16,
    S32,
    S64,
}

/// The number of bytes that a store writes: 1, 2, 4 or 8.
#[derive(Clone, Copy, PartialEq, Eq)]
pub enum Size {
    Byte,
    HalfWord,
    Word,
    DoubleWord,
}

/// The number of bytes that a load reads, and whether they are sign-extended.
#[derive(Clone, Copy, PartialEq, Eq)]
pub enum LoadType {
    Unsigned(Size),
    SignedByte,
    SignedHalfWord,
    SignedWord,
}

/// The relation that a conditional jump tests (RFC 9669, section 4.3).
#[derive(Clone, Copy, Debug, PartialEq, Eq)]
pub enum Relation {
    /// Equal.
    Eq,
    /// Above, unsigned.
    Gt,
    /// Above or equal, unsigned.
    Ge,
    /// The operands have a bit in common.
    Set,
    /// Not equal.
    Ne,
    /// Above, signed.
    Sgt,
    /// Above or equal, signed.
    Sge,
    /// Below, unsigned.
    Lt,
    /// Below or equal, unsigned.
    Le,
    /// Below, signed.
    Slt,
    /// Below or equal, signed.
    Sle,
}

/// A conditional jump; the offset counts slots from the slot after the jump.
#[derive(Clone, Copy, PartialEq, Eq)]
pub struct Jump {
    pub width: Width,
    pub relation: Relation,
    pub left: Reg,
    pub right: Operand,
    pub offset: i16,
}

/// The contents of a slot: an instruction, or the second half of a wide load.
#[derive(Clone, Copy, PartialEq, Eq)]
pub enum Insn {
    /// `add64 dst, operand` and similar instructions.
    Alu {
        op: AluOp,
        width: Width,
        dst: Target,
        operand: Operand,
    },
    /// `neg64 dst`, `be32 dst` and similar instructions.
    Unary {
        op: UnaryOp,
        dst: Target,
    },
    /// `movsx64 dst, src, 8`.
    SignExtend {
        extension: SignExtension,
        dst: Target,
        src: Reg,
    },
    /// `lddw dst, value`, which occupies two slots.
    LoadWide {
        dst: Target,
        value: u64,
    },
    /// The second half of the wide load in the slot before.
    WideSecond,
    /// `ldxw dst, base, offset`, `ldsxw dst, base, offset`.
    Load {
        loaded: LoadType,
        dst: Target,
        base: Reg,
        offset: i16,
    },
    /// `stw base, offset, imm`.
    StoreImm {
        size: Size,
        base: Reg,
        offset: i16,
        imm: i32,
    },
    /// `stxw base, offset, src`.
    Store {
        size: Size,
        base: Reg,
        offset: i16,
        src: Reg,
    },
    /// `ja offset`.
    JumpAlways {
        offset: i16,
    },
    /// `ja32 offset`.
    JumpAlwaysLong {
        offset: i32,
    },
    /// `jgt left, right, offset` and similar instructions.
    JumpIf(Jump),
    /// `call number`: calls a helper.
    CallHelper {
        number: i32,
    },
    /// `callf offset`: calls a function of the program.
    CallLocal {
        offset: i32,
    },
    /// `exit`.
    Exit,
}
