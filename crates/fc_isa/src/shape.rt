//! The form of an instruction, and the fields that a form uses.
//!
//! The opcode alone determines the form (RFC 9669, sections 3 to 5).
ghost use Rattle.std.specs.Prelude.{◌≡◌, ◌<◌, ◌≤◌};
ghost use Rattle.fc_isa.specs.Shapes.{alu_uses_offset, used, uses, writes_dst, shape_of, is_register, is_known, is_wide, opcode_of, coded, sized, load_opcode, end_opcode, alu_class, jump_class, alu_code, jump_code, size_bits};

use crate::insn::{AluOp, ByteOrder, LoadType, Relation, Size, Width};
use crate::table::SHAPES;

/// The classes (RFC 9669, section 3.3).
const LD: u8 = 0;

const LDX: u8 = 1;

const ST: u8 = 2;

const STX: u8 = 3;

const ALU: u8 = 4;

const JMP: u8 = 5;

const JMP32: u8 = 6;

const ALU64: u8 = 7;

/// The codes other than those of [`AluOp`] and [`Relation`] (4.1 to 4.3).
const JA: u8 = 0;

const NEG: u8 = 8;

const CALL: u8 = 8;

const EXIT: u8 = 9;

const END: u8 = 13;

/// The modes of loads and stores (5).
const IMM: u8 = 0;

const MEM: u8 = 3;

const MEMSX: u8 = 4;

/// [`SHAPES`], stored once: each place that indexes a constant would copy it.
static FORMS: [Shape; 256] = SHAPES;

/// The source of the second operand (RFC 9669, section 4).
///
/// K is the immediate, and X the source register.
#[derive(Clone, Copy, PartialEq, Eq)]
pub enum SourceOperand {
    K,
    X,
}

/// An opcode's form.
///
/// Other fields of the slot complete the instruction. Signed division is a division with offset 1,
/// and `movsx` is a move of a register with an offset other than 0. A call's source distinguishes a
/// helper from a function of the program.
#[derive(Clone, Copy, PartialEq, Eq)]
pub enum Shape {
    /// No instruction has this opcode.
    Unknown,
    Alu {
        op: AluOp,
        width: Width,
        source: SourceOperand,
    },
    Neg {
        width: Width,
    },
    End {
        order: ByteOrder,
    },
    LoadWide,
    Load {
        loaded: LoadType,
    },
    StoreImm {
        size: Size,
    },
    Store {
        size: Size,
    },
    JumpAlways,
    JumpAlwaysLong,
    JumpIf {
        width: Width,
        relation: Relation,
        source: SourceOperand,
    },
    Call,
    Exit,
}

/// The fields that a slot uses; the other fields are zero.
///
/// The four fields are the destination, the source, the offset and the immediate.
#[derive(Clone, Copy, PartialEq, Eq)]
pub struct Uses {
    pub dst: bool,
    pub src: bool,
    pub offset: bool,
    pub imm: bool,
}

impl Shape {
    /// Returns the form of an opcode, or `Unknown` if no instruction has the opcode.
    #[tactic(none)]
    pub fn of(opcode: u8) -> Self
        ensures { result ≡ shape_of opcode }
    {
        FORMS[opcode as usize]
    }

    /// Returns the opcode of a form, or 255 for `Unknown`.
    pub(crate) fn opcode(self) -> u8
        ensures { result ≡ opcode_of self }
    {
        match self {
            Shape::Alu { op, width, source } => coded(alu_code(op), source, alu_class(width)),
            Shape::Neg { width } => coded(NEG, SourceOperand::K, alu_class(width)),
            Shape::End { order } => end_opcode(order),
            Shape::LoadWide => sized(IMM, Size::DoubleWord, LD),
            Shape::Load { loaded } => load_opcode(loaded),
            Shape::StoreImm { size } => sized(MEM, size, ST),
            Shape::Store { size } => sized(MEM, size, STX),
            Shape::JumpAlways => coded(JA, SourceOperand::K, JMP),
            Shape::JumpAlwaysLong => coded(JA, SourceOperand::K, JMP32),
            Shape::JumpIf {
                width,
                relation,
                source,
            } => { coded(jump_code(relation), source, jump_class(width)) }
            Shape::Call => coded(CALL, SourceOperand::K, JMP),
            Shape::Exit => coded(EXIT, SourceOperand::K, JMP),
            Shape::Unknown => u8::MAX,
        }
    }

    /// Returns whether an instruction has this form: `false` for `Unknown`.
    pub(crate) fn is_known(self) -> bool
        ensures { result ≡ is_known self }
    {
        !matches!(self, Shape::Unknown)
    }

    /// Returns whether an instruction of this form occupies two slots.
    pub(crate) fn is_wide(self) -> bool
        ensures { result ≡ is_wide self }
    {
        matches!(self, Shape::LoadWide)
    }

    /// Returns whether an instruction of this form writes its destination register.
    ///
    /// The destination of such an instruction can't be R10.
    pub(crate) fn writes_dst(self) -> bool
        ensures { result ≡ writes_dst self }
    {
        matches!(
            self,
            Shape::Alu { .. }
                | Shape::Neg { .. }
                | Shape::End { .. }
                | Shape::LoadWide
                | Shape::Load { .. }
        )
    }

    /// Returns the fields that the form uses; `Unknown` uses none.
    ///
    /// The code follows the rows of the instruction table. If the second operand isn't a register,
    /// it is the immediate.
    pub fn uses(self) -> Uses
        ensures { result ≡ uses self }
    {
        match self {
            Shape::Alu { op, source, .. } => used(
                true,
                source.is_register(),
                alu_uses_offset(op, source),
                !source.is_register(),
            ),
            Shape::Neg { .. } => used(true, false, false, false),
            Shape::End { .. } => used(true, false, false, true),
            Shape::JumpAlways => used(false, false, true, false),
            Shape::JumpAlwaysLong => used(false, false, false, true),
            Shape::JumpIf { source, .. } => used(
                true,
                source.is_register(),
                true,
                !source.is_register(),
            ),
            Shape::Call => used(false, true, false, true),
            Shape::Exit | Shape::Unknown => used(false, false, false, false),
            Shape::LoadWide => used(true, false, false, true),
            Shape::Load { .. } | Shape::Store { .. } => used(true, true, true, false),
            Shape::StoreImm { .. } => used(true, false, true, true),
        }
    }
}

/// Returns a row of the table in `uses`: a field is `true` if the form uses it.
fn used(dst: bool, src: bool, offset: bool, imm: bool) -> Uses
    ensures { result ≡ used dst src offset imm }
{
    Uses {
        dst,
        src,
        offset,
        imm,
    }
}

/// Returns whether an arithmetic operation uses the offset.
///
/// Division, modulo and a move of a register use it.
fn alu_uses_offset(op: AluOp, source: SourceOperand) -> bool
    ensures { result ≡ alu_uses_offset op source }
{
    match op {
        AluOp::Div | AluOp::Mod => true,
        AluOp::Mov => source.is_register(),
        _ => false,
    }
}

impl SourceOperand {
    /// Returns whether the operand is the source register.
    pub(crate) fn is_register(self) -> bool
        ensures { result ≡ is_register self }
    {
        matches!(self, SourceOperand::X)
    }
}

/// Returns the opcode with a code, a source and a class (RFC 9669, section 4).
///
/// Arithmetic instructions and jumps have such an opcode.
fn coded(code: u8, source: SourceOperand, class: u8) -> u8
    requires code { code < 16 }
    requires class { class < 8 }
    ensures { result ≡ coded code source class }
{
    match source {
        SourceOperand::K => 16 * code + class,
        SourceOperand::X => 16 * code + 8 + class,
    }
}

/// Returns the opcode with a mode, a size and a class (RFC 9669, section 5).
///
/// Loads and stores have such an opcode.
fn sized(mode: u8, size: Size, class: u8) -> u8
    requires mode { mode < 8 }
    requires class { class < 8 }
    ensures { result ≡ sized mode size class }
{
    32 * mode + size_bits(size) + class
}

/// Returns the bits of an opcode that encode a size (RFC 9669, section 5).
fn size_bits(size: Size) -> u8
    ensures bits { result ≡ size_bits size }
    ensures below { result ≤ 24 }
{
    match size {
        Size::Word => 0,
        Size::HalfWord => 8,
        Size::Byte => 16,
        Size::DoubleWord => 24,
    }
}

fn load_opcode(loaded: LoadType) -> u8
    ensures { result ≡ load_opcode loaded }
{
    match loaded {
        LoadType::Unsigned(size) => sized(MEM, size, LDX),
        LoadType::SignedByte => sized(MEMSX, Size::Byte, LDX),
        LoadType::SignedHalfWord => sized(MEMSX, Size::HalfWord, LDX),
        LoadType::SignedWord => sized(MEMSX, Size::Word, LDX),
    }
}

fn end_opcode(order: ByteOrder) -> u8
    ensures { result ≡ end_opcode order }
{
    match order {
        ByteOrder::Little => coded(END, SourceOperand::K, ALU),
        ByteOrder::Big => coded(END, SourceOperand::X, ALU),
        ByteOrder::Swapped => coded(END, SourceOperand::K, ALU64),
    }
}

fn alu_class(width: Width) -> u8
    ensures class { result ≡ alu_class width }
    ensures below { result < 8 }
{
    match width {
        Width::W32 => ALU,
        Width::W64 => ALU64,
    }
}

fn jump_class(width: Width) -> u8
    ensures class { result ≡ jump_class width }
    ensures below { result < 8 }
{
    match width {
        Width::W32 => JMP32,
        Width::W64 => JMP,
    }
}

/// Returns the code of an operation (RFC 9669, section 4.1).
///
/// Signed division and modulo have the code of the unsigned operation.
fn alu_code(op: AluOp) -> u8
    ensures code { result ≡ alu_code op }
    ensures below { result < 16 }
{
    match op {
        AluOp::Add => 0,
        AluOp::Sub => 1,
        AluOp::Mul => 2,
        AluOp::Div | AluOp::Sdiv => 3,
        AluOp::Or => 4,
        AluOp::And => 5,
        AluOp::Lsh => 6,
        AluOp::Rsh => 7,
        AluOp::Mod | AluOp::Smod => 9,
        AluOp::Xor => 10,
        AluOp::Mov => 11,
        AluOp::Arsh => 12,
    }
}

/// Returns the code of a conditional jump (RFC 9669, section 4.3).
fn jump_code(relation: Relation) -> u8
    ensures code { result ≡ jump_code relation }
    ensures below { result < 16 }
{
    match relation {
        Relation::Eq => 1,
        Relation::Gt => 2,
        Relation::Ge => 3,
        Relation::Set => 4,
        Relation::Ne => 5,
        Relation::Sgt => 6,
        Relation::Sge => 7,
        Relation::Lt => 10,
        Relation::Le => 11,
        Relation::Slt => 12,
        Relation::Sle => 13,
    }
}
