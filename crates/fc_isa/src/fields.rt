//! The fields of a slot: read from its bytes, written to them, and checked.
//!
//! The decoder reads and checks them, and the encoder writes them. A check returns the first rule
//! that the fields break.
ghost use Rattle.std.specs.Prelude.{◌≡◌, ◌<◌, ◌+◌, ◌*◌, ◌/◌, ◌%◌, ◌^◌, None, true, length};
ghost use Rattle.std.specs.Int.{w16, w32, cast_signed, cast_unsigned};
ghost use Rattle.fc_isa.specs.Encoding.{bytes_of_fields, fields, fields_of, insn_of, insn_with, read_fields, second_half, slot_fault, unused_are_zero, values_allowed, is_second_half, alu_values_allowed, arithmetic, move_insn, operand_of, called, sign_offset, signed_by, extended_bits, extended_width, swap_width, swap_bits, source_of, src_of, imm_of, unary_shape, unary_imm};
ghost use Rattle.fc_isa.specs.Shapes.{writes_dst};

use crate::insn::{
    AluOp, Insn, Jump, LoadType, Operand, Reg, Relation, SignExtension, Size, SwapWidth, Target,
    UnaryOp, Width,
};
use crate::rule::Rule;
use crate::shape::{Shape, SourceOperand};
use std::marker::Model;

/// The frame pointer, the greatest register; no instruction may write it.
const FRAME_POINTER: u8 = 10;

/// 2 to the 32, the factor of the high half of a wide load's value.
const WORD: u64 = 1 << 32;

/// The fields of a slot (RFC 9669, section 3.1).
///
/// The offset and the immediate are stored as unsigned numbers with the same bits.
#[derive(Clone, Copy)]
pub(crate) struct Fields {
    opcode: u8,
    dst: u8,
    src: u8,
    offset: u16,
    imm: u32,
}

impl Model for Fields {
    ghost use Rattle.std.specs.Prelude.{◌<◌};
    ghost use Rattle.fc_isa.specs.Encoding.{Fields as Stated};

    ghost Value = { Stated };

    ghost view = { λ f. record { opcode = f.opcode; dst = f.dst; src = f.src; offset = f.offset; imm = f.imm } };

    ghost invariant = { λ f. (f.dst < 16) × (f.src < 16) };

    ghost inverse = { λ f. record { opcode = f.opcode; dst = f.dst; src = f.src; offset = f.offset; imm = f.imm } };
}

impl Fields {
    /// Reads the fields from eight bytes.
    pub(crate) fn read(slot: &[u8]) -> Self
        requires { length slot.now ≡ 8 }
        ensures { result ≡ read_fields slot.now }
    {
        Fields {
            opcode: slot[0],
            dst: slot[1] % 16,
            src: slot[1] / 16,
            offset: u16::from_le_bytes([slot[2], slot[3]]),
            imm: u32::from_le_bytes([slot[4], slot[5], slot[6], slot[7]]),
        }
    }

    /// Returns the fields of an instruction's slot, or of a wide load's first slot.
    ///
    /// All fields of `WideSecond` are zero; the encoder uses `second_half_of` instead.
    pub(crate) fn of(insn: &Insn) -> Self
        ensures { result ≡ fields_of insn.now }
    {
        match *insn {
            Insn::Alu {
                op,
                width,
                dst,
                operand,
            } => Fields::computed(op, width, dst, &operand),
            Insn::Unary { op, dst } => Fields::changed(op, dst),
            Insn::SignExtend {
                extension,
                dst,
                src,
            } => Fields::extended(extension, dst, src),
            Insn::LoadWide { dst, value } => Fields::loaded_wide(dst, value),
            Insn::WideSecond => Fields::zeros(),
            Insn::Load {
                loaded,
                dst,
                base,
                offset,
            } => Fields::form(Shape::Load { loaded }).between(dst.number(), base.number(), offset),
            Insn::StoreImm {
                size,
                base,
                offset,
                imm,
            } => Fields::stored_imm(size, base, offset, imm),
            Insn::Store {
                size,
                base,
                offset,
                src,
            } => Fields::form(Shape::Store { size }).between(base.number(), src.number(), offset),
            Insn::JumpAlways { offset } => Fields::form(Shape::JumpAlways).offset(
                offset.cast_unsigned(),
            ),
            Insn::JumpAlwaysLong { offset } => Fields::form(Shape::JumpAlwaysLong).signed_imm(
                offset,
            ),
            Insn::JumpIf(jump) => Fields::compared(&jump),
            Insn::CallHelper { number } => Fields::form(Shape::Call).signed_imm(number),
            Insn::CallLocal { offset } => Fields::form(Shape::Call).src(1).signed_imm(offset),
            Insn::Exit => Fields::form(Shape::Exit),
        }
    }

    /// Returns the fields of an arithmetic instruction.
    fn computed(op: AluOp, width: Width, dst: Target, operand: &Operand) -> Self
        ensures { result ≡ fields_of (Insn.Alu op width dst operand.now) }
    {
        let source = source_of(operand);
        Fields::form(Shape::Alu { op, width, source })
            .dst(dst.number())
            .src(src_of(operand))
            .offset(sign_offset(op))
            .imm(imm_of(operand))
    }

    /// Returns the fields of a move with sign extension.
    fn extended(extension: SignExtension, dst: Target, src: Reg) -> Self
        ensures { result ≡ fields_of (Insn.SignExtend extension dst src) }
    {
        Fields::form(moving(extension))
            .dst(dst.number())
            .src(src.number())
            .offset(extended_bits(extension))
    }

    /// Returns the fields of an operation on one register.
    fn changed(op: UnaryOp, dst: Target) -> Self
        ensures { result ≡ fields_of (Insn.Unary op dst) }
    {
        Fields::form(unary_shape(op))
            .dst(dst.number())
            .imm(unary_imm(op))
    }

    /// Returns the fields of a wide load's first slot.
    fn loaded_wide(dst: Target, value: u64) -> Self
        ensures { result ≡ fields_of (Insn.LoadWide dst value) }
    {
        Fields::form(Shape::LoadWide)
            .dst(dst.number())
            .imm(low_half(value))
    }

    /// Returns the fields of a store of an immediate.
    fn stored_imm(size: Size, base: Reg, offset: i16, imm: i32) -> Self
        ensures { result ≡ fields_of (Insn.StoreImm size base offset imm) }
    {
        Fields::form(Shape::StoreImm { size })
            .between(base.number(), 0, offset)
            .signed_imm(imm)
    }

    /// Returns the fields of a conditional jump.
    fn compared(jump: &Jump) -> Self
        ensures { result ≡ fields_of (Insn.JumpIf jump.now) }
    {
        let shape = Shape::JumpIf {
            width: jump.width,
            relation: jump.relation,
            source: source_of(&jump.right),
        };
        Fields::form(shape)
            .dst(jump.left.number())
            .src(src_of(&jump.right))
            .offset(jump.offset.cast_unsigned())
            .imm(imm_of(&jump.right))
    }

    /// Returns fields with a form's opcode, and zeros in the other fields.
    fn form(shape: Shape) -> Self
        ensures { result ≡ fields shape 0 0 0 0 }
    {
        Fields {
            opcode: shape.opcode(),
            ..Fields::zeros()
        }
    }

    /// Returns fields that are all zero; `form` sets the opcode in them.
    fn zeros() -> Self
        ensures { result ≡ fields_of Insn.WideSecond }
    {
        Fields {
            opcode: 0,
            dst: 0,
            src: 0,
            offset: 0,
            imm: 0,
        }
    }

    /// Returns these fields with the registers and the offset of a load or store.
    fn between(self, dst: u8, src: u8, offset: i16) -> Self
        requires dst { dst < 16 }
        requires src { src < 16 }
        ensures { result ≡ record self { dst = dst; src = src; offset = cast_unsigned w16 offset } }
    {
        self.dst(dst).src(src).offset(offset.cast_unsigned())
    }

    /// Returns these fields with the signed immediate `imm`.
    fn signed_imm(self, imm: i32) -> Self
        ensures { result ≡ record self { imm = cast_unsigned w32 imm } }
    {
        self.imm(imm.cast_unsigned())
    }

    /// Returns these fields with the destination register `dst`.
    fn dst(self, dst: u8) -> Self
        requires { dst < 16 }
        ensures { result ≡ record self { dst = dst } }
    {
        Fields { dst, ..self }
    }

    /// Returns these fields with the source register `src`.
    fn src(self, src: u8) -> Self
        requires { src < 16 }
        ensures { result ≡ record self { src = src } }
    {
        Fields { src, ..self }
    }

    /// Returns these fields with the offset whose bits are `offset`.
    fn offset(self, offset: u16) -> Self
        ensures { result ≡ record self { offset = offset } }
    {
        Fields { offset, ..self }
    }

    /// Returns these fields with the immediate whose bits are `imm`.
    fn imm(self, imm: u32) -> Self
        ensures { result ≡ record self { imm = imm } }
    {
        Fields { imm, ..self }
    }

    /// Returns the fields of the second slot of the wide load of this value.
    ///
    /// The high half of the value is the immediate, and the other fields are zero.
    pub(crate) fn second_half_of(value: u64) -> Self
        ensures { result ≡ second_half (value / 2 ^ 32) }
    {
        Fields::zeros().imm((value / WORD) as u32)
    }

    /// Returns the slot's bytes.
    pub(crate) fn bytes(self) -> [u8; 8]
        ensures { result ≡ bytes_of_fields self }
    {
        let offset = self.offset.to_le_bytes();
        let imm = self.imm.to_le_bytes();
        [
            self.opcode,
            16 * self.src + self.dst,
            offset[0],
            offset[1],
            imm[0],
            imm[1],
            imm[2],
            imm[3],
        ]
    }

    /// Returns the instruction that fields without a fault encode.
    ///
    /// `next` has the fields of the following slot. Only a wide load uses them.
    pub(crate) fn insn(self, next: &Option<Self>) -> Insn
        requires { slot_fault self next.now ≡ None }
        ensures { result ≡ insn_of self next.now }
    {
        let high = match next {
            Some(half) => half.imm,
            None => 0,
        };
        self.with_shape(Shape::of(self.opcode), high)
    }

    /// Returns the instruction of a form with these fields.
    ///
    /// `high` is the immediate of the next slot; only a wide load uses it. `Unknown`, which the
    /// checks refuse, gives `Exit`.
    fn with_shape(self, shape: Shape, high: u32) -> Insn
        requires dst { self.dst < 11 }
        requires src { self.src < 11 }
        requires target { writes_dst shape ≡ true → self.dst < 10 }
        ensures { result ≡ insn_with shape self high }
    {
        match shape {
            Shape::Alu { op, width, source } => self.arithmetic(op, width, source),
            Shape::Neg { width } => self.unary(UnaryOp::Neg(width)),
            Shape::End { order } => self.unary(UnaryOp::End(order, swap_width(self.imm))),
            Shape::LoadWide => self.load_wide(high),
            Shape::Load { loaded } => self.load(loaded),
            Shape::StoreImm { size } => self.store_imm(size),
            Shape::Store { size } => self.store(size),
            Shape::JumpAlways => self.jump_always(),
            Shape::JumpAlwaysLong => self.jump_always_long(),
            Shape::JumpIf {
                width,
                relation,
                source,
            } => self.jump_if(width, relation, source),
            Shape::Call => self.called(),
            Shape::Exit | Shape::Unknown => Insn::Exit,
        }
    }

    /// Returns the arithmetic instruction with these fields.
    ///
    /// With an offset other than 0, a division or modulo is signed, and a move of a register
    /// sign-extends.
    fn arithmetic(self, op: AluOp, width: Width, source: SourceOperand) -> Insn
        requires target { self.dst < 10 }
        requires src { self.src < 11 }
        ensures { result ≡ arithmetic op width source self }
    {
        match (op, source) {
            (AluOp::Mov, SourceOperand::X) => self.move_of(width),
            _ => Insn::Alu {
                op: signed_by(self.offset, op),
                width,
                dst: Target::new(self.dst),
                operand: self.operand(source),
            },
        }
    }

    /// Returns the move of a register.
    ///
    /// With offset 0 it is a plain move. Otherwise the offset is the number of low bits that the
    /// move sign-extends.
    fn move_of(self, width: Width) -> Insn
        requires target { self.dst < 10 }
        requires src { self.src < 11 }
        ensures { result ≡ move_insn width self }
    {
        let (dst, src) = (Target::new(self.dst), Reg::new(self.src));
        let extension = match self.offset {
            0 => return Insn::Alu {
                op: AluOp::Mov,
                width,
                dst,
                operand: Operand::Reg(src),
            },
            8 => SignExtension::Byte(width),
            16 => SignExtension::HalfWord(width),
            _ => SignExtension::Word,
        };
        Insn::SignExtend {
            extension,
            dst,
            src,
        }
    }

    /// Returns the second operand: the immediate, or the source register.
    fn operand(self, source: SourceOperand) -> Operand
        requires { self.src < 11 }
        ensures { result ≡ operand_of source self }
    {
        match source {
            SourceOperand::K => Operand::Imm(self.imm.cast_signed()),
            SourceOperand::X => Operand::Reg(Reg::new(self.src)),
        }
    }

    /// Returns the operation `op` on the destination.
    fn unary(self, op: UnaryOp) -> Insn
        requires { self.dst < 10 }
        ensures { result ≡ Insn.Unary op self.dst }
    {
        let dst = Target::new(self.dst);
        Insn::Unary { op, dst }
    }

    /// Returns the wide load.
    ///
    /// Its value has the immediate as the low half, and `high` as the high half.
    fn load_wide(self, high: u32) -> Insn
        requires { self.dst < 10 }
        ensures { result ≡ Insn.LoadWide self.dst (high * 2 ^ 32 + self.imm) }
    {
        let dst = Target::new(self.dst);
        let value = high as u64 * WORD + self.imm as u64;
        Insn::LoadWide { dst, value }
    }

    /// Returns the load from the source register's address plus the offset.
    fn load(self, loaded: LoadType) -> Insn
        requires target { self.dst < 10 }
        requires src { self.src < 11 }
        ensures { result ≡ Insn.Load loaded self.dst self.src (cast_signed w16 self.offset) }
    {
        Insn::Load {
            loaded,
            dst: Target::new(self.dst),
            base: Reg::new(self.src),
            offset: self.offset.cast_signed(),
        }
    }

    /// Returns the store of the immediate.
    ///
    /// Its address is the destination register plus the offset.
    fn store_imm(self, size: Size) -> Insn
        requires { self.dst < 11 }
        ensures { result ≡ Insn.StoreImm size self.dst (cast_signed w16 self.offset) (cast_signed w32 self.imm) }
    {
        Insn::StoreImm {
            size,
            base: Reg::new(self.dst),
            offset: self.offset.cast_signed(),
            imm: self.imm.cast_signed(),
        }
    }

    /// Returns the store of the source register.
    ///
    /// Its address is the destination register plus the offset.
    fn store(self, size: Size) -> Insn
        requires dst { self.dst < 11 }
        requires src { self.src < 11 }
        ensures { result ≡ Insn.Store size self.dst (cast_signed w16 self.offset) self.src }
    {
        Insn::Store {
            size,
            base: Reg::new(self.dst),
            offset: self.offset.cast_signed(),
            src: Reg::new(self.src),
        }
    }

    /// Returns the unconditional jump by the offset.
    fn jump_always(self) -> Insn
        ensures { result ≡ Insn.JumpAlways (cast_signed w16 self.offset) }
    {
        let offset = self.offset.cast_signed();
        Insn::JumpAlways { offset }
    }

    /// Returns the unconditional jump by the immediate.
    fn jump_always_long(self) -> Insn
        ensures { result ≡ Insn.JumpAlwaysLong (cast_signed w32 self.imm) }
    {
        let offset = self.imm.cast_signed();
        Insn::JumpAlwaysLong { offset }
    }

    /// Returns the conditional jump.
    ///
    /// The jump compares the destination register with the immediate or the source register;
    /// `source` says with which.
    fn jump_if(self, width: Width, relation: Relation, source: SourceOperand) -> Insn
        requires dst { self.dst < 11 }
        requires src { self.src < 11 }
        ensures { result ≡ insn_with (Shape.JumpIf width relation source) self 0 }
    {
        Insn::JumpIf(Jump {
            width,
            relation,
            left: Reg::new(self.dst),
            right: self.operand(source),
            offset: self.offset.cast_signed(),
        })
    }

    /// Returns a call of a helper, or of a local function if the source isn't zero.
    fn called(self) -> Insn
        ensures { result ≡ called self }
    {
        let imm = self.imm.cast_signed();
        if self.src == 0 {
            Insn::CallHelper { number: imm }
        } else {
            Insn::CallLocal { offset: imm }
        }
    }

    /// Returns the least rule that the fields break, or `None` if they break none.
    ///
    /// `next` has the fields of the following slot, or is `None` if no whole slot follows.
    pub(crate) fn fault(self, next: &Option<Self>) -> Option<Rule>
        ensures { result ≡ slot_fault self next.now }
    {
        let shape = Shape::of(self.opcode);
        if !shape.is_known() {
            Some(Rule::Opcode)
        } else if self.dst > FRAME_POINTER || self.src > FRAME_POINTER {
            Some(Rule::Register)
        } else if shape.writes_dst() && self.dst == FRAME_POINTER {
            Some(Rule::FramePointer)
        } else if !(self.unused_are_zero(shape) && self.values_are_allowed(shape)) {
            Some(Rule::Field)
        } else if shape.is_wide() && !is_second_half(next) {
            Some(Rule::WideLoad)
        } else {
            None
        }
    }

    /// Returns whether the fields that the form doesn't use are zero.
    fn unused_are_zero(self, shape: Shape) -> bool
        ensures { result ≡ unused_are_zero shape self }
    {
        let uses = shape.uses();
        (uses.dst || self.dst == 0)
            && (uses.src || self.src == 0)
            && (uses.offset || self.offset == 0)
            && (uses.imm || self.imm == 0)
    }

    /// Returns whether the fields that the form uses have allowed values.
    fn values_are_allowed(self, shape: Shape) -> bool
        ensures { result ≡ values_allowed shape self }
    {
        match shape {
            Shape::Alu { op, width, source } => self.is_alu_offset(op, width, source),
            Shape::End { .. } => self.imm == 16 || self.imm == 32 || self.imm == 64,
            Shape::Call => self.src == 0 || self.src == 1,
            _ => true,
        }
    }

    /// Returns whether the operation allows the offset, if it uses the offset.
    ///
    /// Returns `true` for an operation that doesn't use the offset: `unused_are_zero` checks that
    /// offset.
    fn is_alu_offset(self, op: AluOp, width: Width, source: SourceOperand) -> bool
        ensures { result ≡ alu_values_allowed op width source self.offset }
    {
        let offset = self.offset;
        match (op, source, width) {
            (AluOp::Div | AluOp::Mod, _, _) => offset == 0 || offset == 1,
            (AluOp::Mov, SourceOperand::X, Width::W32) => offset == 0
                || offset == 8
                || offset == 16,
            (AluOp::Mov, SourceOperand::X, Width::W64) => {
                offset == 0 || offset == 8 || offset == 16 || offset == 32
            }
            _ => true,
        }
    }
}

/// Returns the operation that the opcode's operation and the offset select.
///
/// A division or modulo is signed if the offset isn't zero. Any other operation stays `op`.
fn signed_by(offset: u16, op: AluOp) -> AluOp
    ensures { result ≡ signed_by offset op }
{
    match op {
        AluOp::Div if offset != 0 => AluOp::Sdiv,
        AluOp::Mod if offset != 0 => AluOp::Smod,
        _ => op,
    }
}

/// Returns the offset of the operation: 1 for signed division and modulo, else 0.
fn sign_offset(op: AluOp) -> u16
    ensures { result ≡ sign_offset op }
{
    match op {
        AluOp::Sdiv | AluOp::Smod => 1,
        _ => 0,
    }
}

/// Returns the form of a move with sign extension.
fn moving(extension: SignExtension) -> Shape
    ensures { result ≡ Shape.Alu AluOp.Mov (extended_width extension) SourceOperand.X }
{
    Shape::Alu {
        op: AluOp::Mov,
        width: extended_width(extension),
        source: SourceOperand::X,
    }
}

/// Returns the width of a move with sign extension.
fn extended_width(extension: SignExtension) -> Width
    ensures { result ≡ extended_width extension }
{
    match extension {
        SignExtension::Byte(width) | SignExtension::HalfWord(width) => width,
        SignExtension::Word => Width::W64,
    }
}

/// Returns the offset of a move with sign extension: the number of bits.
fn extended_bits(extension: SignExtension) -> u16
    ensures { result ≡ extended_bits extension }
{
    match extension {
        SignExtension::Byte(_) => 8,
        SignExtension::HalfWord(_) => 16,
        SignExtension::Word => 32,
    }
}

/// Returns the width of a byte-order change with this immediate.
///
/// Any immediate other than 16 and 32 gives 64 bits; the checks refuse any such immediate except
/// 64.
fn swap_width(imm: u32) -> SwapWidth
    ensures { result ≡ swap_width imm }
{
    match imm {
        16 => SwapWidth::S16,
        32 => SwapWidth::S32,
        _ => SwapWidth::S64,
    }
}

/// Returns the immediate of a byte-order change of this width.
fn swap_bits(width: SwapWidth) -> u32
    ensures { result ≡ swap_bits width }
{
    match width {
        SwapWidth::S16 => 16,
        SwapWidth::S32 => 32,
        SwapWidth::S64 => 64,
    }
}

/// Returns the form of an operation on one register.
fn unary_shape(op: UnaryOp) -> Shape
    ensures { result ≡ unary_shape op }
{
    match op {
        UnaryOp::Neg(width) => Shape::Neg { width },
        UnaryOp::End(order, _) => Shape::End { order },
    }
}

/// Returns the immediate of an operation on one register: 0, or the bits of a byte-order change.
fn unary_imm(op: UnaryOp) -> u32
    ensures { result ≡ unary_imm op }
{
    match op {
        UnaryOp::End(_, width) => swap_bits(width),
        UnaryOp::Neg(_) => 0,
    }
}

/// Returns the source bit for an operand: `K` for an immediate, `X` for a register.
fn source_of(operand: &Operand) -> SourceOperand
    ensures { result ≡ source_of operand.now }
{
    match operand {
        Operand::Imm(_) => SourceOperand::K,
        Operand::Reg(_) => SourceOperand::X,
    }
}

/// Returns the source register of an operand, or 0 for an immediate.
fn src_of(operand: &Operand) -> u8
    ensures src { result ≡ src_of operand.now }
    ensures below { result < 16 }
{
    match operand {
        Operand::Imm(_) => 0,
        Operand::Reg(src) => src.number(),
    }
}

/// Returns the immediate of an operand, or 0 for a register.
fn imm_of(operand: &Operand) -> u32
    ensures { result ≡ imm_of operand.now }
{
    match operand {
        Operand::Imm(imm) => imm.cast_unsigned(),
        Operand::Reg(_) => 0,
    }
}

fn low_half(value: u64) -> u32
    ensures { result ≡ value % 2 ^ 32 }
{
    (value % WORD) as u32
}

/// Returns whether the slot after a wide load is its second half.
///
/// Returns `false` for `None`, or if a field other than the immediate isn't zero.
fn is_second_half(next: &Option<Fields>) -> bool
    ensures { result ≡ is_second_half next.now }
{
    match next {
        Some(half) => half.opcode == 0 && half.dst == 0 && half.src == 0 && half.offset == 0,
        None => false,
    }
}
