//! Results of each operation and comparison, at both widths.
//!
//! The rows were worked out from the standard's words and this profile's choices, not from the
//! definitions.
ghost use Rattle.std.specs.Prelude.{true, ◌≡◌, ◌≤◌};
ghost use Rattle.fc_alu.specs.Instructions.{is_computation};

use fc_alu::{alu, truth};
use fc_isa::{
    AluOp, ByteOrder, Insn, Jump, Operand, Reg, Relation, SignExtension, SwapWidth, Target,
    UnaryOp, Width,
};

const MANY: u64 = 0xfedc_ba98_7654_3210;

const MASK: u64 = 0x0f0f_0f0f_0f0f_0f0f;

const WIDE: u64 = 0x7_0000_0003;

const ALL: u64 = 0xffff_ffff_ffff_ffff;

fn operation(op: AluOp, width: Width) -> Insn
    ensures { is_computation result ≡ true }
{
    Insn::Alu {
        op,
        width,
        dst: Target::new(0),
        operand: Operand::Reg(Reg::new(1)),
    }
}

fn jump(relation: Relation, width: Width) -> Jump {
    Jump {
        width,
        relation,
        left: Reg::new(0),
        right: Operand::Reg(Reg::new(1)),
        offset: 0,
    }
}

/// An operation, two operands, and the results at 32 bits and at 64 bits.
static OPERATIONS: [(AluOp, u64, u64, u64, u64); 27] = [
    // Sums and products wrap; the upper half is zero at 32 bits.
    (
        AluOp::Add,
        MANY,
        0xffff_ffff_89ab_cdf1,
        1,
        0xfedc_ba98_0000_0001,
    ),
    (AluOp::Sub, 3, 5, 0xffff_fffe, 0xffff_ffff_ffff_fffe),
    (
        AluOp::Mul,
        0x1234_5678_90ab_cdef,
        WIDE,
        0xb203_69cd,
        0x2b4f_a4f2_b203_69cd,
    ),
    (AluOp::Mov, 7, MANY, 0x7654_3210, MANY),
    // A quotient by zero is 0, and a remainder by zero is the dividend. Signed quotients truncate
    // toward zero. The quotient of the least number and -1 is the least number.
    (AluOp::Div, MANY, WIDE, 0x2771_6605, 0x2468_acf1),
    (AluOp::Div, MANY, 0, 0, 0),
    (AluOp::Mod, MANY, WIDE, 1, 0x1_091a_2b3d),
    (AluOp::Mod, MANY, 0, 0x7654_3210, MANY),
    (
        AluOp::Sdiv,
        0xffff_fffe_ffff_fff9,
        2,
        0xffff_fffd,
        0xffff_ffff_7fff_fffd,
    ),
    (AluOp::Sdiv, MANY, 0, 0, 0),
    (
        AluOp::Sdiv,
        0x8000_0000,
        ALL,
        0x8000_0000,
        0xffff_ffff_8000_0000,
    ),
    (
        AluOp::Sdiv,
        0x8000_0000_0000_0000,
        ALL,
        0,
        0x8000_0000_0000_0000,
    ),
    (
        AluOp::Smod,
        0xffff_fffe_ffff_fff9,
        5,
        0xffff_fffe,
        0xffff_ffff_ffff_fffd,
    ),
    (AluOp::Smod, 7, 0xffff_ffff_ffff_fffb, 2, 2),
    (AluOp::Smod, MANY, 0, 0x7654_3210, MANY),
    (AluOp::Smod, 0x8000_0000, ALL, 0, 0),
    (AluOp::Smod, 0x8000_0000_0000_0000, ALL, 0, 0),
    // Counts of shifts are taken modulo 32 and 64; ARSH keeps the sign.
    (AluOp::Or, MANY, MASK, 0x7f5f_3f1f, 0xffdf_bf9f_7f5f_3f1f),
    (AluOp::And, MANY, MASK, 0x604_0200, 0xe0c_0a08_0604_0200),
    (AluOp::Xor, MANY, MASK, 0x795b_3d1f, 0xf1d3_b597_795b_3d1f),
    (AluOp::Lsh, MANY, 100, 0x6543_2100, 0x6543_2100_0000_0000),
    (AluOp::Rsh, MANY, 100, 0x765_4321, 0xfed_cba9),
    (
        AluOp::Arsh,
        0xfedc_ba98_f654_3210,
        100,
        0xff65_4321,
        0xffff_ffff_ffed_cba9,
    ),
    (AluOp::Arsh, MASK, 36, 0xf0_f0f0, 0xf0_f0f0),
    (AluOp::Lsh, 3, 63, 0x8000_0000, 0x8000_0000_0000_0000),
    (AluOp::Rsh, 0x8000_0000_8000_0000, 63, 1, 1),
    (
        AluOp::Arsh,
        0x8000_0000_8000_0000,
        63,
        0xffff_ffff,
        0xffff_ffff_ffff_ffff,
    ),
];

/// Each operation gives the results of its row, at 32 bits and at 64 bits.
#[test]
fn operations_give_what_they_should(rt: HostRuntime) {
    for (op, dst, operand, want32, want64) in OPERATIONS.iter().copied() {
        let narrow = alu(operation(op, Width::W32), dst, operand);
        let whole = alu(operation(op, Width::W64), dst, operand);
        assert_eq!(rt; narrow, want32, "{op:?} {dst} {operand} at 32");
        assert_eq!(rt; whole, want64, "{op:?} {dst} {operand} at 64");
    }
}

/// Negation gives zero minus the number, modulo 2^32 or 2^64 by the width.
#[test]
fn negation_is_zero_less_the_number(rt: HostRuntime) {
    for (width, dst, want) in [
        (Width::W32, 0xffff_ffff_0000_0001, 0xffff_ffff),
        (Width::W32, 0xffff_ffff_0000_0000, 0),
        (Width::W64, 1, 0xffff_ffff_ffff_ffff),
        (Width::W64, 0xffff_ffff_0000_0001, 0xffff_ffff),
    ] {
        let insn = Insn::Unary {
            op: UnaryOp::Neg(width),
            dst: Target::new(0),
        };
        assert_eq!(rt; alu(insn, dst, 0), want, "{width:?} {dst}");
    }
}

/// A sign extension repeats the sign bit of the low 8, 16 or 32 bits.
///
/// The result has the width's 32 or 64 bits, and zeros above them.
#[test]
fn signs_are_extended_to_the_width(rt: HostRuntime) {
    for (extension, src, want) in [
        (SignExtension::Byte(Width::W32), 0x80, 0xffff_ff80),
        (SignExtension::Byte(Width::W64), 0x80, 0xffff_ffff_ffff_ff80),
        (SignExtension::Byte(Width::W64), 0xffff_ff7f, 0x7f),
        (SignExtension::HalfWord(Width::W32), 0x1_8001, 0xffff_8001),
        (
            SignExtension::HalfWord(Width::W64),
            0x1_8001,
            0xffff_ffff_ffff_8001,
        ),
        (SignExtension::HalfWord(Width::W64), 0xff_7fff, 0x7fff),
        (SignExtension::Word, 0x7_8000_0000, 0xffff_ffff_8000_0000),
        (SignExtension::Word, 0x7_7fff_ffff, 0x7fff_ffff),
    ] {
        let insn = Insn::SignExtend {
            extension,
            dst: Target::new(0),
            src: Reg::new(1),
        };
        assert_eq!(rt; alu(insn, 0, src), want, "{extension:?} {src}");
    }
}

/// `Big` and `Swapped` reverse the low 2, 4 or 8 bytes, and `Little` doesn't.
///
/// The other bytes of each result are zero.
#[test]
fn byte_orders_reverse_the_low_bytes(rt: HostRuntime) {
    for (order, width, want) in [
        (ByteOrder::Little, SwapWidth::S16, 0x7788),
        (ByteOrder::Little, SwapWidth::S32, 0x5566_7788),
        (ByteOrder::Little, SwapWidth::S64, 0x1122_3344_5566_7788),
        (ByteOrder::Big, SwapWidth::S16, 0x8877),
        (ByteOrder::Big, SwapWidth::S32, 0x8877_6655),
        (ByteOrder::Big, SwapWidth::S64, 0x8877_6655_4433_2211),
        (ByteOrder::Swapped, SwapWidth::S16, 0x8877),
        (ByteOrder::Swapped, SwapWidth::S32, 0x8877_6655),
        (ByteOrder::Swapped, SwapWidth::S64, 0x8877_6655_4433_2211),
    ] {
        let insn = Insn::Unary {
            op: UnaryOp::End(order, width),
            dst: Target::new(0),
        };
        assert_eq!(rt;
            alu(insn, 0x1122_3344_5566_7788, 0),
            want,
            "{order:?} {width:?}"
        );
    }
}

/// Each comparison holds for the pairs of numbers whose digits in its row are 1.
///
/// In the order of the digits, the pairs are: a number that is negative at both widths, and 1; 1
/// and that number; a number and itself; two numbers whose low halves are equal.
#[test]
fn comparisons_hold_as_their_rows_say(rt: HostRuntime) {
    for (relation, want32, want64) in [
        (Relation::Eq, 0b0011, 0b0010),
        (Relation::Ne, 0b1100, 0b1101),
        (Relation::Gt, 0b1000, 0b1001),
        (Relation::Ge, 0b1011, 0b1011),
        (Relation::Lt, 0b0100, 0b0100),
        (Relation::Le, 0b0111, 0b0110),
        (Relation::Sgt, 0b0100, 0b0101),
        (Relation::Sge, 0b0111, 0b0111),
        (Relation::Slt, 0b1000, 0b1000),
        (Relation::Sle, 0b1011, 0b1010),
        (Relation::Set, 0b0011, 0b0011),
    ] {
        assert_eq!(rt; truths(relation, Width::W32), want32, "{relation:?} at 32");
        assert_eq!(rt; truths(relation, Width::W64), want64, "{relation:?} at 64");
    }
}

/// JSET holds if the two numbers have at least one common bit at the width.
#[test]
fn jset_asks_for_a_common_bit(rt: HostRuntime) {
    for (left, right, want32, want64) in [
        (5, 3, true, true),
        (5, 2, false, false),
        (0x1_0000_0000, 0x1_0000_0000, false, true),
    ] {
        let narrow = truth(jump(Relation::Set, Width::W32), left, right);
        let whole = truth(jump(Relation::Set, Width::W64), left, right);
        assert_eq!(rt; narrow, want32, "{left} {right} at 32");
        assert_eq!(rt; whole, want64, "{left} {right} at 64");
    }
}

// Returns four binary digits: whether the comparison holds for each of the four pairs.
fn truths(relation: Relation, width: Width) -> u8 {
    let signed = 0x8000_0000_8000_0000;
    8 * digit(relation, width, signed, 1)
        + 4 * digit(relation, width, 1, signed)
        + 2 * digit(relation, width, MANY, MANY)
        + digit(relation, width, 0x5_0000_0004, 0x3_0000_0004)
}

// Returns 1 if the comparison holds for these numbers, and 0 if it doesn't.
fn digit(relation: Relation, width: Width, left: u64, right: u64) -> u8
    ensures { result ≤ 1 }
{
    truth(jump(relation, width), left, right) as u8
}
