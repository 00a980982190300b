//! Programs and their bytes.
//!
//! The expected values are worked out by hand from the standard's tables.
use fc_asm::disassemble;
use fc_isa::{
    AluOp, DecodeError, Fault, Insn, Jump, LoadType, Operand, Reg, Relation, Rule, Shape, Size,
    SourceOperand, Target, Width, decode, encode, is_program,
};
use std::process::Abort;
use std::test::Fail;

// Checks that these bytes are decoded as the program, that the program's listing is `line`, and
// that the program is encoded as the same bytes.
fn check_spelling<R: Abort + AllocGlobal>(
    rt: &R,
    line: &str,
    bytes: &[u8],
    program: &[Insn],
) -> Result<(), Fail> {
    let read = decode(rt.alloc(), bytes)?;
    assert!(rt; read.as_slice() == program);
    assert!(rt; disassemble(rt.alloc(), &read)?.as_str() == line);
    assert!(rt; is_program(program));
    let written = encode(rt.alloc(), program)?;
    assert!(rt; written.as_slice() == bytes);
    Ok(())
}

// A wide load is encoded in two slots, with the low half of its number in the first.
#[test]
fn wide_load_has_two_slots(rt: HostRuntime) -> Result<(), Fail> {
    let bytes = b"\x18\x01\x00\x00\x07\x00\x00\x00\x00\x00\x00\x00\x01\x00\x00\x00";
    let load = Insn::LoadWide {
        dst: Target::new(1),
        value: 4_294_967_303,
    };
    check_spelling(
        &rt,
        "lddw r1, 4294967303\n",
        bytes,
        [load, Insn::WideSecond].as_slice(),
    )
}

// A store's offset of -8 is encoded as the two bytes f8 ff.
#[test]
fn store_has_a_signed_offset(rt: HostRuntime) -> Result<(), Fail> {
    let store = Insn::Store {
        size: Size::DoubleWord,
        base: Reg::new(10),
        offset: -8,
        src: Reg::new(1),
    };
    check_spelling(
        &rt,
        "stxdw r10, -8, r1\n",
        b"\x7b\x1a\xf8\xff\x00\x00\x00\x00",
        [store].as_slice(),
    )
}

// A jump has its offset in bytes 2 and 3, and its immediate in bytes 4 to 7.
#[test]
fn jump_has_an_offset_and_an_immediate(rt: HostRuntime) -> Result<(), Fail> {
    let jump = Insn::JumpIf(Jump {
        width: Width::W32,
        relation: Relation::Set,
        left: Reg::new(1),
        right: Operand::Imm(7),
        offset: 3,
    });
    check_spelling(
        &rt,
        "jset32 r1, 7, 3\n",
        b"\x46\x01\x03\x00\x07\x00\x00\x00",
        [jump].as_slice(),
    )
}

// A signed load has the opcode of the mode MEMSX: 0x81 for a word.
#[test]
fn signed_load_is_told_by_its_mode(rt: HostRuntime) -> Result<(), Fail> {
    let load = Insn::Load {
        loaded: LoadType::SignedWord,
        dst: Target::new(0),
        base: Reg::new(4),
        offset: 0,
    };
    check_spelling(
        &rt,
        "ldsxw r0, r4, 0\n",
        b"\x81\x40\x00\x00\x00\x00\x00\x00",
        [load].as_slice(),
    )
}

// A signed division has the opcode of the unsigned one, and the offset 1.
#[test]
fn signed_division_is_told_by_its_offset(rt: HostRuntime) -> Result<(), Fail> {
    let divide = Insn::Alu {
        op: AluOp::Sdiv,
        width: Width::W64,
        dst: Target::new(0),
        operand: Operand::Imm(-1),
    };
    check_spelling(
        &rt,
        "sdiv64 r0, -1\n",
        b"\x37\x00\x01\x00\xff\xff\xff\xff",
        [divide].as_slice(),
    )
}

// Bytes that aren't a program, each with the broken rule and the slot that breaks it.
static FAULTS: [(&[u8], Rule, usize); 8] = [
    (b"\x8d\x00\x00\x00\x00\x00\x00\x00", Rule::Opcode, 0),
    (b"\xb7\x0b\x00\x00\x00\x00\x00\x00", Rule::Register, 0),
    (b"\xb7\x0a\x00\x00\x00\x00\x00\x00", Rule::FramePointer, 0),
    (b"\x84\x01\x00\x00\x01\x00\x00\x00", Rule::Field, 0),
    (
        b"\x18\x11\x00\x00\x00\x00\x00\x00\x00\x00\x00\x00\x00\x00\x00\x00",
        Rule::Field,
        0,
    ),
    (b"\x18\x01\x00\x00\x00\x00\x00\x00", Rule::WideLoad, 0),
    (
        b"\x95\x00\x00\x00\x00\x00\x00\x00\x18\x0a\x00\x00\x00\x00\x00\x00",
        Rule::FramePointer,
        1,
    ),
    (
        b"\x95\x00\x00\x00\x00\x00\x00\x00\x95\x00\x00",
        Rule::WideLoad,
        1,
    ),
];

// Decoding these bytes returns the fault of the row.
#[test]
fn faults_name_their_slot(rt: HostRuntime) -> Result<(), Fail> {
    for (bytes, rule, slot) in FAULTS.iter().copied() {
        match decode(rt.alloc(), bytes) {
            Err(DecodeError::Fault(fault)) => assert!(rt; fault == Fault { rule, slot }),
            Err(error) => return Err(Fail::from(error)),
            Ok(_) => return Err(Fail::from("decoded")),
        }
    }
    Ok(())
}

// The opcode determines an instruction's form; 0xff has none.
#[test]
fn forms_are_told_by_the_opcode(rt: HostRuntime) {
    let divide = Shape::Alu {
        op: AluOp::Div,
        width: Width::W64,
        source: SourceOperand::K,
    };
    assert!(rt; Shape::of(0x37) == divide);
    assert!(rt; Shape::of(0xff) == Shape::Unknown);
}

// In a program, each second half follows a wide load, and each wide load is followed by one.
#[test]
fn second_halves_stand_behind_wide_loads(rt: HostRuntime) {
    let program = [
        Insn::LoadWide {
            dst: Target::new(0),
            value: 0,
        },
        Insn::WideSecond,
        Insn::Exit,
    ];
    assert!(rt; is_program(&program) && is_program(&program[..0]));
    assert!(rt; !is_program(&program[..1]));
    let lone = [Insn::Exit, Insn::WideSecond];
    assert!(rt; !is_program(lone.as_slice()));
}
