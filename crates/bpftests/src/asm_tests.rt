//! Sources, and the programs or mistakes that the assembler makes of them.
//!
//! The expected values follow from the assembler's rules.
use fc_asm::{AsmError, assemble, disassemble};
use fc_isa::{AluOp, Insn, Jump, LoadType, Operand, Reg, Relation, Size, Target, Width};
use std::alloc::{AllocError, Global};
use std::test::Fail;

// Assembles a text. Returns the listing of the program, or the mistake with its line.
fn outcome(alloc: Global, text: &str) -> Result<String, AllocError> {
    match assemble(alloc, text) {
        Ok(program) => disassemble(alloc, &program),
        Err(AsmError::NoMemory) => Err(AllocError),
        Err(error) => error.to_string(alloc),
    }
}

// Each line is assembled to the instruction of its row.
#[test]
fn lines_mean_instructions(rt: HostRuntime) -> Result<(), Fail> {
    let rows = [
        (
            "lddw r1, 4294967303",
            Insn::LoadWide {
                dst: Target::new(1),
                value: 4294967303,
            },
        ),
        (
            "stxdw r10, -8, r1",
            Insn::Store {
                size: Size::DoubleWord,
                base: Reg::new(10),
                offset: -8,
                src: Reg::new(1),
            },
        ),
        (
            "jset32 r1, 7, 3",
            Insn::JumpIf(Jump {
                width: Width::W32,
                relation: Relation::Set,
                left: Reg::new(1),
                right: Operand::Imm(7),
                offset: 3,
            }),
        ),
        (
            "ldsxw r0, r4, 0",
            Insn::Load {
                loaded: LoadType::SignedWord,
                dst: Target::new(0),
                base: Reg::new(4),
                offset: 0,
            },
        ),
        (
            "sdiv64 r0, -1",
            Insn::Alu {
                op: AluOp::Sdiv,
                width: Width::W64,
                dst: Target::new(0),
                operand: Operand::Imm(-1),
            },
        ),
    ];
    for (text, insn) in rows {
        let program = assemble(rt.alloc(), text)?;
        assert!(rt; program.first() == Some(&insn), "{text}");
    }
    Ok(())
}

// Sources whose listing is the source itself.
static LISTINGS: [&str; 29] = [
    "add64 r1, r2\n",
    "add32 r1, 5\n",
    "arsh32 r9, -2147483648\n",
    "smod64 r0, r10\n",
    "neg64 r1\n",
    "movsx64 r1, r2, 8\n",
    "movsx64 r1, r2, 32\n",
    "movsx32 r1, r2, 16\n",
    "le16 r1\n",
    "be32 r1\n",
    "swap64 r1\n",
    "lddw r1, 4294967303\n",
    "lddw r1, 18446744073709551615\n",
    "ldxb r0, r4, 80\n",
    "ldxdw r0, r4, -32768\n",
    "ldsxw r0, r4, 0\n",
    "stb r10, -1, 7\n",
    "stxdw r10, -8, r1\n",
    "ja 32767\n",
    "ja32 3\n",
    "jgt r1, r2, 3\n",
    "jset32 r1, 7, 3\n",
    "jeq r10, -1, -3\n",
    "call 3\n",
    "callf 1\n",
    "callf -2147483648\n",
    "exit\n",
    "lddw r1, 1\nexit\n",
    "",
];

// A listing is assembled to a program that has the same listing.
#[test]
fn listed_lines_are_assembled(rt: HostRuntime) -> Result<(), Fail> {
    for text in LISTINGS.iter().copied() {
        let listed = outcome(rt.alloc(), text)?;
        assert!(rt; listed.as_str() == text, "{listed}");
    }
    Ok(())
}

// Sources, each with the listing of its program, or with its mistake.
static OUTCOMES: [(&str, &str); 54] = [
    // comments, blank lines, spaces and commas
    ("; nothing\n\n  , ,\nexit ; done\n;exit", "exit\n"),
    ("  mov64,r1 2  ,", "mov64 r1, 2\n"),
    ("exit\n\n\n", "exit\n"),
    // numbers
    ("mov64 r1, -0", "mov64 r1, 0\n"),
    ("mov64 r1, 007", "mov64 r1, 7\n"),
    (
        "mov64 r1, -00000000000000000000000000000000012",
        "mov64 r1, -12\n",
    ),
    ("lddw r1, -0", "lddw r1, 0\n"),
    ("mov64 r1, 2147483647", "mov64 r1, 2147483647\n"),
    // A1
    ("movq r1, 1", "A1 line 1"),
    ("EXIT", "A1 line 1"),
    ("\texit", "A1 line 1"),
    ("exit\r\n", "A1 line 1"),
    ("movq r10, 99999999999, 1, 2", "A1 line 1"),
    // A2
    ("mov64 r10, 1", "A2 line 1"),
    ("mov64 r1", "A2 line 1"),
    ("mov64 r1, 1, 2", "A2 line 1"),
    ("exit 1", "A2 line 1"),
    ("call", "A2 line 1"),
    ("neg64", "A2 line 1"),
    ("mov64 r01, 1", "A2 line 1"),
    ("mov64 r11, 1", "A2 line 1"),
    ("mov64 R1, 1", "A2 line 1"),
    ("mov64 r, 1", "A2 line 1"),
    ("mov64 1, 1", "A2 line 1"),
    ("mov64 r1, +1", "A2 line 1"),
    ("mov64 r1, 0x1", "A2 line 1"),
    ("mov64 r1, -", "A2 line 1"),
    ("mov64 r1, --1", "A2 line 1"),
    ("mov64 r1, 1\t", "A2 line 1"),
    ("ja r1", "A2 line 1"),
    ("stxb r10, -1, 7", "A2 line 1"),
    ("stb r10, -1, r1", "A2 line 1"),
    ("lddw r1, r2", "A2 line 1"),
    ("mov64 r10, 99999999999", "A2 line 1"),
    ("stb 1, 32768, 7", "A2 line 1"),
    ("stb r1, 32768, r7", "A2 line 1"),
    ("jeq r1, 2147483648, r1", "A2 line 1"),
    // A3
    ("exit\nmov64 r1, 2147483648", "A3 line 2"),
    ("mov64 r1, -2147483649", "A3 line 1"),
    (
        "mov64 r1, 100000000000000000000000000000000000000000",
        "A3 line 1",
    ),
    ("ja32 2147483648", "A3 line 1"),
    ("call -2147483649", "A3 line 1"),
    ("callf 2147483648", "A3 line 1"),
    ("ja 32768", "A3 line 1"),
    ("ja -32769", "A3 line 1"),
    ("ldxb r0, r1, 32768", "A3 line 1"),
    ("lddw r1, 18446744073709551616", "A3 line 1"),
    ("lddw r1, -1", "A3 line 1"),
    ("movsx32 r1, r2, 32", "A3 line 1"),
    ("movsx64 r1, r2, 64", "A3 line 1"),
    ("movsx64 r1, r2, -8", "A3 line 1"),
    ("movsx64 r1, r2, 99999999999", "A3 line 1"),
    // of several mistakes, the first one is reported
    ("exit\n\nmov64 r1, 2147483648\nmovq r1, 1\n", "A3 line 3"),
    ("; one\nexit 1\nexit 2", "A2 line 2"),
];

// A source that isn't a listing gives the listing or the mistake of its row.
#[test]
fn texts_that_are_no_listing(rt: HostRuntime) -> Result<(), Fail> {
    for (text, wanted) in OUTCOMES.iter().copied() {
        let found = outcome(rt.alloc(), text)?;
        assert!(rt; found.as_str() == wanted, "{text}");
    }
    Ok(())
}
