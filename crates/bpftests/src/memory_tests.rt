//! Each test makes one call that allocates memory, with enough memory.
//!
//! The script tests/refused-memory refuses each allocation of these calls.
use fc_asm::{assemble, disassemble};
use fc_fixtures::images::COUNTER;
use fc_isa::{Insn, decode, encode, is_program};
use fc_machine::Frame;
use fc_verify::verify;
use std::alloc::AllocError;
use std::process::Abort;
use std::test::Fail;

// The counter is verified: its cost is 9 steps, and it has 8 bytes of variables.
#[test]
fn an_image_is_verified(rt: HostRuntime) -> Result<(), Fail> {
    let program = verify(rt.alloc(), COUNTER)?;
    assert!(rt; program.cost() == 9 && program.vars_size() == 8);
    Ok(())
}

// The bytes of `exit` are decoded as one instruction.
#[test]
fn slots_are_decoded(rt: HostRuntime) -> Result<(), Fail> {
    let program = decode(rt.alloc(), b"\x95\0\0\0\0\0\0\0")?;
    assert!(rt; program.as_slice() == [Insn::Exit].as_slice());
    Ok(())
}

// The instruction `exit` is encoded as its eight bytes.
#[test]
fn instructions_are_encoded(rt: HostRuntime) -> Result<(), AllocError> {
    let program = [Insn::Exit];
    assert!(rt; is_program(&program));
    let slots = encode(rt.alloc(), &program)?;
    assert!(rt; slots.as_slice() == b"\x95\0\0\0\0\0\0\0".as_slice());
    Ok(())
}

// The text `exit` is assembled to one instruction.
#[test]
fn a_text_is_assembled(rt: HostRuntime) -> Result<(), Fail> {
    let program = assemble(rt.alloc(), "exit")?;
    assert!(rt; program.as_slice() == [Insn::Exit].as_slice());
    Ok(())
}

// A program of one `exit` is listed as one line.
#[test]
fn a_program_is_listed(rt: HostRuntime) -> Result<(), AllocError> {
    let program = [Insn::Exit];
    assert!(rt; is_program(&program));
    assert!(rt; disassemble(rt.alloc(), &program)?.as_str() == "exit\n");
    Ok(())
}

// A frame for runs is allocated.
#[test]
fn a_frame_is_made(rt: HostRuntime) -> Result<(), AllocError> {
    let _frame = Frame::new(rt.alloc())?;
    Ok(())
}
