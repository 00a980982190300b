//! The words that the assembler knows, for the preprocessor and for explanations of mistakes.
ghost use Rattle.std.specs.Prelude.{IfOk, is_some, is_ok, ◌≡◌};
ghost use Rattle.fc_asm.specs.Names.{mnemonic_named};
ghost use Rattle.fc_asm.specs.Operands.{register_from};

use crate::mnemonic::Mnemonic;
use crate::names::Names;
use crate::operand::register;
use std::alloc::{AllocError, Global};

/// Returns the operands of the instruction with this name, in order.
///
/// Returns `None` if no instruction has this name. `DST` is a writable register, and `SRC` and
/// `BASE` are registers. `TARGET`, `OFFSET` and the other words are numbers. The contract states
/// only whether there is an instruction, and not its operands.
///
/// # Errors
/// Returns `AllocError` if memory can't be allocated.
pub fn operands_of(alloc: Global, word: &str) -> Result<Option<&'static str>, AllocError>
    ensures { IfOk result (λ operands. is_some operands ≡ is_some (mnemonic_named word.now)) }
{
    match Names::new(alloc)?.find(word) {
        Some(mnemonic) => Ok(Some(operands(mnemonic))),
        None => Ok(None),
    }
}

/// Returns the operands of a mnemonic, as an explanation prints them.
fn operands(mnemonic: Mnemonic) -> &'static str {
    match mnemonic {
        Mnemonic::Alu(_, _) => "DST, SRC|NUMBER",
        Mnemonic::Unary(_) => "DST",
        Mnemonic::SignExtend(_) => "DST, SRC, BITS",
        Mnemonic::LoadWide => "DST, NUMBER",
        Mnemonic::Load(_) => "DST, BASE, OFFSET",
        Mnemonic::StoreImm(_) => "BASE, OFFSET, NUMBER",
        Mnemonic::Store(_) => "BASE, OFFSET, SRC",
        Mnemonic::JumpAlways | Mnemonic::JumpAlwaysLong | Mnemonic::CallLocal => "TARGET",
        Mnemonic::JumpIf(_, _) => "SRC, SRC|NUMBER, TARGET",
        Mnemonic::CallHelper => "HELPER",
        Mnemonic::Exit => "",
    }
}

/// Returns whether a word is one of `r0` to `r10`.
pub fn is_register(word: &str) -> bool
    ensures { result ≡ is_ok (register_from word.now) }
{
    register(word).is_ok()
}
