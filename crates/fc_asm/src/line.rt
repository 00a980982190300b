//! Parsing of a line: from its words to the instruction.
//!
//! Each function that parses operands returns `Mistake::Operand` if the operands are too few, too
//! many or of another sort. Otherwise it returns `Mistake::OutOfRange` if a number is out of range.
ghost use Rattle.std.specs.Prelude.{IfOk, OnOk, map, ◌++◌, ◌≡◌};
ghost use Rattle.fc_asm.specs.Operands.{if_ok, imm_from, map_ok, offset_from, target_from};
ghost use Rattle.fc_asm.specs.Syntax.{split_commas, insn_from, meaning, one_of, split_words, three_of, two_of, words_of};

use crate::error::Mistake;
use crate::mnemonic::Mnemonic;
use crate::names::Names;
use crate::operand::{both, extension, imm, offset, operand, register, target, wide};
use fc_isa::{AluOp, Insn, Jump, LoadType, Relation, Size, Target, Width};
use std::alloc::{AllocError, Global};

/// Splits a line into its words, up to a comment.
///
/// Spaces and commas separate words, and `;` begins a comment.
///
/// # Errors
/// Returns `AllocError` if memory can't be allocated.
pub fn words<'a>(alloc: Global, line: &'a str) -> Result<Vec<&'a str>, AllocError>
    ensures { IfOk result (λ v. map (λ word. word.now) v.items ≡ words_of line.now) }
{
    match line.split_once(';') {
        Some((code, _)) => parts(alloc, code),
        None => parts(alloc, line),
    }
}

/// Splits a text without a comment into its words, at spaces and commas.
///
/// # Errors
/// Returns `AllocError` if memory can't be allocated.
fn parts<'a>(alloc: Global, code: &'a str) -> Result<Vec<&'a str>, AllocError>
    ensures { IfOk result (λ v. map (λ word. word.now) v.items ≡ split_words code.now) }
{
    let mut words = Vec::new(alloc);
    for part in code.split(' ') {
        push_words(&mut words, part)?;
    }
    Ok(words)
}

/// Appends the parts of a text between commas, other than empty ones.
///
/// # Errors
/// Returns `AllocError` if memory can't be allocated.
fn push_words<'a>(words: &mut Vec<&'a str>, part: &'a str) -> Result<(), AllocError>
    ensures { OnOk result (map (λ word. word.now) words.new.items ≡ map (λ word. word.now) words.old.items ++ split_commas part.now) }
{
    for word in part.split(',') {
        if !word.is_empty() {
            words.push(word)?;
        }
    }
    Ok(())
}

/// Parses the instruction in the words of a line, or `None` if there is no word.
///
/// # Errors
/// Returns `UnknownWord` if the first word is no mnemonic. Otherwise returns the mistake of the
/// operands, `Operand` in preference to `OutOfRange`.
pub fn read(names: &Names, words: &[&str]) -> Result<Option<Insn>, Mistake>
    ensures { result ≡ meaning (map (λ word. word.now) words.now) }
{
    match words {
        [] => Ok(None),
        [name, operands @ ..] => match names.find(name) {
            Some(mnemonic) => Ok(Some(insn(mnemonic, operands)?)),
            None => Err(Mistake::UnknownWord),
        },
    }
}

/// Parses the operands of a mnemonic, and returns the instruction with them.
///
/// # Errors
/// Returns the mistake of the operands, `Operand` in preference to `OutOfRange`.
fn insn(mnemonic: Mnemonic, operands: &[&str]) -> Result<Insn, Mistake>
    ensures { result ≡ insn_from mnemonic (map (λ word. word.now) operands.now) }
{
    match mnemonic {
        Mnemonic::Alu(op, width) => arithmetic(op, width, operands),
        Mnemonic::Unary(op) => Ok(Insn::Unary {
            op,
            dst: only_target(operands)?,
        }),
        Mnemonic::SignExtend(width) => extend(width, operands),
        Mnemonic::LoadWide => load_wide(operands),
        Mnemonic::Load(loaded) => load(loaded, operands),
        Mnemonic::StoreImm(size) => store_imm(size, operands),
        Mnemonic::Store(size) => store(size, operands),
        Mnemonic::JumpAlways => Ok(Insn::JumpAlways {
            offset: only_offset(operands)?,
        }),
        Mnemonic::JumpAlwaysLong => Ok(Insn::JumpAlwaysLong {
            offset: only_imm(operands)?,
        }),
        Mnemonic::JumpIf(relation, width) => jump_if(relation, width, operands),
        Mnemonic::CallHelper => Ok(Insn::CallHelper {
            number: only_imm(operands)?,
        }),
        Mnemonic::CallLocal => Ok(Insn::CallLocal {
            offset: only_imm(operands)?,
        }),
        Mnemonic::Exit => match operands {
            [] => Ok(Insn::Exit),
            _ => Err(Mistake::Operand),
        },
    }
}

/// Parses `DST, SRC|NUMBER`, the operands of an arithmetic instruction.
///
/// # Errors
/// Returns `Operand` unless there are two operands of these sorts. Otherwise returns `OutOfRange`
/// if the number doesn't fit 32 bits.
fn arithmetic(op: AluOp, width: Width, operands: &[&str]) -> Result<Insn, Mistake>
    ensures { result ≡ insn_from (Mnemonic.Alu op width) (map (λ word. word.now) operands.now) }
{
    let (dst, source) = two(operands)?;
    let (dst, operand) = both(target(dst), operand(source))?;
    Ok(Insn::Alu {
        op,
        width,
        dst,
        operand,
    })
}

/// Parses `DST, SRC, BITS`, the operands of a move with sign extension.
///
/// # Errors
/// Returns `Operand` unless there are three operands of these sorts. Otherwise returns `OutOfRange`
/// if a move to `width` can't sign-extend that number of bits.
fn extend(width: Width, operands: &[&str]) -> Result<Insn, Mistake>
    ensures { result ≡ insn_from (Mnemonic.SignExtend width) (map (λ word. word.now) operands.now) }
{
    let (dst, src, bits) = three(operands)?;
    let ((dst, src), extension) = both(both(target(dst), register(src)), extension(width, bits))?;
    Ok(Insn::SignExtend {
        extension,
        dst,
        src,
    })
}

/// Parses `DST, NUMBER`, the operands of a wide load.
///
/// # Errors
/// Returns `Operand` unless there are two operands of these sorts. Otherwise returns `OutOfRange`
/// if the number is below 0 or doesn't fit 64 bits.
fn load_wide(operands: &[&str]) -> Result<Insn, Mistake>
    ensures { result ≡ insn_from Mnemonic.LoadWide (map (λ word. word.now) operands.now) }
{
    let (dst, value) = two(operands)?;
    let (dst, value) = both(target(dst), wide(value))?;
    Ok(Insn::LoadWide { dst, value })
}

/// Parses `DST, BASE, OFFSET`, the operands of a load.
///
/// # Errors
/// Returns `Operand` unless there are three operands of these sorts. Otherwise returns `OutOfRange`
/// if the offset doesn't fit 16 bits.
fn load(loaded: LoadType, operands: &[&str]) -> Result<Insn, Mistake>
    ensures { result ≡ insn_from (Mnemonic.Load loaded) (map (λ word. word.now) operands.now) }
{
    let (dst, base, place) = three(operands)?;
    let ((dst, base), offset) = both(both(target(dst), register(base)), offset(place))?;
    Ok(Insn::Load {
        loaded,
        dst,
        base,
        offset,
    })
}

/// Parses `BASE, OFFSET, NUMBER`, the operands of a store of a number.
///
/// # Errors
/// Returns `Operand` unless there are three operands of these sorts. Otherwise returns `OutOfRange`
/// if the offset doesn't fit 16 bits, or the number doesn't fit 32 bits.
fn store_imm(size: Size, operands: &[&str]) -> Result<Insn, Mistake>
    ensures { result ≡ insn_from (Mnemonic.StoreImm size) (map (λ word. word.now) operands.now) }
{
    let (base, place, value) = three(operands)?;
    let ((base, offset), imm) = both(both(register(base), offset(place)), imm(value))?;
    Ok(Insn::StoreImm {
        size,
        base,
        offset,
        imm,
    })
}

/// Parses `BASE, OFFSET, SRC`, the operands of a store of a register.
///
/// # Errors
/// Returns `Operand` unless there are three operands of these sorts. Otherwise returns `OutOfRange`
/// if the offset doesn't fit 16 bits.
fn store(size: Size, operands: &[&str]) -> Result<Insn, Mistake>
    ensures { result ≡ insn_from (Mnemonic.Store size) (map (λ word. word.now) operands.now) }
{
    let (base, place, src) = three(operands)?;
    let ((base, offset), src) = both(both(register(base), offset(place)), register(src))?;
    Ok(Insn::Store {
        size,
        base,
        offset,
        src,
    })
}

/// Parses `SRC, SRC|NUMBER, TARGET`, the operands of a conditional jump.
///
/// # Errors
/// Returns `Operand` unless there are three operands of these sorts. Otherwise returns `OutOfRange`
/// if the number doesn't fit 32 bits, or the target doesn't fit 16 bits.
fn jump_if(relation: Relation, width: Width, operands: &[&str]) -> Result<Insn, Mistake>
    ensures { result ≡ insn_from (Mnemonic.JumpIf relation width) (map (λ word. word.now) operands.now) }
{
    let (left, right, place) = three(operands)?;
    let ((left, right), offset) = both(both(register(left), operand(right)), offset(place))?;
    Ok(Insn::JumpIf(Jump {
        width,
        relation,
        left,
        right,
        offset,
    }))
}

/// Parses the only operand as a writable register, `r0` to `r9`.
///
/// # Errors
/// Returns the mistake `Operand` if there isn't exactly one operand, or if it isn't such a
/// register.
fn only_target(operands: &[&str]) -> Result<Target, Mistake>
    ensures { result ≡ if_ok (one_of (map (λ word. word.now) operands.now)) target_from }
{
    match operands {
        [word] => target(word),
        _ => Err(Mistake::Operand),
    }
}

/// Parses the only operand as a signed 32-bit number.
///
/// # Errors
/// Returns the mistake `Operand` if there isn't exactly one operand, or if the operand isn't a
/// number. Returns the mistake `OutOfRange` if the number doesn't fit.
fn only_imm(operands: &[&str]) -> Result<i32, Mistake>
    ensures { result ≡ if_ok (one_of (map (λ word. word.now) operands.now)) imm_from }
{
    match operands {
        [word] => imm(word),
        _ => Err(Mistake::Operand),
    }
}

/// Parses the only operand as a signed 16-bit number.
///
/// # Errors
/// Returns the mistake `Operand` if there isn't exactly one operand, or if the operand isn't a
/// number. Returns the mistake `OutOfRange` if the number doesn't fit.
fn only_offset(operands: &[&str]) -> Result<i16, Mistake>
    ensures { result ≡ if_ok (one_of (map (λ word. word.now) operands.now)) offset_from }
{
    match operands {
        [word] => offset(word),
        _ => Err(Mistake::Operand),
    }
}

/// Returns the two operands, or the mistake `Operand` if there aren't two.
fn two<'a>(operands: &[&'a str]) -> Result<(&'a str, &'a str), Mistake>
    ensures { map_ok (λ p. (p.0.now, p.1.now)) result ≡ two_of (map (λ word. word.now) operands.now) }
{
    match operands {
        [a, b] => Ok((*a, *b)),
        _ => Err(Mistake::Operand),
    }
}

/// Returns the three operands, or the mistake `Operand` if there aren't three.
fn three<'a>(operands: &[&'a str]) -> Result<(&'a str, &'a str, &'a str), Mistake>
    ensures { map_ok (λ p. (p.0.now, p.1.now, p.2.now)) result ≡ three_of (map (λ word. word.now) operands.now) }
{
    match operands {
        [a, b, c] => Ok((*a, *b, *c)),
        _ => Err(Mistake::Operand),
    }
}
