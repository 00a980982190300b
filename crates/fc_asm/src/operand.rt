//! Parsing of operands, each from a word of a line.
//!
//! The functions return `Mistake::Operand` for a word of another sort, and `Mistake::OutOfRange`
//! for a number out of the operand's range.
ghost use Rattle.std.specs.Prelude.{◌≡◌};
ghost use Rattle.fc_asm.specs.Operands.{both_of, graver, imm_from, is_digits, writes_number, offset_from, operand_from, register_from, target_from, wide_from, extension_from};

use crate::error::Mistake;
use fc_isa::{Operand, Reg, SignExtension, Target, Width};

/// Parses a register, `r0` to `r10`.
///
/// # Errors
/// Returns `Operand` for any other word.
pub fn register(word: &str) -> Result<Reg, Mistake>
    ensures { result ≡ register_from word.now }
{
    match REGISTERS.iter().position(|name| *name == word) {
        Some(number) => Ok(Reg::new(number as u8)),
        None => Err(Mistake::Operand),
    }
}

const REGISTERS: [&'static str; 11] = [
    "r0", "r1", "r2", "r3", "r4", "r5", "r6", "r7", "r8", "r9", "r10",
];

/// Parses a destination register, `r0` to `r9`, which programs may write.
///
/// # Errors
/// Returns `Operand` for any other word.
pub fn target(word: &str) -> Result<Target, Mistake>
    ensures { result ≡ target_from word.now }
{
    let number = register(word)?.index();
    if number < 10 {
        Ok(Target::new(number as u8))
    } else {
        Err(Mistake::Operand)
    }
}

/// Parses a signed 32-bit number.
///
/// # Errors
/// Returns `Operand` if the word isn't a decimal number, or `OutOfRange` if the number doesn't fit
/// 32 bits.
pub fn imm(word: &str) -> Result<i32, Mistake>
    ensures { result ≡ imm_from word.now }
{
    if !writes_number(word) {
        return Err(Mistake::Operand);
    }
    match word.parse::<i32>() {
        Ok(value) => Ok(value),
        Err(_) => Err(Mistake::OutOfRange), // outside 32 bits
    }
}

/// Parses a signed 16-bit number.
///
/// # Errors
/// Returns `Operand` if the word isn't a decimal number, or `OutOfRange` if the number doesn't fit
/// 16 bits.
pub fn offset(word: &str) -> Result<i16, Mistake>
    ensures { result ≡ offset_from word.now }
{
    if !writes_number(word) {
        return Err(Mistake::Operand);
    }
    match word.parse::<i16>() {
        Ok(value) => Ok(value),
        Err(_) => Err(Mistake::OutOfRange),
    }
}

/// Parses an unsigned 64-bit number; `-0` is zero.
///
/// # Errors
/// Returns `Operand` if the word isn't a decimal number. Returns `OutOfRange` if the number is
/// below 0 or doesn't fit 64 bits.
pub fn wide(word: &str) -> Result<u64, Mistake>
    ensures { result ≡ wide_from word.now }
{
    if !writes_number(word) {
        return Err(Mistake::Operand);
    }
    match word.strip_prefix('-') {
        None => match word.parse::<u64>() {
            Ok(value) => Ok(value),
            Err(_) => Err(Mistake::OutOfRange),
        },
        Some(digits) => match digits.parse::<u64>() {
            Ok(size) => if size == 0 {
                Ok(0)
            } else {
                Err(Mistake::OutOfRange)
            },
            Err(_) => Err(Mistake::OutOfRange),
        },
    }
}

/// Parses a register or a signed 32-bit number.
///
/// # Errors
/// Returns `Operand` if the word is neither a register nor a decimal number. Returns `OutOfRange`
/// if the number doesn't fit 32 bits.
pub fn operand(word: &str) -> Result<Operand, Mistake>
    ensures { result ≡ operand_from word.now }
{
    match register(word) {
        Ok(reg) => Ok(Operand::Reg(reg)),
        Err(_) => Ok(Operand::Imm(imm(word)?)),
    }
}

/// Parses the number of bits that a move to `width` sign-extends.
///
/// The number is 8 or 16, or also 32 if `width` is 64 bits.
///
/// # Errors
/// Returns `Operand` if the word isn't a decimal number, or `OutOfRange` for any other number.
pub fn extension(width: Width, word: &str) -> Result<SignExtension, Mistake>
    ensures { result ≡ extension_from width word.now }
{
    match (width, imm(word)?) {
        (_, 8) => Ok(SignExtension::Byte(width)),
        (_, 16) => Ok(SignExtension::HalfWord(width)),
        (Width::W64, 32) => Ok(SignExtension::Word),
        _ => Err(Mistake::OutOfRange),
    }
}

/// Returns the values of two results, or the mistake that is reported first.
///
/// If both results are mistakes, `Operand` is reported in preference to `OutOfRange`.
pub fn both<A: Drop, B: Drop>(
    a: Result<A, Mistake>,
    b: Result<B, Mistake>,
) -> Result<(A, B), Mistake>
    ensures { result ≡ both_of a b }
{
    match (a, b) {
        (Ok(a), Ok(b)) => Ok((a, b)),
        (Ok(_), Err(mistake)) => Err(mistake),
        (Err(mistake), Ok(_)) => Err(mistake),
        (Err(a), Err(b)) => Err(graver(a, b)),
    }
}

/// Returns the mistake that is reported first: `b` for `OutOfRange`, else `a`.
fn graver(a: Mistake, b: Mistake) -> Mistake
    ensures { result ≡ graver a b }
{
    match a {
        Mistake::OutOfRange => b,
        _ => a,
    }
}

/// Returns whether the word is decimal digits, with or without a leading `-`.
fn writes_number(word: &str) -> bool
    ensures { result ≡ writes_number word.now }
{
    match word.as_bytes() {
        [b'-', digits @ ..] => is_digits(digits),
        digits => is_digits(digits),
    }
}

/// Returns whether the bytes are decimal digits, at least one.
fn is_digits(digits: &[u8]) -> bool
    ensures { result ≡ is_digits digits.now }
{
    !digits.is_empty() && digits.iter().all(|digit| digit.is_ascii_digit())
}
