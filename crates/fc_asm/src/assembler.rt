//! The assembler: from source text to instructions.
ghost use Rattle.std.specs.Prelude.{IfErr, IfOk, IsTrue, MatchResult, None, OnOk, ◌++◌, ◌≡◌};
ghost use Rattle.fc_isa.specs.Program.{is_program};
ghost use Rattle.fc_asm.specs.Assembled.{ForListed, IsAsmError, IsAssembled, IsLineError, line_slots, mistake_in, second_slot};
ghost use Rattle.fc_asm.specs.Syntax.{lines_of, line_meaning};

use crate::error::AsmError;
use crate::line::{read, words};
use crate::names::Names;
use fc_isa::Insn;
use std::alloc::{AllocError, Global};

/// Assembles a source text with one instruction on each line.
///
/// # Errors
/// Returns the first line with a mistake, and the first of these mistakes that the line has: an
/// unknown first word (A1), a bad operand (A2), a value out of range (A3). Returns `NoMemory` if
/// memory can't be allocated before such a line is found.
pub fn assemble(alloc: Global, text: &str) -> Result<Vec<Insn>, AsmError>
    ensures program { IfOk result (λ v. IsAssembled (lines_of text.now) v.items) }
    ensures slots { IfOk result (λ v. IsTrue (is_program v.items)) }
    ensures fault { IfErr result (IsAsmError (lines_of text.now)) }
    ensures listed { ForListed text.now (λ p. MatchResult result (λ v. v.items ≡ p) (λ e. e ≡ AsmError.NoMemory)) }
{
    let names = Names::new(alloc)?;
    assemble_lines(alloc, &names, text)
}

/// Assembles the lines of a source text, one after another.
///
/// # Errors
/// Returns the first line with a mistake, and its mistake. Returns `NoMemory` if memory can't be
/// allocated before such a line is found.
fn assemble_lines(alloc: Global, names: &Names, text: &str) -> Result<Vec<Insn>, AsmError>
    ensures program { IfOk result (λ v. IsAssembled (lines_of text.now) v.items) }
    ensures slots { IfOk result (λ v. IsTrue (is_program v.items)) }
    ensures fault { IfErr result (IsAsmError (lines_of text.now)) }
    ensures listed { ForListed text.now (λ p. MatchResult result (λ v. v.items ≡ p) (λ e. e ≡ AsmError.NoMemory)) }
{
    let mut program = Vec::new(alloc);
    let mut line = 0;
    for code in text.split('\n') {
        line += 1;
        assemble_line(alloc, names, code, line, &mut program)?;
    }
    Ok(program)
}

/// Appends the slots of the line `code`, whose number is `line`.
///
/// A line without an instruction has no slots.
///
/// # Errors
/// Returns the line's mistake, or `NoMemory` if memory can't be allocated. The contract then
/// doesn't say what `program` contains.
fn assemble_line(
    alloc: Global,
    names: &Names,
    code: &str,
    line: usize,
    program: &mut Vec<Insn>,
) -> Result<(), AsmError>
    ensures slots { OnOk result (program.new.items ≡ program.old.items ++ line_slots code.now) }
    ensures faultless { OnOk result (mistake_in (line_meaning code.now) ≡ None) }
    ensures fault { IfErr result (IsLineError code.now line) }
{
    let words = words(alloc, code)?;
    match read(names, &words) {
        Ok(None) => Ok(()),
        Ok(Some(insn)) => {
            let (first, second) = slots(insn);
            program.push(first)?;
            if let Some(second) = second {
                program.push(second)?;
            }
            Ok(())
        }
        Err(mistake) => Err(AsmError::Faulty { mistake, line }),
    }
}

/// Returns the instruction, and its second half if it is a wide load, else `None`.
fn slots(insn: Insn) -> (Insn, Option<Insn>)
    ensures first { result.0 ≡ insn }
    ensures second { result.1 ≡ second_slot insn }
{
    match insn {
        Insn::LoadWide { .. } => (insn, Some(Insn::WideSecond)),
        _ => (insn, None),
    }
}
