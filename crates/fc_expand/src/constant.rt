//! The constants of a source: lines `.const NAME NUMBER`.
use crate::expander::{Label, is_constant};
use crate::form::Form;
use crate::helper::number_of_helper;
use crate::pieces::{PieceError, is_number, number_piece};
use crate::plain::push_spaced;
use crate::words::{from_word, is_blank, is_name, split_word};
use fc_asm::vocabulary::{is_register, operands_of};
use std::alloc::{AllocError, Global};

/// A constant: its name, its line, counted from 1, and its number as written there.
#[derive(Clone, Copy)]
pub(crate) struct Constant<'a> {
    name: &'a [u8],
    line: usize,
    value: &'a [u8],
}

/// The content of a constant's line.
#[derive(Clone, Copy)]
struct Definition<'a> {
    name: &'a [u8],
    value: &'a [u8],
    after: &'a [u8],
}

/// Returns the constants of a source, without those of malformed lines.
///
/// `expand_constant` reports the mistake of a malformed line later.
///
/// # Errors
/// Returns `AllocError` if memory can't be allocated.
pub(crate) fn constants_of<'a>(
    alloc: Global,
    text: &'a [u8],
) -> Result<Vec<Constant<'a>>, AllocError> {
    let mut constants = Vec::new(alloc);
    let mut line: usize = 0;
    for code in text.split(|byte| *byte == b'\n') {
        line = line.saturating_add(1);
        if !is_constant(code) {
            continue;
        }
        match definition_of(code, alloc) {
            Ok(Definition { name, value, .. }) => constants.push(Constant { name, line, value })?,
            Err(PieceError::Form(_)) => (),
            Err(PieceError::NoMemory) => return Err(AllocError),
        }
    }
    Ok(constants)
}

/// Returns the number of the constant with this name, as its line writes it.
///
/// Returns `None` if no constant has the name.
pub(crate) fn value_of<'a>(constants: &[Constant<'a>], name: &[u8]) -> Option<&'a [u8]> {
    match constants.iter().find(|constant| constant.name == name) {
        Some(constant) => Some(constant.value),
        None => None,
    }
}

/// Appends the text after a constant's number, but nothing before that text.
///
/// # Errors
/// Returns the mistake of a malformed line, or of a name that an earlier constant, a label, a
/// register, an instruction or a helper has. Returns `NoMemory` if memory can't be allocated.
pub(crate) fn expand_constant(
    out: &mut Vec<u8>,
    body: &[u8],
    labels: &[Label<'_>],
    constants: &[Constant<'_>],
    line: usize,
    alloc: Global,
) -> Result<(), PieceError> {
    let Definition { name, after, .. } = definition_of(body, alloc)?;
    if is_defined(constants, name, line) {
        return Err(PieceError::Form(Form::DoubleConstant));
    }
    if labels.iter().any(|label| label.name == name) || is_meant(name, alloc)? {
        return Err(PieceError::Form(Form::TakenConstant));
    }
    push_spaced(out, after)?;
    Ok(())
}

/// Returns whether an earlier line defines a constant with this name.
fn is_defined(constants: &[Constant<'_>], name: &[u8], line: usize) -> bool {
    match constants.iter().find(|constant| constant.name == name) {
        Some(constant) => constant.line < line,
        None => false,
    }
}

/// Returns whether a name is that of a register, an instruction or a helper.
///
/// Returns `false` for a name that isn't UTF-8.
///
/// # Errors
/// Returns `AllocError` if memory can't be allocated.
fn is_meant(name: &[u8], alloc: Global) -> Result<bool, AllocError> {
    match str::from_utf8(name) {
        Ok(word) => Ok(
            is_register(word)
                || operands_of(alloc, word)?.is_some()
                || number_of_helper(name).is_some(),
        ),
        Err(_) => Ok(false),
    }
}

/// Returns the name in a constant's line, its number, and the text after that.
///
/// # Errors
/// Returns the mistake of a malformed line, or `NoMemory` if memory can't be allocated.
fn definition_of<'a>(body: &'a [u8], alloc: Global) -> Result<Definition<'a>, PieceError> {
    let (_, more) = split_word(body);
    let (name, more) = split_word(more);
    if !is_name(name) {
        return Err(PieceError::Form(Form::Constant));
    }
    let rest = from_word(more);
    let mut number = Vec::new(alloc);
    let size = number_piece(&mut number, rest, alloc)?;
    let (value, after) = rest.split_at(size);
    if is_number(&number) && is_blank(after) {
        Ok(Definition { name, value, after })
    } else {
        Err(PieceError::Form(Form::Constant))
    }
}
