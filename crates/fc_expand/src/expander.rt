//! The preprocessor: replaces labels, constants and names in each line of a source.
//!
//! The functions that append to `out` return the first mistake, or `NoMemory` if memory can't be
//! allocated. The text so far is then dropped.
ghost use Rattle.std.specs.Prelude.{IfOk, length, map, true, ◌≡◌, ◌≤◌};
ghost use Rattle.fc_expand.specs.Expanded.{as_space, is_plain, is_plain_but_for_tabs};

use crate::constant::{Constant, constants_of, expand_constant, value_of};
use crate::form::{BadForm, Form};
use crate::helper::number_of_helper;
use crate::pieces::{PieceError, number_piece, push_number, push_word};
use crate::plain::{is_plain_but_for_tabs, push_spaced};
use crate::words::{first_word, is_blank, is_name, is_space, split_label, split_word, word_size};
use std::alloc::{AllocError, AllocFailed, Global};

/// The reason why a source isn't expanded.
#[derive(Clone, Copy, Debug, PartialEq, Eq)]
pub enum ExpandError {
    /// The first line with a mistake.
    Faulty(BadForm),
    /// Memory couldn't be allocated.
    NoMemory,
}

impl From<AllocError> for ExpandError {
    fn from(_error: AllocError) -> Self {
        ExpandError::NoMemory
    }
}

impl<T: Drop> From<AllocFailed<T>> for ExpandError {
    fn from(_error: AllocFailed<T>) -> Self {
        ExpandError::NoMemory
    }
}

/// A label, its line, counted from 1, and the slot that it names.
#[derive(Clone, Copy)]
pub(crate) struct Label<'a> {
    pub(crate) name: &'a [u8],
    pub(crate) line: usize,
    pub(crate) slot: u32,
}

/// The meanings of the names in a source.
#[derive(Clone, Copy)]
struct LabelNames<'a> {
    alloc: Global,
    labels: &'a [Label<'a>],
    constants: &'a [Constant<'a>],
}

/// The meanings that words of a line have in addition to the built-in ones.
#[derive(Clone, Copy)]
struct Place<'a> {
    names: LabelNames<'a>,
    slot: u32,
    wanted: Wanted,
}

/// The kind of name that an instruction accepts, apart from a constant's.
#[derive(Clone, Copy)]
enum Wanted {
    /// A jump or `callf`: a label, as the last operand.
    Label,
    /// `call`: the name of a helper, as the first operand.
    Helper,
    /// Any other instruction: no name.
    Nothing,
}

/// Expands a source, line by line.
///
/// - `NAME:` at the start of a line names the line's slot. As the target of a jump or `callf`, the
///   name is replaced by the offset to that slot.
/// - The name of a helper after `call` is replaced by its number.
/// - The name of a constant, as an operand, is replaced by the number in its line `.const NAME
///   NUMBER`.
/// - `0x1f` is replaced by the number, and `'k'` by the number of the character.
/// - `.text "on"` is replaced by the number whose bytes, in little-endian order, are the
///   characters.
/// - Tabs and carriage returns are replaced by spaces.
///
/// A source without any of these is unchanged.
///
/// # Errors
/// Returns the first line with a mistake in one of these forms, or `NoMemory` if memory couldn't be
/// allocated.
#[tactic(auto, using(crate::proofs::Spacing::plain_is_spaced))]
pub fn expand(alloc: Global, text: &[u8]) -> Result<Vec<u8>, ExpandError>
    ensures plain { is_plain text.now ≡ true → IfOk result (λ v. v.items ≡ text.now) }
    ensures spaced { is_plain_but_for_tabs text.now ≡ true → IfOk result (λ v. v.items ≡ map as_space text.now) }
{
    if is_plain_but_for_tabs(text) {
        let mut out = Vec::with_capacity(alloc, text.len())?;
        push_spaced(&mut out, text)?;
        return Ok(out);
    }
    let labels = labels_of(alloc, text)?;
    let constants = constants_of(alloc, text)?;
    let names = LabelNames {
        alloc,
        labels: &labels,
        constants: &constants,
    };
    expand_lines(text, names)
}

/// Returns the labels of a source in order, each with its line and slot.
///
/// A label's slot is the number of slots in the lines before it. A repeated label is returned each
/// time; `expand_line` reports it.
///
/// # Errors
/// Returns `AllocError` if memory can't be allocated.
fn labels_of<'a>(alloc: Global, text: &'a [u8]) -> Result<Vec<Label<'a>>, AllocError> {
    let mut labels = Vec::new(alloc);
    let mut slot: u32 = 0;
    let mut line: usize = 0;
    for code in text.split(|byte| *byte == b'\n') {
        line = line.saturating_add(1);
        let (name, body) = split_label(code);
        if let Some(name) = name {
            labels.push(Label { name, line, slot })?;
        }
        slot = slot.saturating_add(slots_of(body));
    }
    Ok(labels)
}

/// Expands the lines of a source, with these meanings of its names.
///
/// # Errors
/// Returns the first line with a mistake, or `NoMemory` if memory can't be allocated.
fn expand_lines(text: &[u8], names: LabelNames<'_>) -> Result<Vec<u8>, ExpandError> {
    let mut out = Vec::with_capacity(names.alloc, text.len())?;
    let mut slot: u32 = 0;
    let mut line: usize = 0;
    for code in text.split(|byte| *byte == b'\n') {
        if line > 0 {
            out.push(b'\n')?;
        }
        line = line.saturating_add(1);
        match expand_line(&mut out, code, names, line, slot) {
            Ok(slots) => slot = slot.saturating_add(slots),
            Err(PieceError::Form(form)) => return Err(ExpandError::Faulty(BadForm { form, line })),
            Err(PieceError::NoMemory) => return Err(ExpandError::NoMemory),
        }
    }
    Ok(out)
}

/// Appends the replacement of the line `code`, and returns the line's number of slots.
///
/// `line` is the line's number, counted from 1, and `slot` the slot of its instruction.
///
/// # Errors
/// Returns the first mistake in the line, or `NoMemory` if memory can't be allocated.
fn expand_line(
    out: &mut Vec<u8>,
    code: &[u8],
    names: LabelNames<'_>,
    line: usize,
    slot: u32,
) -> Result<u32, PieceError> {
    let (label, body) = split_label(code);
    if let Some(name) = label {
        if is_taken(names.labels, name, line) {
            return Err(PieceError::Form(Form::DoubleLabel));
        }
    }
    if is_constant(body) {
        if label.is_some() {
            return Err(PieceError::Form(Form::Constant));
        }
        expand_constant(out, body, names.labels, names.constants, line, names.alloc)?;
        return Ok(0);
    }
    let wanted = wanted_by(first_word(body));
    expand_words(
        out,
        body,
        &Place {
            names,
            slot,
            wanted,
        },
    )?;
    Ok(slots_of(body))
}

/// Returns whether an earlier line than `line` has the label `name`.
fn is_taken(labels: &[Label<'_>], name: &[u8], line: usize) -> bool {
    match labels.iter().find(|label| label.name == name) {
        Some(label) => label.line < line,
        None => false,
    }
}

/// Appends the replacements of a line's words, and all text between them.
///
/// Tabs and carriage returns are replaced by spaces.
///
/// # Errors
/// Returns the mistake of the first bad number or name, or `NoMemory` if memory can't be allocated.
fn expand_words(out: &mut Vec<u8>, body: &[u8], place: &Place<'_>) -> Result<(), PieceError> {
    let mut at = 0;
    for _piece in 0..body.len() {
        let (before, rest) = body.split_at(at);
        at += expand_piece(out, before, rest, place)?;
    }
    Ok(())
}

/// Appends the replacement of the first piece of `rest` to `out`.
///
/// Returns the length of the piece in bytes, or 0 if `rest` is empty. A piece is a separator, a
/// comment, a number or a word. `before` is the line's text before `rest`.
///
/// # Errors
/// Returns the mistake in a number or a name, or an error if memory can't be allocated.
fn expand_piece(
    out: &mut Vec<u8>,
    before: &[u8],
    rest: &[u8],
    place: &Place<'_>,
) -> Result<usize, PieceError>
    ensures { IfOk result (λ n. n ≤ length rest.now) }
{
    match rest {
        [] => Ok(0),
        [b';', ..] => spaced(out, rest),
        [byte, ..] if is_space(*byte) || *byte == b',' => spaced(out, &rest[..1]),
        [b'\'' | b'.', ..] => number_piece(out, rest, place.names.alloc),
        _ => word(out, before, rest, place),
    }
}

/// Appends bytes, with spaces for tabs and carriage returns, and returns their number.
///
/// # Errors
/// Returns `NoMemory` if memory can't be allocated.
fn spaced(out: &mut Vec<u8>, bytes: &[u8]) -> Result<usize, PieceError>
    ensures { IfOk result (λ n. n ≡ length bytes.now) }
{
    push_spaced(out, bytes)?;
    Ok(bytes.len())
}

/// Appends the replacement of the first word of `rest`, and returns the word's size in bytes.
///
/// A hexadecimal number and a name as an operand have replacements; any other word is appended
/// unchanged. `before` is the line's text before `rest`.
///
/// # Errors
/// Returns the mistake in the number or name, or `NoMemory` if memory can't be allocated.
fn word(
    out: &mut Vec<u8>,
    before: &[u8],
    rest: &[u8],
    place: &Place<'_>,
) -> Result<usize, PieceError>
    ensures { IfOk result (λ n. n ≤ length rest.now) }
{
    let size = word_size(rest);
    let (word, after) = rest.split_at(size);
    if is_blank(before) || !is_name(word) {
        push_word(out, word, place.names.alloc)?;
    } else if let Some(value) = value_of(place.names.constants, word) {
        number_piece(out, value, place.names.alloc)?;
    } else {
        let is_first = is_blank(split_word(before).1);
        push_name(out, word, is_first, is_blank(after), place)?;
    }
    Ok(size)
}

/// Appends the replacement of a name that is an operand and no constant.
///
/// A name that the instruction doesn't accept at this place is appended unchanged.
///
/// # Errors
/// Returns `UnknownLabel` or `UnknownHelper` if the instruction requires a label or a helper, and
/// none has the name. Returns `NoMemory` if memory can't be allocated.
fn push_name(
    out: &mut Vec<u8>,
    name: &[u8],
    is_first: bool,
    is_last: bool,
    place: &Place<'_>,
) -> Result<(), PieceError> {
    match place.wanted {
        Wanted::Label if is_last => push_offset(out, name, place),
        Wanted::Helper if is_first => push_helper(out, name, place.names.alloc),
        _ => Ok(out.extend_from_slice(name)?),
    }
}

/// Appends the offset to a label, counted in slots from the slot after the jump.
///
/// # Errors
/// Returns `UnknownLabel` if no line has the label, or `NoMemory` if memory can't be allocated.
fn push_offset(out: &mut Vec<u8>, name: &[u8], place: &Place<'_>) -> Result<(), PieceError> {
    match place.names.labels.iter().find(|label| label.name == name) {
        Some(label) => {
            let offset = i64::from(label.slot) - i64::from(place.slot) - 1;
            let text = format!(in place.names.alloc; "{offset}")?;
            Ok(out.extend_from_slice(text.as_bytes())?)
        }
        None => Err(PieceError::Form(Form::UnknownLabel)),
    }
}

/// Appends the number of a helper.
///
/// # Errors
/// Returns `UnknownHelper` if no helper has the name, or `NoMemory` if memory can't be allocated.
fn push_helper(out: &mut Vec<u8>, name: &[u8], alloc: Global) -> Result<(), PieceError> {
    match number_of_helper(name) {
        Some(number) => push_number(out, alloc, number),
        None => Err(PieceError::Form(Form::UnknownHelper)),
    }
}

/// Returns the number of slots of a line without a label: two for a wide load.
///
/// A blank line and a constant's line have no slots, and any other line has one.
fn slots_of(body: &[u8]) -> u32 {
    match first_word(body) {
        [] | b".const" => 0,
        b"lddw" => 2,
        _ => 1,
    }
}

/// Returns whether a line defines a constant.
pub(crate) fn is_constant(body: &[u8]) -> bool {
    match first_word(body) {
        b".const" => true,
        _ => false,
    }
}

/// Returns the kind of name that an instruction with this first word accepts.
fn wanted_by(word: &[u8]) -> Wanted {
    match word {
        b"call" => Wanted::Helper,
        b"callf" | [b'j', ..] => Wanted::Label,
        _ => Wanted::Nothing,
    }
}
