//! The words of a line, and its label, for the preprocessor and for explanations.
ghost use Rattle.std.specs.Prelude.{length, ◌≤◌, ◌≡◌};
ghost use Rattle.fc_expand.specs.Expanded.{is_space, is_tab, parts_words};

/// Returns whether the byte is a tab or a carriage return, which count as a space.
pub(crate) fn is_tab(byte: u8) -> bool
    ensures { result ≡ is_tab byte }
{
    byte == b'\t' || byte == b'\r'
}

/// Returns whether the byte is a space or is read as one.
pub(crate) fn is_space(byte: u8) -> bool
    ensures { result ≡ is_space byte }
{
    byte == b' ' || is_tab(byte)
}

/// Returns a line's label and the text after it, or `None` and the whole line.
///
/// A label is a name directly before the line's first `:`, with nothing but spaces before the name.
pub fn split_label(code: &[u8]) -> (Option<&[u8]>, &[u8]) {
    let Some(colon) = code.iter().position(|byte| *byte == b':') else {
        return (None, code);
    };
    let head = &code[..colon];
    let spaces = head.iter().position(|byte| !is_space(*byte)).unwrap_or(0);
    if is_name(&head[spaces..]) {
        (Some(&head[spaces..]), &code[colon + 1..])
    } else {
        (None, code)
    }
}

/// Returns whether a word has letters, digits and `_` only, and no digit first.
///
/// An empty word is no name.
pub(crate) fn is_name(word: &[u8]) -> bool {
    match word {
        [] => false,
        [first, ..] => !first.is_ascii_digit() && word.iter().all(|byte| is_name_byte(*byte)),
    }
}

fn is_name_byte(byte: u8) -> bool {
    byte == b'_' || byte.is_ascii_alphanumeric()
}

/// Returns whether `rest` is empty, or begins with a separator or a comment.
pub(crate) fn is_ended(rest: &[u8]) -> bool {
    match rest {
        [] => true,
        [byte, ..] => ends_word(*byte),
    }
}

/// Returns the number of bytes up to a separator, a comment or the end.
pub(crate) fn word_size(rest: &[u8]) -> usize
    ensures { result ≤ length rest.now }
{
    match rest.iter().position(|byte| ends_word(*byte)) {
        Some(size) => size,
        None => rest.len(),
    }
}

/// Returns whether the byte separates words or begins a comment.
fn ends_word(byte: u8) -> bool {
    parts_words(byte) || byte == b';'
}

/// Returns whether a line has no word before a comment.
pub(crate) fn is_blank(code: &[u8]) -> bool {
    first_word(code).is_empty()
}

/// Returns whether the byte separates words.
pub(crate) fn parts_words(byte: u8) -> bool
    ensures { result ≡ parts_words byte }
{
    is_space(byte) || byte == b','
}

/// Returns the first word of a line, or an empty one if the line has none.
pub fn first_word(body: &[u8]) -> &[u8] {
    split_word(body).0
}

/// Returns the first word of a line, or an empty one, and the text after it.
pub(crate) fn split_word(body: &[u8]) -> (&[u8], &[u8]) {
    let rest = from_word(body);
    rest.split_at(word_size(rest))
}

/// Returns the text after leading spaces and commas, or an empty text.
pub(crate) fn from_word(body: &[u8]) -> &[u8] {
    match body.iter().position(|byte| !parts_words(*byte)) {
        Some(start) => &body[start..],
        None => &[],
    }
}
