//! Mistakes that the preprocessor finds.
//!
//! The mistakes are in labels, constants, helpers' names, numbers and texts of the assembler's
//! source.
use fc_asm::{AsmError, Mistake};
use std::fmt;

/// A mistake in a line before it is assembled.
#[derive(Clone, Copy, Debug, PartialEq, Eq)]
pub enum Form {
    /// A jump or `callf` to a label that no line has.
    UnknownLabel,
    /// A label that an earlier line has.
    DoubleLabel,
    /// A character that isn't ASCII between two `'`, or has something after it.
    Character,
    /// A text that isn't ASCII between two `"`, or has something directly after it.
    Packed,
    /// A text of more than eight characters.
    LongPacked,
    /// A hexadecimal number of more than 64 bits.
    LongNumber,
    /// A call of a name that no helper has.
    UnknownHelper,
    /// A line `.const` without exactly a name and a number.
    Constant,
    /// A constant whose name an earlier line defines.
    DoubleConstant,
    /// A constant with the name of a label, a helper, an instruction or a register.
    TakenConstant,
}

impl Form {
    /// Returns the assembler's mistake under which this one is reported.
    pub fn mistake(self) -> Mistake {
        match self {
            Form::DoubleLabel | Form::DoubleConstant | Form::TakenConstant => Mistake::UnknownWord,
            Form::UnknownLabel | Form::UnknownHelper | Form::Constant => Mistake::Operand,
            Form::Character | Form::Packed => Mistake::Operand,
            Form::LongPacked | Form::LongNumber => Mistake::OutOfRange,
        }
    }

    /// Returns the mistake in words, for an explanation.
    pub fn text(self) -> &'static str {
        match self {
            Form::UnknownLabel => "a jump or `callf` to a label that no line has",
            Form::DoubleLabel => "a label that a line before has",
            Form::Character =>
                "a character is one of printed ASCII, space to `~`, between two `'`, and ends its word",
            Form::Packed =>
                "a text is printed ASCII, space to `~`, between two `\"`, and ends its word",
            Form::LongPacked => "a text of more than eight characters",
            Form::LongNumber => "a number of more than 64 bits",
            Form::UnknownHelper => "a `call` of a name that no helper has",
            Form::Constant => "a constant is `.const`, a name and a number, on a line of their own",
            Form::DoubleConstant => "a constant that a line before has",
            Form::TakenConstant =>
                "a constant with the name of a label, a helper, an instruction or a register",
        }
    }

    /// Returns the change that corrects the mistake, for an explanation.
    pub fn correction(self) -> &'static str {
        match self {
            Form::UnknownLabel => "write `NAME:` in front of the instruction that it is to lead to",
            Form::DoubleLabel => "give each label a name of its own",
            Form::Character => "write it as `'k'`, and others as numbers",
            Form::Packed => "write it as `.text \"on\"`, and other characters as a number",
            Form::LongPacked => "write it as several numbers of up to eight characters",
            Form::LongNumber => "write at most 16 hexadecimal digits",
            Form::UnknownHelper =>
                "call one of `payload_len`, `payload_byte`, `var_get`, `var_put`, `reply_put`, `reply_byte` and `notify`, or a constant or number from 1 to 7",
            Form::Constant =>
                "write it as `.const LIMIT 100`; a name has letters, digits and `_`, and begins with no digit",
            Form::DoubleConstant | Form::TakenConstant => "give each constant a name of its own",
        }
    }
}

/// A mistake, and its line, counted from 1. They print as `A2 line 7`.
#[derive(Clone, Copy, Debug, PartialEq, Eq)]
pub struct BadForm {
    pub form: Form,
    pub line: usize,
}

impl fmt::Display for BadForm {
    fn fmt<W: fmt::Write>(&self, f: &mut fmt::Formatter<W>) -> fmt::Result {
        let mistake = self.form.mistake();
        let line = self.line;
        write!(f, "{}", AsmError::Faulty { mistake, line })
    }
}
