//! Mistakes in a source text, and their lines.
ghost use Rattle.std.specs.Prelude.{◌≡◌};
ghost use Rattle.fc_asm.specs.Mistakes.{mistake_text};

use std::alloc::{AllocError, AllocFailed};
use std::error::Error;
use std::fmt;

/// A mistake in a line. If there are several, the first of these is reported.
#[derive(Clone, Copy, Debug, PartialEq, Eq)]
pub enum Mistake {
    /// The first word isn't the name of an instruction.
    UnknownWord,
    /// Too few or too many operands, or an operand of the wrong sort.
    Operand,
    /// A number outside its operand's range.
    OutOfRange,
}

/// The reason why a text wasn't assembled.
///
/// A mistake prints as `A1 line 7`.
#[derive(Clone, Copy, Debug, PartialEq, Eq)]
pub enum AsmError {
    /// The first mistake, and the number of its line, counted from 1.
    Faulty { mistake: Mistake, line: usize },
    /// Memory for the program can't be allocated.
    NoMemory,
}

impl fmt::Display for AsmError {
    ghost use Rattle.std.specs.Prelude.{Some};
    ghost use Rattle.fc_asm.specs.Mistakes.{error_text};

    ghost output = { λ e. Some (error_text e) };

    fn fmt<W: fmt::Write>(&self, f: &mut fmt::Formatter<W>) -> fmt::Result {
        match *self {
            AsmError::Faulty { mistake, line } => write!(f, "{} line {line}", code(mistake)),
            AsmError::NoMemory => write!(f, "out of memory"),
        }
    }
}

/// Returns the code of a mistake, `A1` to `A3`, that is printed.
fn code(mistake: Mistake) -> &'static str
    ensures { result.now ≡ mistake_text mistake }
{
    match mistake {
        Mistake::UnknownWord => "A1",
        Mistake::Operand => "A2",
        Mistake::OutOfRange => "A3",
    }
}

impl Error for AsmError {}

impl From<AllocError> for AsmError {
    ghost use Rattle.std.specs.Prelude.{◌≡◌};
    ghost use Rattle.fc_asm.specs.declared.error.AsmError.TheVariants.{NoMemory};

    ghost from_gives = { λ _ e. e ≡ NoMemory };

    fn from(_error: AllocError) -> Self {
        AsmError::NoMemory
    }
}

impl<T: Drop> From<AllocFailed<T>> for AsmError {
    ghost use Rattle.std.specs.Prelude.{◌≡◌};
    ghost use Rattle.fc_asm.specs.declared.error.AsmError.TheVariants.{NoMemory};

    ghost from_gives = { λ _ e. e ≡ NoMemory };

    fn from(_error: AllocFailed<T>) -> Self {
        AsmError::NoMemory
    }
}
