//! Abstract values of registers in words, for explanations.
use fc_kinds::Kind;
use std::fmt;

/// The end of a stack frame, counted from its first byte; R10 points to it.
const FRAME_END: i64 = 256;

/// A register's abstract value, printed as `a number from 0 to 1024`.
#[derive(Clone, Copy)]
pub struct Known(pub Kind);

impl fmt::Display for Known {
    fn fmt<W: fmt::Write>(&self, f: &mut fmt::Formatter<W>) -> fmt::Result {
        match self.0 {
            Kind::Unset => write!(f, "nothing"),
            Kind::Num { lo, hi } => write_number(f, lo, hi),
            Kind::Stack { level, lo, hi } => {
                write_frame(f, level)?;
                write!(f, ", at offset ")?;
                write_ends(
                    f,
                    lo.saturating_sub(FRAME_END),
                    hi.saturating_sub(FRAME_END),
                )?;
                write!(f, " from its end")
            }
            Kind::Req { lo, hi } => {
                write!(f, "a pointer into the request, at offset ")?;
                write_ends(f, lo, hi)
            }
            Kind::Vars { lo, hi } => {
                write!(f, "a pointer into the variables, at offset ")?;
                write_ends(f, lo, hi)
            }
            Kind::Dev { lo, hi } => {
                write!(f, "a pointer into the readings, at offset ")?;
                write_ends(f, lo, hi)
            }
        }
    }
}

/// Writes the numbers from `lo` to `hi` in words.
fn write_number<W: fmt::Write>(f: &mut fmt::Formatter<W>, lo: u64, hi: u64) -> fmt::Result {
    match (lo, hi) {
        (0, u64::MAX) => write!(f, "any number"),
        (lo, hi) if lo == hi => write!(f, "the number {lo}"),
        (lo, hi) => write!(f, "a number from {lo} to {hi}"),
    }
}

/// Writes the stack frame `level` calls above the current one in words.
fn write_frame<W: fmt::Write>(f: &mut fmt::Formatter<W>, level: u32) -> fmt::Result {
    match level {
        0 => write!(f, "a pointer into the stack frame"),
        1 => write!(f, "a pointer into the caller's stack frame"),
        calls => write!(f, "a pointer into the stack frame {calls} calls above"),
    }
}

/// Writes both ends of an interval, or its only number.
fn write_ends<W: fmt::Write>(f: &mut fmt::Formatter<W>, lo: i64, hi: i64) -> fmt::Result {
    if lo == hi {
        write!(f, "{lo}")
    } else {
        write!(f, "{lo} to {hi}")
    }
}
