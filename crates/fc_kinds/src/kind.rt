//! Abstract values of registers.
ghost use Rattle.std.specs.Prelude.{◌≡◌};
ghost use Rattle.fc_kinds.specs.Entry.{entry};

use fc_isa::ImageVersion;

/// A register's abstract value.
#[derive(Clone, Copy, PartialEq, Eq)]
pub enum Kind {
    /// Any value or none; the register can't be read.
    Unset,
    /// A number from `lo` to `hi`.
    Num { lo: u64, hi: u64 },
    /// A pointer into a stack frame, at an offset from `lo` to `hi`.
    ///
    /// The frame is `level` frames above the current one, towards the first.
    Stack { level: u32, lo: i64, hi: i64 },
    /// A pointer into the request.
    Req { lo: i64, hi: i64 },
    /// A pointer into the variables.
    Vars { lo: i64, hi: i64 },
    /// A pointer into the readings.
    Dev { lo: i64, hi: i64 },
}

/// The abstract state: the abstract values of the eleven registers.
pub type Regs = [Kind; 11];

/// Returns the abstract state at the entry of a program of this version.
///
/// R1 points to the request, and R2 to the variables. R3 is the payload's length, and R10 points to
/// the end of the stack frame of 256 bytes. In version 2 R4 points to the readings. All other
/// registers are unset.
pub fn entry(version: ImageVersion) -> Regs
    ensures { result ≡ entry version }
{
    let unset = Kind::Unset;
    let readings = match version {
        ImageVersion::One => Kind::Unset,
        ImageVersion::Two => Kind::Dev { lo: 0, hi: 0 },
    };
    [
        unset,
        Kind::Req { lo: 0, hi: 0 },
        Kind::Vars { lo: 0, hi: 0 },
        Kind::Num { lo: 0, hi: 1024 },
        readings,
        unset,
        unset,
        unset,
        unset,
        unset,
        Kind::Stack {
            level: 0,
            lo: 256,
            hi: 256,
        },
    ]
}
