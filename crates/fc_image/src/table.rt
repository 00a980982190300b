//! The tables for the control-flow checks of a program.
ghost use Rattle.std.specs.Prelude.{length, ◌≤◌};
ghost use Rattle.fc_image.specs.Judged.{AreTables};

use crate::cost::longest_cost;
use crate::functions::{deepest, starts, starts_counted};
use crate::head_table::loops_by_head;
use crate::limits::loops_allowed;
use crate::spans::{Span, spans};
use fc_isa::{ImageVersion, Insn};

/// Maximum number of slots of any program.
pub const MOST_SLOTS: usize = 1024;

/// Facts about a whole program, for the checks of its slots.
#[derive(Drop)]
pub(crate) struct Tables {
    /// For each slot, whether a function starts there.
    pub(crate) starts: [bool; MOST_SLOTS],
    /// The number of functions that start at or before each slot.
    pub(crate) counts: [u16; MOST_SLOTS],
    /// The sources of the jumps to each slot.
    pub(crate) spans: [Option<Span>; MOST_SLOTS],
    /// The maximum depth of stack frames of calls, capped at 9.
    pub(crate) frames: u8,
    /// The steps of the longest path, capped at 65,537.
    pub(crate) cost: u32,
}

impl Tables {
    /// Computes the tables of a program of this version.
    pub(crate) fn of(version: ImageVersion, code: &[Insn]) -> Self
        requires { length code.now ≤ 1024 }
        ensures { AreTables version code.now result }
    {
        let starts = starts(code);
        let counts = starts_counted(code, &starts);
        let frames = deepest(code, &starts);
        let heads = loops_by_head(version, code);
        Tables {
            starts,
            counts,
            spans: spans(code),
            frames,
            cost: longest_cost(code, &heads, loops_allowed(version)),
        }
    }
}
