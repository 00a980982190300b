//! The loops of a program, by the slots at which they begin.
//!
//! The computation of the longest path and the verifier's pass look up the loops by slot.
ghost use Rattle.std.specs.Prelude.{length, ◌<◌, ◌≡◌, ◌≤◌};
ghost use Rattle.fc_image.specs.Loops.{loop_if, loops_in};
ghost use Rattle.fc_image.specs.Tables.{AreHeads, AreLow, headed};

use crate::limits::loops_allowed;
use crate::loops::{Loop, loop_at};
use crate::table::MOST_SLOTS;
use fc_isa::{ImageVersion, Insn};

/// Returns for each slot the loop that begins there, or `None` if none does.
///
/// A back jump and the addition before it make a loop, even if other instructions disturb the loop.
/// Of several loops with one head, the entry is the one with the first back jump.
pub fn loops_by_head(version: ImageVersion, code: &[Insn]) -> [Option<Loop>; MOST_SLOTS]
    requires { length code.now ≤ 1024 }
    ensures { AreHeads (loops_in version code.now) result }
{
    let allowed = loops_allowed(version);
    let mut heads = [None; MOST_SLOTS];
    let mut slot = code.len();
    while slot > 0 {
        slot -= 1;
        let ending = loop_if(allowed, code, slot, &code[slot]);
        put_head(&mut heads, &ending);
    }
    heads
}

/// Returns the loop of which an instruction would be the back jump, or `None`.
///
/// Returns `None` if loops aren't `allowed`, and the result of [`loop_at`] if they are. Other
/// instructions may still disturb the loop.
pub(crate) fn loop_if(allowed: bool, code: &[Insn], slot: usize, insn: &Insn) -> Option<Loop>
    requires count { length code.now ≤ 1024 }
    requires slot { slot < length code.now }
    ensures counted { result ≡ loop_if allowed code.now slot insn.now }
    ensures low { AreLow slot result }
{
    if allowed {
        loop_at(code, slot, insn)
    } else {
        None
    }
}

/// Stores a loop at its head; without a loop, nothing changes.
fn put_head(heads: &mut [Option<Loop>; MOST_SLOTS], ending: &Option<Loop>)
    requires { AreLow 1024 ending.now }
    ensures { heads.new ≡ headed heads.old ending.now }
{
    if let Some(counted) = ending {
        heads[counted.head] = Some(*counted);
    }
}
