//! The targets of jumps and calls.
ghost use Rattle.std.specs.Prelude.{◌≡◌, ◌<◌};
ghost use Rattle.fc_isa.specs.Flow.{call_offset, jump_offset, target};

use fc_isa::Insn;

/// Returns the offset of a jump, or `None` for any other instruction.
///
/// The offset counts slots from the slot after the jump.
pub(crate) fn jump_offset(insn: &Insn) -> Option<i32>
    ensures { result ≡ jump_offset insn.now }
{
    match insn {
        Insn::JumpAlways { offset } => Some(*offset as i32),
        Insn::JumpAlwaysLong { offset } => Some(*offset),
        Insn::JumpIf(jump) => Some(jump.offset as i32),
        _ => None,
    }
}

/// Returns the offset of a local call, or `None` for any other instruction.
///
/// The offset counts slots from the slot after the call.
pub(crate) fn call_offset(insn: &Insn) -> Option<i32>
    ensures { result ≡ call_offset insn.now }
{
    match insn {
        Insn::CallLocal { offset } => Some(*offset),
        _ => None,
    }
}

/// Returns the slot after `slot` plus the offset, or `None` if the sum is below 0.
pub(crate) fn target(slot: usize, offset: i32) -> Option<usize>
    requires { slot < 1024 }
    ensures { result ≡ target slot offset }
{
    let at = slot as i64 + 1 + offset as i64;
    if at >= 0 { Some(at as usize) } else { None }
}
