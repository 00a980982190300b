//! The condition that a list of slots is a program: wide loads have both halves.
ghost use Rattle.std.specs.Prelude.{◌≡◌};
ghost use Rattle.fc_isa.specs.Program as programs;

use crate::insn::Insn;

/// Returns whether each wide load is followed by its second half.
///
/// Returns `false` if a second half is anywhere else. The empty list is a program. `encode`
/// requires `true` of its program, and each list that `decode` returns gives `true`.
pub fn is_program(slots: &[Insn]) -> bool
    ensures { result ≡ programs.is_program slots.now }
{
    let mut second = false;
    for slot in slots {
        if is_wide_second(slot) != second {
            return false;
        }
        second = is_wide_load(slot);
    }
    !second
}

/// Returns whether a slot is a wide load, which its second half must follow.
pub(crate) fn is_wide_load(insn: &Insn) -> bool
    ensures { result ≡ programs.is_wide_load insn.now }
{
    matches!(insn, Insn::LoadWide { .. })
}

/// Returns whether a slot is the second half of a wide load.
fn is_wide_second(insn: &Insn) -> bool
    ensures { result ≡ programs.is_wide_second insn.now }
{
    matches!(insn, Insn::WideSecond)
}
