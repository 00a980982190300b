//! The reasons why a jump back isn't that of a counted loop, for explanations.
//!
//! The check of counted loops calls `how_disturbed` too.
ghost use Rattle.std.specs.Prelude.{None, length, true, ◌<◌, ◌≡◌, ◌≤◌};
ghost use Rattle.fc_image.specs.Head.{loops_allowed};
ghost use Rattle.fc_image.specs.Loops.{loop_at};
ghost use Rattle.fc_image.specs.Uncounted.{IsCrossing, IsDisturbed, IsHow, IsReason, IsUncountedBy, is_below};

use crate::flow::{jump_offset, target};
use crate::limits::loops_allowed;
use crate::loops::{Loop, bound_of, is_exit, is_in, loop_at, step_of, writes};
use fc_isa::{ImageVersion, Insn, Jump, Operand, Relation, Width};

/// The reason why an instruction isn't the back jump of a counted loop.
#[derive(Clone, Copy)]
pub enum Uncounted {
    /// The image's version doesn't allow loops.
    NoLoops,
    /// The instruction isn't `jlt` with a register and an immediate, in 64 bits.
    Jump,
    /// The immediate isn't 1 to 1,024.
    Bound,
    /// The instruction before isn't an `add64` of 1 or more to the same register.
    Step,
    /// The target isn't an earlier slot.
    Target,
    /// The instruction `insn` at `slot` disturbs the loop that the jump would end.
    Disturbed {
        counted: Loop,
        slot: usize,
        insn: Insn,
        by: Disturbance,
    },
}

/// The way in which an instruction disturbs a loop.
#[derive(Clone, Copy)]
pub enum Disturbance {
    /// The instruction writes the counter in the body, and isn't the addition.
    Write,
    /// The instruction is an exit in the body.
    Exit,
    /// The instruction jumps out of the body.
    Leave,
    /// The instruction jumps into the body from outside.
    Enter,
    /// The instruction jumps past the addition, to the back jump.
    Skip,
}

/// Returns why a slot's instruction isn't a counted loop's back jump.
///
/// Returns `None` if it is one. The explanation of a refused jump prints the reason.
pub fn why_uncounted(
    version: ImageVersion,
    code: &[Insn],
    slot: usize,
    insn: &Insn,
) -> Option<Uncounted>
    requires count { length code.now ≤ 1024 }
    requires slot { slot < length code.now }
    ensures { IsReason (loops_allowed version) code.now slot insn.now result }
{
    if !loops_allowed(version) {
        return Some(Uncounted::NoLoops);
    }
    match loop_at(code, slot, insn) {
        Some(counted) => disturbed(code, &counted),
        None => Some(unformed(code, slot, insn)),
    }
}

/// Returns the missing part of an instruction that can't be a loop's back jump.
///
/// The result depends only on this instruction and the one before it.
fn unformed(code: &[Insn], slot: usize, insn: &Insn) -> Uncounted
    requires count { length code.now ≤ 1024 }
    requires slot { slot < length code.now }
    requires none { loop_at code.now slot insn.now ≡ None }
    ensures { IsUncountedBy true code.now slot insn.now result }
{
    match insn {
        Insn::JumpIf(jump) => unformed_jump(code, slot, jump),
        _ => Uncounted::Jump,
    }
}

/// Returns the missing part of a conditional jump that can't be a loop's back jump.
fn unformed_jump(code: &[Insn], slot: usize, jump: &Jump) -> Uncounted
    requires count { length code.now ≤ 1024 }
    requires slot { slot < length code.now }
    requires none { loop_at code.now slot (Insn.JumpIf jump.now) ≡ None }
    ensures { IsUncountedBy true code.now slot (Insn.JumpIf jump.now) result }
{
    if !is_below(jump) {
        return Uncounted::Jump;
    }
    if bound_of(jump).is_none() {
        return Uncounted::Bound;
    }
    if step_of(&code[slot.saturating_sub(1)], jump.left).is_none() {
        return Uncounted::Step;
    }
    Uncounted::Target
}

/// Returns whether a jump tests a register below an immediate, in 64 bits.
fn is_below(jump: &Jump) -> bool
    ensures { result ≡ is_below jump.now.width jump.now.relation jump.now.right }
{
    matches!(
        (jump.width, jump.relation, jump.right),
        (Width::W64, Relation::Lt, Operand::Imm(_))
    )
}

/// Returns an instruction that disturbs a loop, and how, or `None` if none does.
fn disturbed(code: &[Insn], counted: &Loop) -> Option<Uncounted>
    requires { length code.now ≤ 1024 }
    ensures { IsDisturbed code.now counted.now result }
{
    for (slot, insn) in code.iter().enumerate() {
        if let Some(by) = how_disturbed(counted, slot, insn) {
            return Some(Uncounted::Disturbed {
                counted: *counted,
                slot,
                insn: *insn,
                by,
            });
        }
    }
    None
}

/// Returns how an instruction disturbs a loop, or `None` if it doesn't.
///
/// The check of loops and the explanation of a refused jump call this function.
pub(crate) fn how_disturbed(counted: &Loop, slot: usize, insn: &Insn) -> Option<Disturbance>
    requires { slot < 1024 }
    ensures { IsHow counted.now slot insn.now result }
{
    if is_in(counted, slot) && writes(insn, counted.counter.index()) && slot + 1 != counted.last {
        return Some(Disturbance::Write);
    }
    if is_in(counted, slot) && is_exit(insn) {
        return Some(Disturbance::Exit);
    }
    match jump_offset(insn) {
        Some(offset) => crossing(counted, slot, target(slot, offset)),
        None => None,
    }
}

/// Returns how a jump from a slot to a place crosses a loop.
///
/// Returns `None` if the jump doesn't cross the loop. Without a place, the jump leads below slot 0
/// and crosses no loop.
fn crossing(counted: &Loop, slot: usize, place: Option<usize>) -> Option<Disturbance>
    ensures { IsCrossing counted.now slot place result }
{
    let place = place?;
    match (is_in(counted, slot), is_in(counted, place)) {
        (true, false) => Some(Disturbance::Leave),
        (false, true) => Some(Disturbance::Enter),
        _ if place == counted.last => Some(Disturbance::Skip),
        _ => None,
    }
}
