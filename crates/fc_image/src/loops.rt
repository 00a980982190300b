//! Counted loops.
//!
//! Such a loop ends with `add64 r, c`, directly followed by `jlt r, n` back to its head.
ghost use Rattle.std.specs.Prelude.{Some, length, ◌<◌, ◌||◌, ◌≡◌, ◌≤◌};
ghost use Rattle.fc_isa.specs.Writes.{computes, is_call, is_that, writes};
ghost use Rattle.fc_image.specs.Loops.{bound_of, disturbs, is_exit, is_in, is_undisturbed, loop_at, loop_by, step_of};
ghost use Rattle.fc_image.specs.Spans.{AreSpans, is_jumped_into};

use crate::flow::target;
use crate::spans::Span;
use crate::table::MOST_SLOTS;
use crate::uncounted::how_disturbed;
use fc_isa::{AluOp, Insn, Jump, Operand, Reg, Relation, Target, Width};

/// A counted loop.
///
/// Its body is the slots from `head` to `last`. Each iteration adds `step` to the register
/// `counter`, and the back jump at `last` is taken while the register is below `bound`.
#[derive(Clone, Copy)]
pub struct Loop {
    pub head: usize,
    pub last: usize,
    pub counter: Reg,
    pub bound: u32,
    pub step: u32,
}

/// Returns whether an instruction is the back jump of a counted loop.
///
/// Returns `false` if an instruction of the program disturbs the loop. `spans` has the sources of
/// the jumps to each slot.
pub(crate) fn is_counted(
    code: &[Insn],
    spans: &[Option<Span>; MOST_SLOTS],
    slot: usize,
    insn: &Insn,
) -> bool
    requires count { length code.now ≤ 1024 }
    requires spans { AreSpans code.now (length code.now) spans.now }
    requires slot { slot < length code.now }
    ensures { result ≡ is_undisturbed code.now (loop_at code.now slot insn.now) }
{
    match loop_at(code, slot, insn) {
        Some(candidate) => is_undisturbed(code, spans, &candidate),
        None => false,
    }
}

/// Returns the loop of which an instruction would be the back jump, or `None`.
///
/// There is a loop if the jump has a bound and leads to an earlier slot, and the instruction before
/// the jump has a step. Other instructions may still disturb the loop.
pub(crate) fn loop_at(code: &[Insn], slot: usize, insn: &Insn) -> Option<Loop>
    requires count { length code.now ≤ 1024 }
    requires slot { slot < length code.now }
    ensures { result ≡ loop_at code.now slot insn.now }
{
    match insn {
        Insn::JumpIf(jump) => loop_by(
            slot,
            jump,
            bound_of(jump),
            step_of(&code[slot.saturating_sub(1)], jump.left),
        ),
        _ => None,
    }
}

/// Returns the loop that a jump ends with this bound and this step.
///
/// Returns `None` if the bound or the step is missing, or if the jump leads to no earlier slot.
fn loop_by(slot: usize, jump: &Jump, bound: Option<u32>, step: Option<u32>) -> Option<Loop>
    requires { slot < 1024 }
    ensures { result ≡ loop_by slot jump.now bound step }
{
    let head = target(slot, jump.offset as i32).unwrap_or(slot);
    match (bound, step) {
        (Some(bound), Some(step)) if head < slot => Some(Loop {
            head,
            last: slot,
            counter: jump.left,
            bound,
            step,
        }),
        _ => None,
    }
}

/// Returns the bound of a back jump, or `None` if the jump can't be a back jump.
///
/// A back jump is taken if a whole register is below the bound, an immediate of 1 to 1,024.
pub(crate) fn bound_of(jump: &Jump) -> Option<u32>
    ensures { result ≡ bound_of jump.now.width jump.now.relation jump.now.right }
{
    match (jump.width, jump.relation, jump.right) {
        (Width::W64, Relation::Lt, Operand::Imm(bound)) if bound >= 1 && bound <= 1024 => {
            Some(bound as u32)
        }
        _ => None,
    }
}

/// Returns the step of an instruction that counts a register up, or `None`.
///
/// The step is the immediate of an `add64` to the register `counter`, if it is 1 or more. For any
/// other instruction the result is `None`.
pub(crate) fn step_of(insn: &Insn, counter: Reg) -> Option<u32>
    ensures { result ≡ step_of (Some insn.now) counter }
{
    match insn {
        Insn::Alu {
            op: AluOp::Add,
            width: Width::W64,
            dst,
            operand: Operand::Imm(step),
        } if dst.number() == counter.number() && *step >= 1 => Some(*step as u32),
        _ => None,
    }
}

/// Returns whether no instruction of a program disturbs a loop.
///
/// The function checks only the body's instructions, and the sources of the jumps to them. `spans`
/// has these sources.
fn is_undisturbed(code: &[Insn], spans: &[Option<Span>; MOST_SLOTS], counted: &Loop) -> bool
    requires count { length code.now ≤ 1024 }
    requires spans { AreSpans code.now (length code.now) spans.now }
    requires order { counted.now.head < counted.now.last }
    requires last { counted.now.last < length code.now }
    ensures { result ≡ is_undisturbed code.now (Some counted.now) }
{
    for slot in counted.head..counted.last + 1 {
        if is_disturbed(counted, slot, &code[slot], &spans[slot]) {
            return false;
        }
    }
    true
}

/// Returns whether an instruction of the body, or a jump to it, disturbs a loop.
///
/// `span` has the sources of the jumps to the slot.
fn is_disturbed(counted: &Loop, slot: usize, insn: &Insn, span: &Option<Span>) -> bool
    requires { slot < 1024 }
    ensures { result ≡ (disturbs counted.now slot insn.now || is_jumped_into counted.now slot span.now) }
{
    how_disturbed(counted, slot, insn).is_some() || is_jumped_into(counted, slot, span)
}

/// Returns whether a jump leads to this slot from outside the body.
///
/// Returns `true` for any jump to the loop's back jump. `span` has the sources of the jumps to the
/// slot; if there are none, returns `false`.
fn is_jumped_into(counted: &Loop, slot: usize, span: &Option<Span>) -> bool
    ensures { result ≡ is_jumped_into counted.now slot span.now }
{
    match span {
        Some(span) => slot == counted.last
            || (span.least as usize) < counted.head
            || counted.last < span.greatest as usize,
        None => false,
    }
}

/// Returns whether a slot is in a loop's body, both ends included.
pub(crate) fn is_in(counted: &Loop, slot: usize) -> bool
    ensures { result ≡ is_in counted.now slot }
{
    counted.head <= slot && slot <= counted.last
}

pub(crate) fn is_exit(insn: &Insn) -> bool
    ensures { result ≡ is_exit insn.now }
{
    matches!(insn, Insn::Exit)
}

/// Returns whether an instruction writes a register; a call writes R0 to R5.
pub fn writes(insn: &Insn, register: usize) -> bool
    ensures { result ≡ writes insn.now register }
{
    is_that(computes(insn), register) || is_call(insn) && register <= 5
}

/// Returns whether the computed register, if any, has this number.
fn is_that(dst: Option<Target>, register: usize) -> bool
    ensures { result ≡ is_that dst register }
{
    match dst {
        Some(dst) => dst.index() == register,
        None => false,
    }
}

/// Returns the register that an instruction computes, or `None` if there is none.
///
/// Calls compute no register, though they write R0 to R5.
pub fn computes(insn: &Insn) -> Option<Target>
    ensures { result ≡ computes insn.now }
{
    match insn {
        Insn::Alu { dst, .. } | Insn::Unary { dst, .. } | Insn::SignExtend { dst, .. } => Some(
            *dst,
        ),
        Insn::LoadWide { dst, .. } | Insn::Load { dst, .. } => Some(*dst),
        _ => None,
    }
}

/// Returns whether an instruction calls a helper or a local function.
pub fn is_call(insn: &Insn) -> bool
    ensures { result ≡ is_call insn.now }
{
    matches!(insn, Insn::CallHelper { .. } | Insn::CallLocal { .. })
}
