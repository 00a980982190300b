//! The states at the heads of counted loops: loop invariants.
ghost use Rattle.std.specs.Prelude.{Some, ◌<◌, ◌≡◌};
ghost use Rattle.fc_isa.specs.Writes.{computes};
ghost use Rattle.fc_image.specs.Loops.{body, has_call, is_written};
ghost use Rattle.fc_verify.specs.Heads.{IsLoopOf, any_number, enters, formed, formed_kind, gives_number, settled};
ghost use Rattle.fc_verify.specs.Stages.{IsUnnumbered};
ghost use Rattle.fc_kinds.specs.Kinds.{kind_at};

use crate::untyped::Demand;
use fc_image::loops::{Loop, computes, is_call, writes};
use fc_isa::Insn;
use fc_kinds::{Kind, Regs};

/// Returns the loop invariant for a head that is found with the state `regs`.
///
/// The invariant is the least state that a head may have and that contains `regs`. Returns `None`
/// if the loop's counter doesn't start below the bound.
#[tactic(auto, unfolding(crate::specs::Heads::settled))]
pub(crate) fn settled(code: &[Insn], counted: &Loop, regs: &Regs) -> Option<Regs>
    requires { IsLoopOf code.now (Some counted.now) }
    ensures { result ≡ settled code.now (Some counted.now) regs.now }
{
    if enters(counted, &regs[counted.counter.index()]) {
        Some(formed(code, counted, regs))
    } else {
        None
    }
}

/// Returns whether a counter's abstract value is a number below the loop's bound.
fn enters(counted: &Loop, kind: &Kind) -> bool
    ensures { result ≡ enters counted.now kind.now }
{
    match kind {
        Kind::Num { hi, .. } => *hi < counted.bound as u64,
        _ => false,
    }
}

/// Returns the loop invariant for a head, wherever the counter starts.
///
/// It is the result of `settled` if the counter starts below the bound. Otherwise it is used to
/// explain a refusal.
pub(crate) fn formed(code: &[Insn], counted: &Loop, regs: &Regs) -> Regs
    requires { IsLoopOf code.now (Some counted.now) }
    ensures { result ≡ formed code.now counted.now regs.now }
{
    [
        formed_kind(code, counted, 0, regs),
        formed_kind(code, counted, 1, regs),
        formed_kind(code, counted, 2, regs),
        formed_kind(code, counted, 3, regs),
        formed_kind(code, counted, 4, regs),
        formed_kind(code, counted, 5, regs),
        formed_kind(code, counted, 6, regs),
        formed_kind(code, counted, 7, regs),
        formed_kind(code, counted, 8, regs),
        formed_kind(code, counted, 9, regs),
        formed_kind(code, counted, 10, regs),
    ]
}

/// Returns the abstract value of a register in the loop invariant.
///
/// The counter is below the bound. If the body has a call, R1 to R5 are unset. Any other register
/// that the body writes is any number if it is a number in `regs`, and otherwise unset.
fn formed_kind(code: &[Insn], counted: &Loop, register: usize, regs: &Regs) -> Kind
    requires body { IsLoopOf code.now (Some counted.now) }
    requires register { register < 11 }
    ensures { result ≡ formed_kind code.now counted.now register (kind_at regs.now register) }
{
    if register == counted.counter.index() {
        return Kind::Num {
            lo: 0,
            hi: counted.bound as u64 - 1,
        };
    }
    if has_call(code, counted) && (1 <= register && register <= 5) {
        return Kind::Unset;
    }
    if is_written(code, counted, register) {
        any_number(&regs[register])
    } else {
        regs[register]
    }
}

/// Returns the interval of all numbers for a number, and `Unset` otherwise.
fn any_number(kind: &Kind) -> Kind
    ensures { result ≡ any_number kind.now }
{
    match kind {
        Kind::Num { .. } => Kind::Num {
            lo: 0,
            hi: u64::MAX,
        },
        _ => Kind::Unset,
    }
}

/// Returns whether an instruction of the body writes a register.
#[tactic(auto, unfolding(fc_image::specs::Loops::is_written))]
fn is_written(code: &[Insn], counted: &Loop, register: usize) -> bool
    requires { IsLoopOf code.now (Some counted.now) }
    ensures { result ≡ is_written code.now counted.now register }
{
    code[counted.head..counted.last + 1]
        .iter()
        .any(|insn| writes(insn, register))
}

/// Returns whether an instruction of the body is a call.
#[tactic(auto, unfolding(fc_image::specs::Loops::has_call))]
fn has_call(code: &[Insn], counted: &Loop) -> bool
    requires { IsLoopOf code.now (Some counted.now) }
    ensures { result ≡ has_call code.now counted.now }
{
    code[counted.head..counted.last + 1].iter().any(is_call)
}

/// Returns whether the register that an instruction computes, if any, is a number.
///
/// `after` is the state after the instruction. Returns `true` if the instruction computes no
/// register.
pub(crate) fn gives_number(insn: &Insn, after: &Regs) -> bool
    ensures { result ≡ gives_number (computes insn.now) after.now }
{
    match computes(insn) {
        Some(register) => matches!(after[register.index()], Kind::Num { .. }),
        None => true,
    }
}

/// Returns the demand of a loop's body that an instruction breaks, or `None`.
///
/// In a body (`inside`), the register that the instruction computes must be a number in the state
/// `after` it. Elsewhere nothing is demanded.
pub(crate) fn unnumbered(inside: bool, insn: &Insn, after: &Regs) -> Option<Demand>
    ensures { IsUnnumbered inside insn.now after.now result }
{
    let register = computes(insn)?;
    let given = after[register.index()];
    if inside && !matches!(given, Kind::Num { .. }) {
        Some(Demand::Number { register, given })
    } else {
        None
    }
}
