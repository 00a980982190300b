//! Calls: arguments, effects, and the abstract state at a callee's start.
ghost use Rattle.std.specs.Prelude.{IfErr, IfOk, None, Some, ◌≡◌, ◌≤◌};
ghost use Rattle.fc_isa.specs.Rules.{number_of};
ghost use Rattle.fc_kinds.specs.Containing.{AreKinds, IsKind};
ghost use Rattle.fc_kinds.specs.Transfer.{after_call, are_arguments, are_bytes, enter, helped_kinds, raised, returned, transfer};
ghost use Rattle.fc_kinds.specs.Containing.{AreShallow, IsShallow};

use crate::interval::all;
use crate::kind::{Kind, Regs};
use crate::operands::{is_number, num};
use crate::pointers::may_read;
use fc_help::{Arguments, Helper, Signature, helper_of, signature_of};
use fc_isa::{Insn, Rule, Width};

/// Returns the abstract state at the start of a function after a local call.
///
/// `regs` is the caller's state. R1 to R5 are passed; the level of a pointer into a stack frame
/// becomes one greater. R10 points to the end of a fresh frame, and all other registers are unset.
/// Levels must be below 1,024.
pub fn enter(regs: &Regs) -> Regs
    requires { AreShallow 1023 regs.now }
    ensures { result ≡ enter regs.now }
{
    let frame_end = Kind::Stack {
        level: 0,
        lo: 256,
        hi: 256,
    };
    let unset = Kind::Unset;
    [
        unset,
        raised(regs[1]),
        raised(regs[2]),
        raised(regs[3]),
        raised(regs[4]),
        raised(regs[5]),
        unset,
        unset,
        unset,
        unset,
        frame_end,
    ]
}

/// Returns an abstract value as a callee has it.
///
/// The level of a pointer into a stack frame is one greater, and any other value doesn't change.
fn raised(kind: Kind) -> Kind
    requires { IsShallow 1023 kind }
    ensures { result ≡ raised kind }
{
    match kind {
        Kind::Stack { level, lo, hi } => Kind::Stack {
            level: level + 1,
            lo,
            hi,
        },
        other => other,
    }
}

/// Updates the abstract state to that after a local call.
///
/// R0 is any number, R1 to R5 are unset, and the other registers don't change.
pub(crate) fn returned(regs: &mut Regs)
    ensures { regs.new ≡ returned regs.old }
{
    after_call(num(all(Width::W64)), regs);
}

/// Updates the abstract state to that after a call with this result.
///
/// R0 is `answer`, R1 to R5 are unset, and the other registers don't change.
fn after_call(answer: Kind, regs: &mut Regs)
    ensures { regs.new ≡ after_call answer regs.old }
{
    let unset = Kind::Unset;
    *regs = [
        answer, unset, unset, unset, unset, unset, regs[6], regs[7], regs[8], regs[9], regs[10],
    ];
}

/// Updates the abstract state to that after a call of a helper.
///
/// # Errors
/// Returns the broken rule if the helper doesn't exist, or if an argument is unset or isn't one
/// that the helper accepts. The state then doesn't change.
#[tactic(auto, unfolding(crate::specs::Transfer::transfer))]
pub(crate) fn call_helper(number: i32, regs: &mut Regs, vars_size: u16) -> Result<(), Rule>
    requires { AreKinds regs.old }
    ensures after { IfOk result (λ u. transfer vars_size (Insn.CallHelper number) regs.old ≡ Some regs.new) }
    ensures refused { IfErr result (λ rule. transfer vars_size (Insn.CallHelper number) regs.old ≡ None) }
    ensures kept { IfErr result (λ rule. regs.new ≡ regs.old) }
    ensures rule { IfErr result (λ rule. (20 ≤ number_of rule) × (number_of rule ≤ 27)) }
{
    match helper_of(number) {
        None => Err(Rule::HelperArgument),
        Some(helper) => helped_kinds(helper, regs, vars_size),
    }
}

/// Updates the abstract state to that after a call of this helper.
///
/// If the helper lacks an argument that it requires, the state doesn't change.
///
/// # Errors
/// Returns the broken rule if an argument is unset or isn't one that the helper accepts.
fn helped_kinds(helper: Helper, regs: &mut Regs, vars_size: u16) -> Result<(), Rule>
    requires { AreKinds regs.old }
    ensures after { IfOk result (λ u. helped_kinds vars_size regs.old helper ≡ Some regs.new) }
    ensures refused { IfErr result (λ rule. helped_kinds vars_size regs.old helper ≡ None) }
    ensures kept { IfErr result (λ rule. regs.new ≡ regs.old) }
    ensures rule { IfErr result (λ rule. (20 ≤ number_of rule) × (number_of rule ≤ 27)) }
{
    let Signature { arguments, most } = signature_of(helper);
    if are_arguments(vars_size, arguments, regs) {
        after_call(Kind::Num { lo: 0, hi: most }, regs);
        Ok(())
    } else {
        Err(argument_fault(arguments, regs))
    }
}

/// Returns whether R1, or R1 and R2, are `arguments` as a helper requires them.
fn are_arguments(vars_size: u16, arguments: Arguments, regs: &Regs) -> bool
    requires { AreKinds regs.now }
    ensures { result ≡ are_arguments vars_size arguments regs.now }
{
    match arguments {
        Arguments::NoArgument => true,
        Arguments::OneNumber => is_number(regs[1]),
        Arguments::TwoNumbers => is_number(regs[1]) && is_number(regs[2]),
        Arguments::Bytes => are_bytes(vars_size, regs[1], regs[2]),
    }
}

/// Returns whether a helper may read the `count` bytes from `pointer` on.
///
/// They must be in the pointer's region, for each offset of `pointer` and the greatest value of
/// `count`. The region of the variables has `vars_size` bytes. Returns `false` if `pointer` isn't a
/// pointer, or if `count` isn't a number of at most 65,535.
fn are_bytes(vars_size: u16, pointer: Kind, count: Kind) -> bool
    requires { IsKind pointer }
    ensures { result ≡ are_bytes vars_size pointer count }
{
    match count {
        Kind::Num { hi, .. } if hi <= 65_535 => may_read(vars_size, hi as u16, 0, pointer),
        _ => false,
    }
}

/// Returns the rule that refused arguments break.
///
/// An unset register is reported first. The contract says only that the rule is one from 20 to 27.
fn argument_fault(arguments: Arguments, regs: &Regs) -> Rule
    ensures { (20 ≤ number_of result) × (number_of result ≤ 27) }
{
    match (arguments, regs[1], regs[2]) {
        (Arguments::OneNumber, Kind::Unset, _) => Rule::UnsetRegister,
        (Arguments::TwoNumbers | Arguments::Bytes, Kind::Unset, _) => Rule::UnsetRegister,
        (Arguments::TwoNumbers | Arguments::Bytes, _, Kind::Unset) => Rule::UnsetRegister,
        _ => Rule::HelperArgument,
    }
}
