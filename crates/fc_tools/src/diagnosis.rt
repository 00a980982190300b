//! Diagnoses: the broken rule of an image, and the evidence for it.
ghost use Rattle.std.specs.Prelude.{IfErr, IfOk, Some, None, length, true, ◌≡◌, ◌+◌, ◌*◌, ◌<◌, ◌≤◌, take, drop, slice_get};
ghost use Rattle.fc_image.specs.Judged.{IsCostOf};
ghost use Rattle.fc_image.specs.Paths.{longest};
ghost use Rattle.fc_image.specs.ShapeRules.{shape_fault};
ghost use Rattle.fc_isa.specs.declared.rule.Rule.TheVariants.{BackwardJump};
ghost use Rattle.fc_isa.specs.Program.{is_program};
ghost use Rattle.fc_isa.specs.Rules.{number_of};
ghost use Rattle.fc_verify.specs.Stages.{IsCodeOf, IsHeadOf};
ghost use Rattle.fc_tools.specs.Diagnosed.{BreaksFlow, IsAcceptable, IsCost, IsRejection, IsShapeCause};

use fc_image::laws::shape_fault_is_first;
use fc_image::uncounted::{Uncounted, why_uncounted};
use fc_image::{HEADER_SIZE, Head, head, shape};
use fc_isa::{DecodeError, Fault, Insn, Rule, decode};
use fc_kinds::Regs;
use fc_verify::pass::typed;
use fc_verify::{Demand, Untyped};
use std::alloc::{AllocError, Global};
use std::fmt;

/// The greatest budget of an image, in steps.
pub const GREATEST_BUDGET: u32 = 65_536;

/// A broken rule of an image, and the evidence for it.
///
/// It prints like its fault: `V16 slot 0`.
#[derive(Clone, Copy)]
pub struct Diagnosis {
    /// The first broken rule, and its slot.
    ///
    /// If only the typing is missing, the rule is one from 20 to 28.
    pub fault: Fault,
    /// The evidence.
    pub cause: Cause,
}

impl fmt::Display for Diagnosis {
    ghost use Rattle.std.specs.Prelude.{Some};
    ghost use Rattle.fc_isa.specs.Rules.{number_of, fault_text};

    ghost output = { λ d. Some (fault_text (number_of d.fault.rule) d.fault.slot) };

    fn fmt<W: fmt::Write>(&self, f: &mut fmt::Formatter<W>) -> fmt::Result {
        write!(f, "{}", self.fault)
    }
}

impl fmt::Debug for Diagnosis {
    fn fmt<W: fmt::Write>(&self, f: &mut fmt::Formatter<W>) -> fmt::Result {
        write!(f, "Diagnosis({:?})", self.fault)
    }
}

/// The evidence that a rule is broken.
#[derive(Clone, Copy)]
pub enum Cause {
    /// The header; no other evidence is given.
    Header,
    /// The bytes of a slot that encodes no instruction.
    Slot([u8; 8]),
    /// The slot's instruction, at its place.
    Flow(Insn),
    /// The slot's instruction, a jump that leads to no later slot.
    ///
    /// `reason` says why the jump isn't that of a counted loop.
    Back {
        insn: Insn,
        reason: Uncounted,
    },
    /// All calls of the program; the slot by itself shows nothing.
    Frames,
    /// The cost and the budget, in steps.
    ///
    /// The cost is the number of steps of the longest path. The cost is `None` if that number is
    /// above the greatest budget, or if another rule of the control flow is broken.
    Cost {
        cost: Option<u32>,
        budget: u32,
    },
    /// The slot's instruction, and the demand that isn't met.
    ///
    /// `known` has the registers' abstract values before the instruction.
    Typing {
        insn: Insn,
        known: Regs,
        demand: Demand,
    },
}

/// The reason why an image isn't accepted.
#[derive(Clone, Copy)]
pub enum Rejection {
    /// The image breaks a rule.
    Broken(Diagnosis),
    /// Memory for the diagnosis couldn't be allocated.
    NoMemory,
}

impl From<Diagnosis> for Rejection {
    ghost use Rattle.std.specs.Prelude.{◌≡◌};
    ghost use Rattle.fc_tools.specs.declared.diagnosis.Rejection.TheVariants.{Broken};

    ghost from_gives = { λ d e. e ≡ Broken d };

    fn from(diagnosis: Diagnosis) -> Self {
        Rejection::Broken(diagnosis)
    }
}

impl From<AllocError> for Rejection {
    ghost use Rattle.std.specs.Prelude.{◌≡◌};
    ghost use Rattle.fc_tools.specs.declared.diagnosis.Rejection.TheVariants.{NoMemory};

    ghost from_gives = { λ _ e. e ≡ NoMemory };

    fn from(_error: AllocError) -> Self {
        Rejection::NoMemory
    }
}

/// Verifies an image, and returns the evidence for a broken rule as the error.
///
/// If `verify` refuses an image, the commands call this function to explain why.
///
/// # Errors
/// Returns `Broken` with the first broken rule and its evidence. If only the typing is missing, the
/// rule is one from 20 to 28. Returns `NoMemory` if memory can't be allocated, but only for an
/// image whose header breaks no rule.
pub fn diagnose(alloc: Global, image: &[u8]) -> Result<(), Rejection>
    ensures accepted { IfOk result (λ u. IsAcceptable image.now) }
    ensures rejected { IfErr result (IsRejection image.now) }
{
    let head = read_head(image)?;
    let room = Vec::with_capacity(alloc, head.count() as usize)?;
    let code = read_code(alloc, image, &head)?;
    shape_fault_is_first();
    let _cost = shape_cost(&head, &code)?;
    match typed(head.version(), head.vars_size(), &code, room) {
        Ok(_) => Ok(()),
        Err(untyped) => Err(Rejection::Broken(typing(&code, &untyped))),
    }
}

/// Parses the header of an image.
///
/// # Errors
/// Returns the least rule of the header, 1 to 5, that the image breaks.
pub(crate) fn read_head(image: &[u8]) -> Result<Head, Rejection>
    ensures head { IfOk result (IsHeadOf image.now) }
    ensures rejected { IfErr result (IsRejection image.now) }
{
    match head(image) {
        Ok(head) => Ok(head),
        Err(fault) => Err(Rejection::Broken(Diagnosis {
            fault,
            cause: Cause::Header,
        })),
    }
}

/// Decodes the program in the slots.
///
/// # Errors
/// Returns the first slot that breaks a rule, 6 to 10, with its bytes; or `NoMemory` if memory
/// can't be allocated.
pub(crate) fn read_code(alloc: Global, image: &[u8], head: &Head) -> Result<Vec<Insn>, Rejection>
    requires { IsHeadOf image.now head.now }
    ensures code { IfOk result (λ code. IsCodeOf image.now code.items) }
    ensures rejected { IfErr result (IsRejection image.now) }
{
    match decode(alloc, &image[HEADER_SIZE..]) {
        Ok(code) => Ok(code),
        Err(DecodeError::Fault(fault)) => Err(Rejection::Broken(Diagnosis {
            fault,
            cause: Cause::Slot(slot_bytes(image, fault.slot)),
        })),
        Err(DecodeError::NoMemory) => Err(Rejection::NoMemory),
    }
}

/// Returns the bytes of a slot.
fn slot_bytes(image: &[u8], slot: usize) -> [u8; 8]
    requires { 16 + 8 * slot + 8 ≤ length image.now }
    ensures { result ≡ take 8 (drop (16 + 8 * slot) image.now) }
{
    let mut bytes = [0; 8];
    let start = HEADER_SIZE + 8 * slot;
    bytes.copy_from_slice(&image[start..start + 8]);
    bytes
}

/// Computes the cost of a program: the most steps on any path to its exit.
///
/// Diagnoses and the budget `auto` use the cost.
///
/// # Errors
/// Returns the least rule of the control flow, 11 to 17, that a slot breaks, with the evidence.
pub fn shape_cost(head: &Head, code: &[Insn]) -> Result<u32, Diagnosis>
    requires count { length code.now ≡ head.now.count }
    requires whole { is_program code.now ≡ true }
    ensures shape { IfOk result (IsCostOf head.now code.now) }
    ensures cost { IfOk result (λ cost. (shape_fault head.now code.now ≡ None) × (cost ≡ longest head.now.version code.now)) }
    ensures fault { IfErr result (λ d. shape_fault head.now code.now ≡ Some (d.fault.slot, d.fault.rule)) }
    ensures cause { IfErr result (λ d. IsShapeCause head.now code.now d.fault d.cause) }
{
    shape_fault_is_first();
    match shape(head, code) {
        Ok(cost) => Ok(cost),
        Err(fault) => Err(Diagnosis {
            fault,
            cause: shape_cause(head, code, fault),
        }),
    }
}

/// Returns the evidence that a rule of the control flow is broken.
fn shape_cause(head: &Head, code: &[Insn], fault: Fault) -> Cause
    requires count { length code.now ≡ head.now.count }
    requires whole { is_program code.now ≡ true }
    requires slot { fault.slot < length code.now }
    requires rule { (11 ≤ number_of fault.rule) × (number_of fault.rule ≤ 17) }
    requires broken { BreaksFlow head.now code.now fault.slot fault.rule }
    ensures { IsShapeCause head.now code.now fault result }
{
    match fault.rule {
        Rule::BackwardJump => back(head, code, fault.slot),
        Rule::Cost => Cause::Cost {
            cost: cost_of(head, code),
            budget: head.budget(),
        },
        Rule::FrameDepth => Cause::Frames,
        _ => Cause::Flow(code[fault.slot]),
    }
}

/// Returns the evidence that the jump at a slot goes back without a counted loop.
///
/// The jump leads to no later slot. The evidence has the reason why the jump isn't that of a
/// counted loop.
#[tactic(auto, unfolding(fc_image::specs::ShapeRules::breaks_shape))]
fn back(head: &Head, code: &[Insn], slot: usize) -> Cause
    requires count { length code.now ≡ head.now.count }
    requires slot { slot < length code.now }
    requires broken { BreaksFlow head.now code.now slot BackwardJump }
    ensures { IsShapeCause head.now code.now (record { rule = BackwardJump; slot = slot }) result }
{
    // This call gives the checker the maximum number of slots.
    let _slots = head.count();
    let insn = code[slot];
    match why_uncounted(head.version(), code, slot, &insn) {
        Some(reason) => Cause::Back { insn, reason },
        None => unreachable!(),
    }
}

/// Returns the cost of a program, if it is at most the greatest budget.
///
/// Returns `None` if the cost is more, or if another rule of the control flow is broken.
fn cost_of(head: &Head, code: &[Insn]) -> Option<u32>
    requires count { length code.now ≡ head.now.count }
    requires whole { is_program code.now ≡ true }
    ensures { IsCost head.now code.now result }
{
    shape(&head.with_budget(GREATEST_BUDGET), code).ok()
}

/// Returns the diagnosis of a missing typing.
fn typing(code: &[Insn], untyped: &Untyped) -> Diagnosis
    requires { untyped.now.fault.slot < length code.now }
    ensures fault { result.fault ≡ untyped.now.fault }
    ensures cause { (insn : Insn) → slice_get code.now untyped.now.fault.slot ≡ Some insn
        → result.cause ≡ Cause.Typing insn untyped.now.known untyped.now.demand }
{
    Diagnosis {
        fault: untyped.fault,
        cause: Cause::Typing {
            insn: code[untyped.fault.slot],
            known: untyped.known,
            demand: untyped.demand,
        },
    }
}
