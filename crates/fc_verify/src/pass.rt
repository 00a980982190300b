//! The verifier's pass over the slots of a program, which computes the slots' states by joins.
//!
//! When the pass reaches the head of a counted loop, it forms the loop invariant.
ghost use Rattle.std.specs.Prelude.{Bool, IfErr, IfOk, List, None, Some, [], false, length, not, true, ℕ, ◌&&◌, ◌<◌, ◌≡◌, ◌≤◌};
ghost use Rattle.std.specs.Vec.{vec_capacity};
ghost use Rattle.fc_isa.specs.Flow.{flow, landing};
ghost use Rattle.fc_isa.specs.Program.{IsInsn};
ghost use Rattle.fc_isa.specs.Rules.{number_of};
ghost use Rattle.fc_isa.specs.Writes.{computes};
ghost use Rattle.fc_isa.specs.declared.rule.Rule.TheVariants.{LoopState};
ghost use Rattle.fc_image.specs.Tables.{AreLow};
ghost use Rattle.fc_kinds.specs.Entry.{entry};
ghost use Rattle.fc_kinds.specs.declared.kind.Kind.{Kind as What};
ghost use Rattle.fc_kinds.specs.Containing.{AreKinds};
ghost use Rattle.fc_kinds.specs.Transfer.{transfer};
ghost use Rattle.fc_kinds.specs.Containing.{AreShallow};
ghost use Rattle.fc_kinds.specs.Ways.{ways_after};
ghost use Rattle.fc_verify.specs.Heads.{IsLoopOf, gives_number, reached, settled};
ghost use Rattle.fc_verify.specs.Runs.{IsTypedProgram, IsUntypedProgram};
ghost use Rattle.fc_verify.specs.Stages.{Fails, IsRuleOf, IsTypingFault, IsUntyped, Stops};
ghost use Rattle.fc_verify.specs.Pass.{IsWithin, beginning, is_typable, joined_in, led, meet_at, met_by, met_later, pass, passed_by};
ghost use Rattle.fc_verify.specs.Typing.{IsTypingOf, States, state_at};

use crate::settling::{formed, gives_number, settled, unnumbered};
use crate::untyped::{Demand, Untyped};
use fc_image::laws::shaped_loops_are_loops;
use fc_image::loops::Loop;
use fc_image::loops_by_head;
use fc_isa::{Fault, ImageVersion, Insn, Jump, Rule};
use fc_kinds::laws::effects_keep_kinds;
use fc_kinds::{Regs, after, enter, entry, join, refine};

/// Finds a typing of a program that passes the control-flow checks.
///
/// The program's image has this version, and its variables have `vars_size` bytes. `room` must have
/// space for a state for each slot. The result has `None` for slots that the pass doesn't reach.
///
/// # Errors
/// Returns the first slot with a demand that isn't met, and a rule from 20 to 28 that the slot
/// breaks. The evidence is the registers' abstract values before the slot's instruction. The
/// program then has no typing.
pub fn typed(
    version: ImageVersion,
    vars_size: u16,
    code: &[Insn],
    room: Vec<Option<Regs>>,
) -> Result<Vec<Option<Regs>>, Untyped>
    requires program { IsUntypedProgram version code.now }
    requires empty { room.items ≡ [] }
    requires room { length code.now ≤ vec_capacity room }
    ensures typing { IfOk result (λ v. IsTypedProgram version vars_size code.now v.items) }
    ensures typable { IfOk result (λ v. is_typable version vars_size code.now ≡ true) }
    ensures untyped { IfErr result (λ u. (t : States) → IsTypingOf version vars_size code.now t → ⊥) }
    ensures untypable { IfErr result (λ u. is_typable version vars_size code.now ≡ false) }
    ensures fault { IfErr result (λ u. IsTypingFault code.now u.fault) }
    ensures known { IfErr result (IsUntyped version vars_size code.now) }
{
    shaped_loops_are_loops();
    let mut states = first_states(version, code, room);
    pass_slots(version, vars_size, code, &mut states)?;
    Ok(states)
}

/// Returns the first states, in `room`: only the entry has a state.
///
/// Any other slot has `None` until the pass leads to that slot.
fn first_states(version: ImageVersion, code: &[Insn], room: Vec<Option<Regs>>) -> Vec<Option<Regs>>
    requires empty { room.items ≡ [] }
    requires room { length code.now ≤ vec_capacity room }
    ensures { result.items ≡ beginning version code.now }
{
    let mut states = room;
    for slot in 0..code.len() {
        states.push_reserved(first_state(version, slot));
    }
    states
}

/// Returns the first state of a slot: the entry state for slot 0, else `None`.
fn first_state(version: ImageVersion, slot: usize) -> Option<Regs>
    ensures first { slot ≡ 0 → result ≡ Some (entry version) }
    ensures later { 1 ≤ slot → result ≡ None }
{
    if slot == 0 {
        Some(entry(version))
    } else {
        None
    }
}

/// Passes over all slots in order.
///
/// `states` must be the first states, and becomes the typing.
///
/// # Errors
/// Returns the first slot with a demand that isn't met. The contract then doesn't say what `states`
/// contains.
fn pass_slots(
    version: ImageVersion,
    vars_size: u16,
    code: &[Insn],
    states: &mut [Option<Regs>],
) -> Result<(), Untyped>
    requires beginning { states.old ≡ beginning version code.now }
    requires program { IsUntypedProgram version code.now }
    ensures passed { IfOk result (λ u. pass version vars_size code.now ≡ Some states.new) }
    ensures refused { IfErr result (λ u. pass version vars_size code.now ≡ None) }
    ensures fault { IfErr result (λ u. IsTypingFault code.now u.fault) }
    ensures known { IfErr result (IsUntyped version vars_size code.now) }
{
    shaped_loops_are_loops();
    let heads = loops_by_head(version, code);
    let mut reach = 0;
    let mut regs = entry(version);
    for (slot, insn) in code.iter().enumerate() {
        let beginning = &heads[slot];
        reach = reached(reach, beginning);
        if let Some(found) = &states[slot] {
            regs.copy_from_slice(found);
            let point = ProgramPoint {
                vars_size,
                code,
                slot,
                insn,
                beginning,
                inside: slot < reach,
            };
            if !pass(&point, &mut regs, states) {
                match &states[slot] {
                    Some(found) => return Err(untyped(&point, found)),
                    None => unreachable!(),
                }
            }
        }
    }
    Ok(())
}

/// Returns the slot after the last body among those that begin so far.
///
/// `reach` is the result for the slots before, and `beginning` the loop that begins at this slot.
/// This slot is in a body if it is before the result.
fn reached(reach: usize, beginning: &Option<Loop>) -> usize
    requires { AreLow 1024 beginning.now }
    ensures { result ≡ reached reach beginning.now }
{
    match beginning {
        Some(counted) => reach.max(counted.last + 1),
        None => reach,
    }
}

/// A program point of the pass: a slot, in its program.
#[derive(Drop)]
struct ProgramPoint<'a> {
    vars_size: u16,
    code: &'a [Insn],
    slot: usize,
    insn: &'a Insn,
    /// The loop that begins at the slot, if one does.
    beginning: &'a Option<Loop>,
    /// Whether the slot is in the body of a loop.
    inside: bool,
}

/// Passes over a slot that is found with the state `regs`.
///
/// At the head of a loop the loop invariant is formed. If the demands of the slot are met, the
/// states on its branches are joined to those of later slots, and the result is `true`. If not, or
/// if the loop's counter doesn't start below its bound, the states don't change, and the result is
/// `false`. `regs` is scratch space after the call.
fn pass(point: &ProgramPoint<'_>, regs: &mut Regs, states: &mut [Option<Regs>]) -> bool
    requires counted { IsLoopOf point.now.code.now point.now.beginning.now }
    requires kinds { AreKinds regs.old }
    requires levels { AreShallow 1023 regs.old }
    requires slot { point.now.slot < 1024 }
    requires here { state_at states.old point.now.slot ≡ Some regs.old }
    requires within { IsWithin (length states.old) (flow point.now.slot point.now.insn.now) }
    requires insn { IsInsn point.now.insn.now }
    ensures met { result ≡ true → passed_by point.now.vars_size point.now.code.now point.now.beginning.now point.now.inside point.now.slot point.now.insn.now regs.old states.old ≡ Some states.new }
    ensures refused { result ≡ false → passed_by point.now.vars_size point.now.code.now point.now.beginning.now point.now.inside point.now.slot point.now.insn.now regs.old states.old ≡ None }
    ensures kept { result ≡ false → states.new ≡ states.old }
{
    match point.beginning {
        Some(counted) => pass_head(point, counted, regs, states),
        None => pass_on(point, regs, states),
    }
}

/// Passes over a slot that is the head of the loop `head`, for [`pass`].
///
/// Returns whether the loop's counter starts below its bound and the demands of the slot's
/// instruction are met. If not, the states don't change.
fn pass_head(
    point: &ProgramPoint<'_>,
    head: &Loop,
    regs: &mut Regs,
    states: &mut [Option<Regs>],
) -> bool
    requires counted { IsLoopOf point.now.code.now (Some head.now) }
    requires kinds { AreKinds regs.old }
    requires levels { AreShallow 1023 regs.old }
    requires slot { point.now.slot < 1024 }
    requires here { point.now.slot < length states.old }
    requires within { IsWithin (length states.old) (flow point.now.slot point.now.insn.now) }
    requires insn { IsInsn point.now.insn.now }
    ensures met { result ≡ true → passed_by point.now.vars_size point.now.code.now (Some head.now) point.now.inside point.now.slot point.now.insn.now regs.old states.old ≡ Some states.new }
    ensures refused { result ≡ false → passed_by point.now.vars_size point.now.code.now (Some head.now) point.now.inside point.now.slot point.now.insn.now regs.old states.old ≡ None }
    ensures kept { result ≡ false → states.new ≡ states.old }
{
    match settled(point.code, head, regs) {
        Some(kinds) => {
            regs.copy_from_slice(&kinds);
            if !meet_demands(point, regs) {
                return false;
            }
            states[point.slot] = Some(kinds);
            spread(point.slot, *point.insn, regs, states);
            true
        }
        None => false,
    }
}

/// Passes over a slot at which no loop begins, for [`pass`].
///
/// Returns whether the demands of the slot's instruction are met. If they are, the states on its
/// branches are joined to those of the later slots; if not, the states don't change.
fn pass_on(point: &ProgramPoint<'_>, regs: &mut Regs, states: &mut [Option<Regs>]) -> bool
    requires kinds { AreKinds regs.old }
    requires levels { AreShallow 1023 regs.old }
    requires slot { point.now.slot < 1024 }
    requires here { state_at states.old point.now.slot ≡ Some regs.old }
    requires within { IsWithin (length states.old) (flow point.now.slot point.now.insn.now) }
    requires insn { IsInsn point.now.insn.now }
    ensures met { result ≡ true → met_by point.now.vars_size point.now.inside point.now.slot point.now.insn.now regs.old states.old ≡ Some states.new }
    ensures refused { result ≡ false → met_by point.now.vars_size point.now.inside point.now.slot point.now.insn.now regs.old states.old ≡ None }
    ensures kept { result ≡ false → states.new ≡ states.old }
{
    if !meet_demands(point, regs) {
        return false;
    }
    spread(point.slot, *point.insn, regs, states);
    true
}

/// Applies an instruction to the registers before it, if its demands are met.
///
/// The demands are the preconditions and, in a counted loop's body, a number in the register that
/// the instruction computes. Returns whether they are met. If not, the contract doesn't say what
/// `regs` contains.
fn meet_demands(point: &ProgramPoint<'_>, regs: &mut Regs) -> bool
    requires kinds { AreKinds regs.old }
    requires insn { IsInsn point.now.insn.now }
    ensures after { result ≡ true → transfer point.now.vars_size point.now.insn.now regs.old ≡ Some regs.new }
    ensures kinds { result ≡ true → AreKinds regs.new }
    ensures numbers { result ≡ true → (point.now.inside && not (gives_number (computes point.now.insn.now) regs.new)) ≡ false }
    ensures refused { result ≡ false → (slot : ℕ) (states : States) → met_by point.now.vars_size point.now.inside slot point.now.insn.now regs.old states ≡ None }
{
    effects_keep_kinds();
    match after(*point.insn, regs, point.vars_size) {
        Ok(()) => !point.inside || gives_number(point.insn, regs),
        Err(_) => false,
    }
}

/// Returns the demand that isn't met at a slot found with the state `regs`.
///
/// The slot must be one for which `pass` returns `false`. The result also has the rule that the
/// slot breaks, and the state that is the evidence.
fn untyped(point: &ProgramPoint<'_>, regs: &Regs) -> Untyped
    requires counted { IsLoopOf point.now.code.now point.now.beginning.now }
    requires kinds { AreKinds regs.now }
    requires insn { IsInsn point.now.insn.now }
    requires refused { (states : States) × (passed_by point.now.vars_size point.now.code.now point.now.beginning.now point.now.inside point.now.slot point.now.insn.now regs.now states ≡ None) }
    ensures rule { IsRuleOf result.demand result.fault.rule }
    ensures slot { result.fault.slot ≡ point.now.slot }
    ensures stops { Stops point.now.vars_size point.now.code.now point.now.beginning.now point.now.inside point.now.insn.now regs.now result.known result.demand }
{
    match point.beginning {
        Some(counted) => match settled(point.code, counted, regs) {
            Some(kinds) => at_insn(point, &kinds),
            None => at_head(point, counted, regs),
        },
        None => at_insn(point, regs),
    }
}

/// Returns the demand that an instruction doesn't meet, its rule and its state.
///
/// Either a precondition doesn't hold, or the instruction is in a loop's body and computes no
/// number. The state is `kinds`, which is the loop invariant if a loop begins at the
/// slot.
fn at_insn(point: &ProgramPoint<'_>, kinds: &Regs) -> Untyped
    requires kinds { AreKinds kinds.now }
    requires insn { IsInsn point.now.insn.now }
    requires refused { (states : States) × (met_by point.now.vars_size point.now.inside point.now.slot point.now.insn.now kinds.now states ≡ None) }
    ensures rule { IsRuleOf result.demand result.fault.rule }
    ensures slot { result.fault.slot ≡ point.now.slot }
    ensures known { result.known ≡ kinds.now }
    ensures fails { Fails point.now.vars_size point.now.inside point.now.insn.now kinds.now result.demand }
{
    let mut next = *kinds;
    match checked(point, &mut next) {
        Ok(()) => match unnumbered(point.inside, point.insn, &next) {
            Some(demand) => against_loop(point.slot, kinds, demand),
            None => unreachable!(),
        },
        Err(untyped) => untyped,
    }
}

/// Returns the demand that isn't met at a loop's head, entered with `regs`.
///
/// Either a precondition of the loop's first instruction doesn't hold in the loop's iterations, or
/// the loop's counter doesn't start below the bound.
fn at_head(point: &ProgramPoint<'_>, counted: &Loop, regs: &Regs) -> Untyped
    requires counted { IsLoopOf point.now.code.now (Some counted.now) }
    requires outside { settled point.now.code.now (Some counted.now) regs.now ≡ None }
    requires kinds { AreKinds regs.now }
    requires insn { IsInsn point.now.insn.now }
    ensures rule { IsRuleOf result.demand result.fault.rule }
    ensures slot { result.fault.slot ≡ point.now.slot }
    ensures stops { (inside : Bool) → Stops point.now.vars_size point.now.code.now (Some counted.now) inside point.now.insn.now regs.now result.known result.demand }
{
    let mut turned = formed(point.code, counted, regs);
    match checked(point, &mut turned) {
        Ok(()) => against_loop(point.slot, regs, Demand::Counter(*counted)),
        Err(untyped) => untyped,
    }
}

/// Returns the refusal of a slot that breaks the rule of loops by `demand`.
///
/// `known` is the state that is the evidence.
fn against_loop(slot: usize, known: &Regs, demand: Demand) -> Untyped
    ensures rule { result.fault.rule ≡ LoopState }
    ensures slot { result.fault.slot ≡ slot }
    ensures known { result.known ≡ known.now }
    ensures demand { result.demand ≡ demand }
{
    Untyped {
        fault: Fault {
            rule: Rule::LoopState,
            slot,
        },
        known: *known,
        demand,
    }
}

/// Updates the state before a slot to that after it.
///
/// # Errors
/// Returns the rule that the instruction breaks, with the state before the instruction as evidence.
/// The contract then doesn't say what `regs` contains.
fn checked(point: &ProgramPoint<'_>, regs: &mut Regs) -> Result<(), Untyped>
    requires kinds { AreKinds regs.old }
    requires insn { IsInsn point.now.insn.now }
    ensures after { IfOk result (λ u. transfer point.now.vars_size point.now.insn.now regs.old ≡ Some regs.new) }
    ensures kinds { IfOk result (λ u. AreKinds regs.new) }
    ensures refused { IfErr result (λ u. transfer point.now.vars_size point.now.insn.now regs.old ≡ None) }
    ensures rule { IfErr result (λ u. (20 ≤ number_of u.fault.rule) × (number_of u.fault.rule ≤ 27)) }
    ensures slot { IfErr result (λ u. u.fault.slot ≡ point.now.slot) }
    ensures known { IfErr result (λ u. u.known ≡ regs.old) }
    ensures demand { IfErr result (λ u. u.demand ≡ Demand.Operands) }
{
    effects_keep_kinds();
    match after(*point.insn, regs, point.vars_size) {
        Ok(()) => Ok(()),
        Err(rule) => Err(Untyped {
            fault: Fault {
                rule,
                slot: point.slot,
            },
            known: *regs,
            demand: Demand::Operands,
        }),
    }
}

/// Joins the states on an instruction's branches to those of later slots.
///
/// `after` is the state after the instruction; `states` has the state before the instruction.
/// `after` is scratch space after the call.
fn spread(slot: usize, insn: Insn, after: &mut Regs, states: &mut [Option<Regs>])
    requires kinds { AreKinds after.old }
    requires levels { (ks : List What) → state_at states.old slot ≡ Some ks → AreShallow 1023 ks }
    requires slot { slot < 1024 }
    requires here { slot < length states.old }
    requires within { IsWithin (length states.old) (flow slot insn) }
    ensures { (ks : List What) → state_at states.old slot ≡ Some ks → states.new ≡ led slot states.old (ways_after slot insn ks after.old) }
{
    match insn {
        Insn::LoadWide { .. } => lead(slot, states, slot + 2, after),
        Insn::JumpAlways { offset } => lead(slot, states, landing(slot, offset as i32), after),
        Insn::JumpAlwaysLong { offset } => lead(slot, states, landing(slot, offset), after),
        Insn::JumpIf(jump) => branch(slot, &jump, after, states),
        Insn::Exit | Insn::WideSecond => {}
        Insn::CallLocal { offset } => {
            if let Some(before) = &states[slot] {
                let entered = enter(before);
                lead(slot, states, landing(slot, offset), &entered);
            }
            lead(slot, states, slot + 1, after);
        }
        Insn::CallHelper { .. } => lead(slot, states, slot + 1, after),
        Insn::Alu { .. } | Insn::Unary { .. } | Insn::SignExtend { .. } => {
            lead(slot, states, slot + 1, after);
        }
        Insn::Load { .. } | Insn::StoreImm { .. } | Insn::Store { .. } => {
            lead(slot, states, slot + 1, after);
        }
    }
}

/// Joins the states on a conditional jump's branches to those of later slots.
///
/// A branch that no values take has no state. `regs` is the state at the jump, and scratch space
/// after the call.
fn branch(slot: usize, jump: &Jump, regs: &mut Regs, states: &mut [Option<Regs>])
    requires kinds { AreKinds regs.old }
    requires slot { slot < 1024 }
    requires within { IsWithin (length states.old) (flow slot (Insn.JumpIf jump.now)) }
    ensures { states.new ≡ led slot states.old (ways_after slot (Insn.JumpIf jump.now) regs.old regs.old) }
{
    let mut taken = *regs;
    if refine(jump, true, &mut taken) {
        lead(slot, states, landing(slot, jump.offset as i32), &taken);
    }
    if refine(jump, false, regs) {
        lead(slot, states, slot + 1, regs);
    }
}

/// Returns the slot to which a jump's offset leads.
///
/// Returns `slot` if that would be below 0.
fn landing(slot: usize, offset: i32) -> usize
    requires { slot < 1024 }
    ensures { result ≡ landing slot offset }
{
    let at = slot as i64 + 1 + offset as i64;
    if at >= 0 { at as usize } else { slot }
}

/// Joins a state to that of `slot`, if this slot is later than `from`.
///
/// A back jump leads to a loop's head, whose state is the loop invariant already.
fn lead(from: usize, states: &mut [Option<Regs>], slot: usize, regs: &Regs)
    requires { slot < length states.old }
    ensures { states.new ≡ met_later from states.old slot regs.now }
{
    if slot > from {
        meet(states, slot, regs);
    }
}

/// Joins a state to that of a slot, which gets the state if it has none.
fn meet(states: &mut [Option<Regs>], slot: usize, regs: &Regs)
    requires { slot < length states.old }
    ensures { states.new ≡ meet_at states.old slot regs.now }
{
    join_in(&mut states[slot], regs);
}

/// Joins `regs` to a state, or sets the state if there is none.
fn join_in(state: &mut Option<Regs>, regs: &Regs)
    ensures { state.new ≡ joined_in state.old regs.now }
{
    match state {
        Some(kinds) => join(kinds, regs),
        None => *state = Some(*regs),
    }
}
