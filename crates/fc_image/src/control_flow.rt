//! Control-flow checks of a program, in the order of their rules.
ghost use Rattle.std.specs.Prelude.{IfErr, IfOk, None, Some, length, not, true, ◌<◌, ◌≡◌, ◌≤◌};
ghost use Rattle.fc_isa.specs.Flow.{target};
ghost use Rattle.fc_isa.specs.Program.{is_program};
ghost use Rattle.fc_image.specs.Functions.{with_offset};
ghost use Rattle.fc_image.specs.Judged.{AreTables, IsCostOf, IsSame};
ghost use Rattle.fc_image.specs.Paths.{longest};
ghost use Rattle.fc_image.specs.Spans.{AreSpans};
ghost use Rattle.fc_image.specs.Tables.{AreCounts};
ghost use Rattle.fc_image.specs.ShapeRules.{breaks_back, breaks_shape, calls_no_helper, shape_fault, first_broken, is_later, is_place, least, leaves};

use crate::flow::{call_offset, jump_offset, target};
use crate::functions::{crosses, is_open_end};
use crate::limits::{Head, loops_allowed};
use crate::loops::is_counted;
use crate::spans::Span;
use crate::table::{MOST_SLOTS, Tables};
use fc_help::helper_of;
use fc_isa::{Fault, Insn, Rule};

/// Checks the control flow of a program, and returns its cost.
///
/// The program must have the header's number of slots. The cost is the greatest number of steps on
/// any path from slot 0 to the program's exit. A path through a local call passes through the whole
/// callee.
///
/// # Errors
/// Returns the least rule, 11 to 17, that a slot breaks, with the first slot that breaks it.
#[tactic(auto, unfolding(crate::specs::ShapeRules::shape_fault))]
pub fn shape(head: &Head, code: &[Insn]) -> Result<u32, Fault>
    requires count { length code.now ≡ head.now.count }
    requires whole { is_program code.now ≡ true }
    ensures shape { IfOk result (IsCostOf head.now code.now) }
    ensures cost { IfOk result (λ cost. (shape_fault head.now code.now ≡ None) × (cost ≡ longest head.now.version code.now)) }
    ensures fault { IfErr result (λ f. shape_fault head.now code.now ≡ Some (f.slot, f.rule)) }
{
    // These calls show the checker the greatest number of slots, and of steps.
    let _slots = head.count();
    let _steps = head.budget();
    let tables = Tables::of(head.version(), code);
    match first_broken(code, &tables, head, &FLOW_RULES) {
        Some(fault) => Err(fault),
        None => Ok(tables.cost),
    }
}

/// The rules of the control flow, in their order.
const FLOW_RULES: [Rule; 7] = [
    Rule::JumpTarget,
    Rule::BackwardJump,
    Rule::Boundary,
    Rule::BackwardCall,
    Rule::FrameDepth,
    Rule::Cost,
    Rule::Helper,
];

/// Returns the fault of the first rule in `rules` that any slot breaks, or `None`.
///
/// The fault's slot is the first that breaks that rule. `tables` are those of the program.
fn first_broken(code: &[Insn], tables: &Tables, head: &Head, rules: &[Rule]) -> Option<Fault>
    requires tables { AreTables head.now.version code.now tables.now }
    requires count { length code.now ≤ 1024 }
    ensures { IsSame (first_broken head.now code.now rules.now) result }
{
    for rule in rules {
        if let Some(slot) = least(code, tables, head, *rule) {
            return Some(Fault { rule: *rule, slot });
        }
    }
    None
}

/// Returns the first slot that breaks a rule, or `None` if no slot does.
fn least(code: &[Insn], tables: &Tables, head: &Head, rule: Rule) -> Option<usize>
    requires tables { AreTables head.now.version code.now tables.now }
    requires count { length code.now ≤ 1024 }
    ensures { result ≡ least (λ slot insn. breaks_shape head.now code.now slot insn rule) 0 code.now }
{
    (0..code.len()).find(|slot| breaks(code, tables, head, *slot, &code[*slot], rule))
}

/// Returns whether a slot, with the instruction `insn`, breaks a rule.
///
/// Frame depth and cost are rules of the whole program, and only slot 0 can break them. Returns
/// `false` for a rule that isn't one of the control flow.
#[tactic(auto, unfolding(crate::specs::ShapeRules::breaks_shape))]
fn breaks(code: &[Insn], tables: &Tables, head: &Head, slot: usize, insn: &Insn, rule: Rule) -> bool
    requires tables { AreTables head.now.version code.now tables.now }
    requires count { length code.now ≤ 1024 }
    requires slot { slot < length code.now }
    ensures { result ≡ breaks_shape head.now code.now slot insn.now rule }
{
    match rule {
        Rule::JumpTarget => is_astray(code, slot, jump_offset(insn))
            || is_astray(code, slot, call_offset(insn)),
        Rule::BackwardJump => breaks_back(
            loops_allowed(head.version()),
            code,
            &tables.spans,
            slot,
            insn,
        ),
        Rule::Boundary => leaves(code, &tables.counts, slot, jump_offset(insn))
            || is_open_end(code, &tables.starts, slot, insn),
        Rule::BackwardCall => is_back(slot, call_offset(insn)),
        Rule::FrameDepth => slot == 0 && tables.frames > head.frames(),
        Rule::Cost => slot == 0 && tables.cost > head.budget(),
        Rule::Helper => calls_no_helper(insn),
        _ => false,
    }
}

/// Returns whether the offset of a slot's jump or call leads to no instruction.
///
/// Without an offset, returns `false`.
fn is_astray(code: &[Insn], slot: usize, offset: Option<i32>) -> bool
    requires { slot < 1024 }
    ensures { result ≡ with_offset offset (λ o. not (is_place code.now (target slot o))) }
{
    match offset {
        Some(offset) => !is_place(code, target(slot, offset)),
        None => false,
    }
}

/// Returns whether a target is a slot of the program, and no second half.
///
/// Returns `false` for `None`, which is a target below slot 0.
fn is_place(code: &[Insn], place: Option<usize>) -> bool
    ensures { result ≡ is_place code.now place }
{
    match place {
        Some(place) => place < code.len() && !matches!(code[place], Insn::WideSecond),
        None => false,
    }
}

/// Returns whether a jump to no later slot isn't the jump of a counted loop.
///
/// Returns `false` if the instruction isn't such a jump. Unless loops are `allowed`, no jump is the
/// jump of a counted loop. `spans` has the sources of the jumps to each slot.
fn breaks_back(
    allowed: bool,
    code: &[Insn],
    spans: &[Option<Span>; MOST_SLOTS],
    slot: usize,
    insn: &Insn,
) -> bool
    requires count { length code.now ≤ 1024 }
    requires spans { AreSpans code.now (length code.now) spans.now }
    requires slot { slot < length code.now }
    ensures { result ≡ breaks_back allowed code.now slot insn.now }
{
    is_back(slot, jump_offset(insn)) && !(allowed && is_counted(code, spans, slot, insn))
}

/// Returns whether the offset of a slot's jump or call leads to no later slot.
///
/// Without an offset, returns `false`.
fn is_back(slot: usize, offset: Option<i32>) -> bool
    requires { slot < 1024 }
    ensures { result ≡ with_offset offset (λ o. not (is_later slot (target slot o))) }
{
    match offset {
        Some(offset) => !is_later(slot, target(slot, offset)),
        None => false,
    }
}

/// Returns whether a target is a slot later than `slot`.
///
/// Returns `false` for `None`, which is a target below slot 0.
fn is_later(slot: usize, place: Option<usize>) -> bool
    ensures { result ≡ is_later slot place }
{
    match place {
        Some(place) => slot < place,
        None => false,
    }
}

/// Returns whether a jump with this offset leaves its function.
///
/// Returns `false` without an offset, or if the target isn't a slot of the program. `counts` has,
/// for each slot, the number of functions that start at or before it.
fn leaves(code: &[Insn], counts: &[u16; MOST_SLOTS], slot: usize, offset: Option<i32>) -> bool
    requires counts { AreCounts code.now counts.now }
    requires count { length code.now ≤ 1024 }
    requires slot { slot < 1024 }
    ensures { result ≡ with_offset offset (λ o. leaves code.now slot (target slot o)) }
{
    match offset {
        Some(offset) => crosses_to(code, counts, slot, target(slot, offset)),
        None => false,
    }
}

/// Returns whether a jump from a slot to this target leaves the slot's function.
///
/// Returns `false` if the target isn't a slot of the program.
fn crosses_to(code: &[Insn], counts: &[u16; MOST_SLOTS], slot: usize, place: Option<usize>) -> bool
    requires counts { AreCounts code.now counts.now }
    requires count { length code.now ≤ 1024 }
    requires slot { slot < 1024 }
    ensures { result ≡ leaves code.now slot place }
{
    match place {
        Some(place) => place < code.len()
            && crosses(code, counts, slot.min(place), slot.max(place)),
        None => false,
    }
}

/// Returns whether an instruction calls a helper that doesn't exist.
fn calls_no_helper(insn: &Insn) -> bool
    ensures { result ≡ calls_no_helper insn.now }
{
    match insn {
        Insn::CallHelper { number } => helper_of(*number).is_none(),
        _ => false,
    }
}
