//! The number of steps on a program's longest path.
ghost use Rattle.std.specs.Prelude.{ℕ, drop, length, min, slice_index, ◌+◌, ◌≡◌, ◌≤◌, ◌<◌};
ghost use Rattle.fc_isa.specs.Flow.{flow, landing};
ghost use Rattle.fc_image.specs.Loops.{loops_of};
ghost use Rattle.fc_image.specs.Paths.{along, cost_in, cost_at, looped, own_cost, turns};
ghost use Rattle.fc_image.specs.Tables.{AreHeads, AreLow, IsLow};

use crate::flow::target;
use crate::head_table::loop_if;
use crate::loops::Loop;
use crate::table::MOST_SLOTS;
use fc_isa::Insn;

/// The number at which costs are capped: one more step than any budget allows.
const TOO_MANY: u32 = 65_537;

/// Returns the number of steps on the longest path from slot 0.
///
/// The number is capped at 65,537. `heads` has the loop that begins at each slot, and `allowed`
/// says whether counted loops are allowed.
pub(crate) fn longest_cost(code: &[Insn], heads: &[Option<Loop>; MOST_SLOTS], allowed: bool) -> u32
    requires count { length code.now ≤ 1024 }
    requires heads { AreHeads (loops_of allowed code.now) heads.now }
    ensures { result ≡ min 65537 (cost_in code.now (loops_of allowed code.now) 0) }
{
    let mut costs = [0; MOST_SLOTS];
    let mut slot = code.len();
    while slot > 0 {
        slot -= 1;
        let insn = &code[slot];
        let ending = loop_if(allowed, code, slot, insn);
        let own = own_steps(&costs, slot, &ending, insn);
        costs[slot] = steps(&costs, slot, &heads[slot], own).min(TOO_MANY);
    }
    costs[0]
}

/// Returns the steps from an instruction to the end of its body or function.
///
/// `costs` has the steps from the later slots. If `ending` is a loop, the instruction is that
/// loop's back jump, and the result is 1: the loop's head counts the iterations.
fn own_steps(costs: &[u32; MOST_SLOTS], slot: usize, ending: &Option<Loop>, insn: &Insn) -> u32
    requires slot { slot < 1024 }
    requires capped { (k : ℕ) → slice_index costs.now k ≤ 65537 }
    ensures steps { result ≡ own_cost (cost_at (drop (slot + 1) costs.now) slot) ending.now (flow slot insn.now) }
    ensures few { result ≤ 131075 }
{
    match ending {
        Some(_) => 1,
        None => steps_along(costs, slot, insn),
    }
}

/// Returns the steps from an instruction on, along the longer branch of a jump.
///
/// The steps of a called function count too. `costs` has the steps from the later slots.
fn steps_along(costs: &[u32; MOST_SLOTS], slot: usize, insn: &Insn) -> u32
    requires slot { slot < 1024 }
    requires capped { (k : ℕ) → slice_index costs.now k ≤ 65537 }
    ensures steps { result ≡ along (cost_at (drop (slot + 1) costs.now) slot) (flow slot insn.now) }
    ensures few { result ≤ 131075 }
{
    let next = at(costs, slot, slot + 1);
    match insn {
        Insn::Exit | Insn::WideSecond => 1,
        Insn::JumpAlways { offset } => 1 + at(costs, slot, landing(slot, *offset as i32)),
        Insn::JumpAlwaysLong { offset } => 1 + at(costs, slot, landing(slot, *offset)),
        Insn::JumpIf(jump) => 1 + at(costs, slot, landing(slot, jump.offset as i32)).max(next),
        Insn::CallLocal { offset } => 1 + (at(costs, slot, landing(slot, *offset)) + next),
        Insn::LoadWide { .. } => 1 + at(costs, slot, slot + 2),
        Insn::Alu { .. } | Insn::Unary { .. } | Insn::SignExtend { .. } => 1 + next,
        Insn::Load { .. } | Insn::StoreImm { .. } | Insn::Store { .. } => 1 + next,
        Insn::CallHelper { .. } => 1 + next,
    }
}

/// Returns the steps from a slot on, once a path reaches it.
///
/// `own` is the number of steps to the end of the slot's body or function. If the loop `beginning`
/// has its head here, `own` counts once for each iteration, and the steps after the loop are added.
fn steps(costs: &[u32; MOST_SLOTS], slot: usize, beginning: &Option<Loop>, own: u32) -> u32
    requires slot { slot < 1024 }
    requires capped { (k : ℕ) → slice_index costs.now k ≤ 65537 }
    requires few { own ≤ 131075 }
    requires low { AreLow 1024 beginning.now }
    ensures { result ≡ looped (cost_at (drop (slot + 1) costs.now) slot) beginning.now own }
{
    match beginning {
        Some(counted) => turns(counted) * own + at(costs, slot, counted.last + 1),
        None => own,
    }
}

/// Returns the number of iterations of a loop whose counter begins at 0.
///
/// The cost counts this number of iterations, whatever the counter is at the start.
fn turns(counted: &Loop) -> u32
    requires { IsLow 1024 counted.now }
    ensures turns { result ≡ turns counted.now }
    ensures few { result ≤ 1024 }
{
    1 + (counted.bound - 1) / counted.step
}

/// Returns the slot to which an offset leads, or `slot` if that would be below 0.
fn landing(slot: usize, offset: i32) -> usize
    requires { slot < 1024 }
    ensures { result ≡ landing slot offset }
{
    target(slot, offset).unwrap_or(slot)
}

/// Returns the cost at `place`, a slot later than `slot`.
///
/// Returns 0 if `place` isn't later than `slot`, or isn't in the table.
fn at(costs: &[u32; MOST_SLOTS], slot: usize, place: usize) -> u32
    requires { (k : ℕ) → slice_index costs.now k ≤ 65537 }
    ensures cost { result ≡ cost_at (drop (slot + 1) costs.now) slot place }
    ensures capped { result ≤ 65537 }
{
    if place <= slot {
        return 0;
    }
    costs.get(place).copied().unwrap_or(0)
}
