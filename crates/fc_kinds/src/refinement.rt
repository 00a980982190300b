//! Branch refinement: the operands of a conditional jump on each branch.
ghost use Rattle.std.specs.Prelude.{◌≡◌};
ghost use Rattle.fc_kinds.specs.Containing.{AreKinds};
ghost use Rattle.fc_kinds.specs.Refinement.{put_both, refines, relation_of, when};
ghost use Rattle.fc_kinds.specs.Transfer.{where_met};

use crate::interval::{Interval, refined};
use crate::kind::{Kind, Regs};
use crate::operands::{num, operand_kind};
use fc_isa::{Jump, Operand, Relation, Width};

/// Returns the relation that refines a jump's operands on a branch.
///
/// On the branch not taken it is the opposite relation. A signed comparison and a test of bits
/// refine nothing, and are returned unchanged for both branches.
fn relation_of(jump: &Jump, taken: bool) -> Relation
    ensures { result ≡ relation_of taken jump.now }
{
    if taken {
        return jump.relation;
    }
    match jump.relation {
        Relation::Eq => Relation::Ne,
        Relation::Gt => Relation::Le,
        Relation::Ge => Relation::Lt,
        Relation::Ne => Relation::Eq,
        Relation::Lt => Relation::Ge,
        Relation::Le => Relation::Gt,
        other => other,
    }
}

/// Returns whether a jump's operands can be refined.
///
/// Operands can be refined if the jump compares two different whole registers, or a whole register
/// and an immediate.
fn refines(jump: &Jump) -> bool
    ensures { result ≡ refines jump.now }
{
    match (jump.width, jump.right) {
        (Width::W64, Operand::Imm(_)) => true,
        (Width::W64, Operand::Reg(right)) => right.number() != jump.left.number(),
        (Width::W32, _) => false,
    }
}

/// Sets the intervals of a jump's operands in the registers.
///
/// An immediate is in no register, so nothing is set for it.
fn put_both(jump: &Jump, regs: &mut Regs, left: Interval, right: Interval)
    ensures { regs.new ≡ put_both jump.now regs.old (left, right) }
{
    regs[jump.left.index()] = num(left);
    if let Operand::Reg(reg) = jump.right {
        regs[reg.index()] = num(right);
    }
}

/// Refines the abstract state for one branch of a conditional jump.
///
/// A jump refines only if it compares numbers, unsigned or for equality, in two different whole
/// registers, or in a whole register and an immediate. Then the result is `false` exactly if no
/// numbers in the state take the branch. After `false` the contract doesn't say what `regs` has.
/// Any other jump doesn't change the state, and the result is `true`.
#[tactic(auto, unfolding(crate::specs::Refinement::when))]
pub fn refine(jump: &Jump, taken: bool, regs: &mut Regs) -> bool
    requires { AreKinds regs.old }
    ensures { where_met result regs.new ≡ when jump.now taken regs.old }
{
    if !refines(jump) {
        return true;
    }
    match (
        regs[jump.left.index()],
        operand_kind(Width::W64, jump.right, regs),
    ) {
        (Kind::Num { lo, hi }, Kind::Num { lo: low, hi: high }) => {
            match refined(
                relation_of(jump, taken),
                Interval { lo, hi },
                Interval { lo: low, hi: high },
            ) {
                Some((left, right)) => {
                    put_both(jump, regs, left, right);
                    true
                }
                None => false,
            }
        }
        _ => true,
    }
}
