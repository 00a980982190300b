//! The reason why a program has no typing.
use fc_image::loops::Loop;
use fc_isa::{Fault, Target};
use fc_kinds::{Kind, Regs};

/// The first slot with a demand that isn't met, and its abstract state.
#[derive(Clone, Copy)]
pub struct Untyped {
    /// A rule from 20 to 28 that the slot breaks.
    pub fault: Fault,
    /// The abstract value of each register before the slot's instruction.
    ///
    /// At the head of a loop these values hold for every iteration. If the demand is on the loop's
    /// counter, they are the values on entry to the loop instead.
    pub known: Regs,
    /// The demand that isn't met.
    pub demand: Demand,
}

/// A demand of a slot on its abstract state.
#[derive(Clone, Copy)]
pub enum Demand {
    /// The preconditions of the slot's instruction, with a rule from 20 to 27.
    Operands,
    /// A number in the register that the instruction in a loop's body computes.
    ///
    /// After the instruction, `register` has the abstract value `given` instead.
    Number { register: Target, given: Kind },
    /// A counter below its bound, on entry to the loop that begins at the slot.
    Counter(Loop),
}
