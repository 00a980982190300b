//! The rules for images, each with the number that a refusal prints.
ghost use Rattle.std.specs.Prelude.{◌≡◌};
ghost use Rattle.fc_isa.specs.Rules.{number_of, fault_text};

use std::fmt;

/// A rule that an image broke.
///
/// Its number is 1 to 17 or 20 to 28, and a refusal prints it as `V` and two digits.
#[derive(Clone, Copy, Debug, PartialEq, Eq)]
pub enum Rule {
    /// 1: fewer than 16 bytes, an unknown magic, or a length that isn't as stated.
    ///
    /// The header states the number of slots, of eight bytes each, that follow it.
    Format,
    /// 2: no slots, or more than the image's version allows.
    SlotCount,
    /// 3: more than 256 bytes of variables, or a size that isn't a multiple of 8.
    VarsSize,
    /// 4: a budget other than 1 to 65,536.
    Budget,
    /// 5: a reserved byte of the header that isn't zero.
    Reserved,
    /// 6: an opcode that no instruction has.
    Opcode,
    /// 7: a register number above 10.
    Register,
    /// 8: an instruction that writes R10.
    FramePointer,
    /// 9: an unused field that isn't zero, or a field with a value that isn't allowed.
    Field,
    /// 10: a wide load without its second slot, or a partial slot.
    ///
    /// The second slot is missing or malformed, or fewer than eight bytes are left at the end.
    WideLoad,
    /// 11: a jump or call to a place outside the program or inside a wide load.
    JumpTarget,
    /// 12: a jump to a slot that isn't later, except the back jump of a counted loop.
    BackwardJump,
    /// 13: a jump out of its function, or a function that doesn't end with `exit`.
    Boundary,
    /// 14: a local call of a function that isn't later in the program.
    BackwardCall,
    /// 15: more than four stack frames, or more than eight in version 2 of the format.
    FrameDepth,
    /// 16: a path with more steps than the budget.
    Cost,
    /// 17: a call of a helper that doesn't exist.
    Helper,
    /// 20: a read of an unset register.
    UnsetRegister,
    /// 21: a pointer in place of a number, or a number in place of a pointer.
    OperandKind,
    /// 22: an access outside its region.
    Access,
    /// 23: a store to the request or the readings.
    RequestStore,
    /// 24: a store of a pointer.
    PointerStore,
    /// 25: an exit without a number in R0.
    ExitValue,
    /// 26: a step of a pointer out of the allowed range.
    PointerStep,
    /// 27: an argument of a helper with the wrong kind or range.
    HelperArgument,
    /// 28: a loop whose counter may start too high, or that may compute a pointer.
    ///
    /// The counter must start below the bound, and each register that an instruction of the body
    /// computes must be a number.
    LoopState,
}

impl Rule {
    /// Returns the rule's number.
    pub fn number(self) -> u8
        ensures { result ≡ number_of self }
    {
        match self {
            Rule::Format => 1,
            Rule::SlotCount => 2,
            Rule::VarsSize => 3,
            Rule::Budget => 4,
            Rule::Reserved => 5,
            Rule::Opcode => 6,
            Rule::Register => 7,
            Rule::FramePointer => 8,
            Rule::Field => 9,
            Rule::WideLoad => 10,
            Rule::JumpTarget => 11,
            Rule::BackwardJump => 12,
            Rule::Boundary => 13,
            Rule::BackwardCall => 14,
            Rule::FrameDepth => 15,
            Rule::Cost => 16,
            Rule::Helper => 17,
            Rule::UnsetRegister => 20,
            Rule::OperandKind => 21,
            Rule::Access => 22,
            Rule::RequestStore => 23,
            Rule::PointerStore => 24,
            Rule::ExitValue => 25,
            Rule::PointerStep => 26,
            Rule::HelperArgument => 27,
            Rule::LoopState => 28,
        }
    }
}

/// A broken rule, with the slot that broke it, counted from 0.
///
/// It prints as `V16 slot 0`.
#[derive(Clone, Copy, Debug, PartialEq, Eq)]
pub struct Fault {
    pub rule: Rule,
    pub slot: usize,
}

impl fmt::Display for Fault {
    ghost use Rattle.std.specs.Prelude.{Some};
    ghost use Rattle.fc_isa.specs.Rules.{number_of, fault_text};

    ghost output = { λ f. Some (fault_text (number_of f.rule) f.slot) };

    fn fmt<W: fmt::Write>(&self, f: &mut fmt::Formatter<W>) -> fmt::Result {
        let tens = self.rule.number() / 10;
        let ones = self.rule.number() % 10;
        let slot = self.slot;
        write!(f, "V{tens}{ones} slot {slot}")
    }
}
