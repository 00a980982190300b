//! The text of each rule, and the rule with each number, for `fcasm` and the C library.
ghost use Rattle.std.specs.Prelude.{◌≡◌, MatchOption};
ghost use Rattle.fc_isa.specs.Rules.{number_of};
ghost use Rattle.fc_rules.specs.Numbers.{IsNoRule};

use fc_isa::Rule;

/// Returns the rule with a number, 1 to 17 or 20 to 28.
///
/// Returns `None` if no rule has this number.
pub fn rule_numbered(number: u32) -> Option<Rule>
    ensures { MatchOption result (IsNoRule number) (λ rule. number_of rule ≡ number) }
{
    match number {
        1 => Some(Rule::Format),
        2 => Some(Rule::SlotCount),
        3 => Some(Rule::VarsSize),
        4 => Some(Rule::Budget),
        5 => Some(Rule::Reserved),
        6 => Some(Rule::Opcode),
        7 => Some(Rule::Register),
        8 => Some(Rule::FramePointer),
        9 => Some(Rule::Field),
        10 => Some(Rule::WideLoad),
        11 => Some(Rule::JumpTarget),
        12 => Some(Rule::BackwardJump),
        13 => Some(Rule::Boundary),
        14 => Some(Rule::BackwardCall),
        15 => Some(Rule::FrameDepth),
        16 => Some(Rule::Cost),
        17 => Some(Rule::Helper),
        20 => Some(Rule::UnsetRegister),
        21 => Some(Rule::OperandKind),
        22 => Some(Rule::Access),
        23 => Some(Rule::RequestStore),
        24 => Some(Rule::PointerStore),
        25 => Some(Rule::ExitValue),
        26 => Some(Rule::PointerStep),
        27 => Some(Rule::HelperArgument),
        28 => Some(Rule::LoopState),
        _ => None,
    }
}

/// Returns the text of a rule: the fault of an image that breaks it.
pub fn rule_text(rule: Rule) -> &'static str {
    match rule {
        Rule::Format =>
            "under 16 bytes, no `FCB1` or `FCB2` in front, or a length that isn't 16 + 8 times the count of slots",
        Rule::SlotCount => "the count of slots isn't 1 to 512, or in the second version 1 to 1024",
        Rule::VarsSize => "the size of the variables isn't a multiple of 8 up to 256",
        Rule::Budget => "the budget isn't 1 to 65536",
        Rule::Reserved => "bytes 12 to 15 of the header aren't zero",
        Rule::Opcode => "the opcode isn't known",
        Rule::Register => "a register above r10",
        Rule::FramePointer => "r10 is written",
        Rule::Field => "a field that isn't used isn't zero, or one has a value that isn't allowed",
        Rule::WideLoad => "a wide load without its second slot, or with a malformed one",
        Rule::JumpTarget => "a jump or `callf` out of the program, or into a wide load",
        Rule::BackwardJump =>
            "a jump that doesn't go to a later slot, and in the second version isn't that of a counted loop",
        Rule::Boundary =>
            "a jump into another function, or a function whose last instruction isn't `exit`",
        Rule::BackwardCall => "a `callf` that doesn't lead to a later slot",
        Rule::FrameDepth =>
            "calls that nest more than four frames, or in the second version eight, the first function's among them",
        Rule::Cost => "the longest path is above the budget",
        Rule::Helper => "a call of a helper that isn't 1 to 7",
        Rule::UnsetRegister => "a register is read of which nothing is known",
        Rule::OperandKind => "a pointer where a number is wanted, or the reverse",
        Rule::Access => "an access that may lie outside its region",
        Rule::RequestStore => "a store into the request or the readings",
        Rule::PointerStore => "a pointer is stored",
        Rule::ExitValue => "an `exit` where r0 may not be a number",
        Rule::PointerStep =>
            "a pointer moved by a number that may be above 65536, or further than 65536 away",
        Rule::HelperArgument =>
            "a helper gets another kind than it takes, or `reply_put` bytes that may lie outside their region",
        Rule::LoopState =>
            "a loop's counter that may not begin below the bound, or a pointer written in a loop's body",
    }
}
