//! The rules in words, and the change to make if one is broken, for explanations.
use crate::diagnosis::{Cause, Diagnosis, GREATEST_BUDGET};
use crate::loops::loop_remedy;
use fc_asm::Mistake;
use fc_isa::Rule;
use fc_rules::rule_text;
use fc_verify::Demand;

/// Returns the fault of an image that breaks a rule, in words.
///
/// A missing typing in a loop has its own texts, by the demand that isn't met.
pub fn broken_text(diagnosis: &Diagnosis) -> &'static str {
    match diagnosis.cause {
        Cause::Typing {
            demand: Demand::Counter(_),
            ..
        } => "a loop's counter may begin at its bound or above, or isn't a number",
        Cause::Typing {
            demand: Demand::Number { .. },
            ..
        } => "a pointer is written in a loop's body",
        _ => rule_text(diagnosis.fault.rule),
    }
}

/// Returns the change to make in an image that breaks a rule.
///
/// If the budget is the greatest already, the change isn't a greater budget.
pub fn remedy(diagnosis: &Diagnosis) -> &'static str {
    match &diagnosis.cause {
        Cause::Cost { budget, .. } if *budget == GREATEST_BUDGET =>
            "shorten the longest path; a function called twice costs twice",
        Cause::Back { reason, .. } => loop_remedy(reason),
        Cause::Typing {
            demand: Demand::Counter(_),
            ..
        } => "set the counter to a number below the bound before the loop",
        Cause::Typing {
            demand: Demand::Number { .. },
            ..
        } =>
            "write numbers alone in a loop's body; set pointers before it, and index by `payload_byte`, `var_get`, `var_put`, `reply_byte` or in a function that it calls",
        _ => rule_remedy(diagnosis.fault.rule),
    }
}

/// Returns the change to make in an image that breaks this rule.
///
/// For some causes `remedy` has a more exact change.
fn rule_remedy(rule: Rule) -> &'static str {
    match rule {
        Rule::Format => "write the image by `fcasm image`, and hand it on whole",
        Rule::SlotCount =>
            "write 1 to 512 slots, in the second version 1024 at most; a wide load takes two",
        Rule::VarsSize => "give `--vars` a multiple of 8, at most 256",
        Rule::Budget => "give `--budget` a number from 1 to 65536",
        Rule::Reserved => "write the image by `fcasm image`",
        Rule::Opcode => "write the program as a text for `fcasm image`",
        Rule::Register => "name one of r0 to r10",
        Rule::FramePointer => "write another register: r10 is the frame's end",
        Rule::Field => "clear the field, or write the program as a text for `fcasm image`",
        Rule::WideLoad => "put the high half of the value into a slot behind it, with nothing else",
        Rule::JumpTarget =>
            "name a label in front of an instruction, or count the offset from the slot behind the jump; a wide load counts two",
        Rule::BackwardJump =>
            "write the turns out, or in the second version give it the form of a counted loop",
        Rule::Boundary =>
            "end each function with `exit`, and call a function where you would jump into it",
        Rule::BackwardCall => "put a function behind all that call it: none calls itself",
        Rule::FrameDepth => "put the text of an inner function in place of its call",
        Rule::Cost =>
            "give a greater budget, 65536 at most, as `--budget auto` does, or shorten the longest path; a function called twice costs twice",
        Rule::Helper => "call one of the helpers 1 to 7",
        Rule::UnsetRegister =>
            "set it on each way that leads here; r1 to r5 are unset after each call, r0, r4 (in the first version) and r5 to r9 at the program's start, r0 and r6 to r9 at a function's; in a loop what its body writes is unset, but for numbers that were numbers before it, and r1 to r5 where it calls",
        Rule::OperandKind =>
            "a load or store needs a pointer as its base; of arithmetic only `mov64`, `add64` and `sub64` take one; keep numbers and pointers in registers of their own",
        Rule::Access =>
            "keep it in the region: the request's bytes 0 to 1103, the readings' 0 to 63, a frame's -256 to -1, as many variables as `--vars` says; compare an index first, so that its greatest value lies in it",
        Rule::RequestStore => "store into the stack frame or the variables",
        Rule::PointerStore => "store numbers; keep a pointer in r6 to r9",
        Rule::ExitValue => "set r0 to a number on each way to the exit",
        Rule::PointerStep => "bound the number first, by a jump or by `and64`",
        Rule::HelperArgument =>
            "keep numbers and pointers in registers of their own; bound r2, so that the greatest number of bytes lies in the region",
        Rule::LoopState =>
            "set the counter to a number below the bound before the loop; write numbers alone in its body, and pointers before it",
    }
}

/// Returns the fault of a line with this mistake, in words.
pub fn mistake_text(mistake: Mistake) -> &'static str {
    match mistake {
        Mistake::UnknownWord => "the first word names no instruction, or the text isn't UTF-8",
        Mistake::Operand =>
            "too few operands or too many, or one of another sort: no register, no number, no label that a line has, r10 where it would be written",
        Mistake::OutOfRange => "a number out of its range, or a width that `movsx` doesn't have",
    }
}

/// Returns the change to make in a line with this mistake.
pub fn correction(mistake: Mistake) -> &'static str {
    match mistake {
        Mistake::UnknownWord => "write an instruction's name first",
        Mistake::Operand =>
            "give what the form has, in its order: DST is r0 to r9, SRC and BASE are r0 to r10; one `NAME:` a line, without a space before `:`",
        Mistake::OutOfRange =>
            "offsets are -32768 to 32767, immediates -2147483648 to 2147483647, the number of `lddw` 0 to 18446744073709551615",
    }
}
