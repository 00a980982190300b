//! Decoding: from bytes to instructions.
ghost use Rattle.std.specs.Prelude.{IfErr, IfOk, List, MatchResult, None, Some, length, ◌+◌, ◌*◌, ◌≡◌, ◌≤◌};
ghost use Rattle.fc_isa.specs.Encoding.{IsDecodeError, Spells, fault_at, first_fault, insn_at, is_second, decoded_program, whole_fields_at};
ghost use Rattle.fc_isa.specs.declared.insn.Insn.{Insn};

use crate::fields::Fields;
use crate::insn::{Insn, Jump, Operand};
use crate::program::is_wide_load;
use crate::rule::{Fault, Rule};
use std::alloc::{AllocError, Global};

/// The reason why bytes weren't decoded.
#[derive(Clone, Copy, Debug, PartialEq, Eq)]
pub enum DecodeError {
    /// The first faulty slot, with the least rule that the slot breaks.
    Fault(Fault),
    /// Memory for the program can't be allocated.
    NoMemory,
}

impl From<AllocError> for DecodeError {
    ghost use Rattle.fc_isa.specs.declared.decoder.DecodeError.TheVariants.{NoMemory};

    ghost from_gives = { λ _ e. e ≡ NoMemory };

    fn from(_error: AllocError) -> Self {
        DecodeError::NoMemory
    }
}

/// Decodes a program from its slots, eight bytes each.
///
/// # Errors
/// Returns the fault of the first slot that encodes no instruction. Fewer than eight bytes at the
/// end break rule 10. Returns `NoMemory` if memory can't be allocated.
pub fn decode(alloc: Global, bytes: &[u8]) -> Result<Vec<Insn>, DecodeError>
    ensures program { IfOk result (λ v. Spells bytes.now v.items) }
    ensures spelled { (p : List Insn) → Spells bytes.now p → MatchResult result (λ v. v.items ≡ p) (λ e. e ≡ DecodeError.NoMemory) }
    ensures fault { IfErr result (IsDecodeError bytes.now) }
    ensures function { IfOk result (λ v. (v.items ≡ decoded_program bytes.now) × (first_fault bytes.now ≡ None)) }
{
    // The checker must see the parts of an instruction if one is moved into a collection.
    let _parts: (Option<Operand>, Option<Jump>) = (None, None);
    let slots = bytes.len() / 8;
    let mut program = Vec::with_capacity(alloc, slots)?;
    let mut second = false;
    for slot in 0..slots {
        match decode_slot(bytes, slot, second) {
            Ok(insn) => {
                second = is_wide_load(&insn);
                program.push_reserved(insn);
            }
            Err(rule) => return Err(DecodeError::Fault(Fault { rule, slot })),
        }
    }
    let rest = bytes.len() % 8;
    if rest != 0 {
        return Err(DecodeError::Fault(Fault {
            rule: Rule::WideLoad,
            slot: slots,
        }));
    }
    Ok(program)
}

/// Returns the instruction of a slot, or the least rule that it breaks.
///
/// If `second` is `true`, the slot is the second half of a wide load, and the result is
/// `WideSecond`. Such a slot breaks no rule: it was checked together with the load.
fn decode_slot(bytes: &[u8], slot: usize, second: bool) -> Result<Insn, Rule>
    requires whole { 8 * slot + 8 ≤ length bytes.now }
    requires second { second ≡ is_second bytes.now slot }
    ensures insn { IfOk result (λ i. (fault_at bytes.now slot ≡ None) × (i ≡ insn_at bytes.now slot)) }
    ensures fault { IfErr result (λ r. fault_at bytes.now slot ≡ Some r) }
{
    if second {
        return Ok(Insn::WideSecond);
    }
    let fields = Fields::read(&bytes[8 * slot..8 * slot + 8]);
    let next = fields_at(bytes, slot + 1);
    match fields.fault(&next) {
        Some(rule) => Err(rule),
        None => Ok(fields.insn(&next)),
    }
}

/// Returns the fields of a slot, or `None` if the bytes end before the slot's end.
///
/// The slot follows one that is decoded, so it may be a wide load's second half.
fn fields_at(bytes: &[u8], slot: usize) -> Option<Fields>
    requires { 8 * slot ≤ length bytes.now }
    ensures { result ≡ whole_fields_at bytes.now slot }
{
    if 8 * slot + 8 <= bytes.len() {
        Some(Fields::read(&bytes[8 * slot..8 * slot + 8]))
    } else {
        None
    }
}
