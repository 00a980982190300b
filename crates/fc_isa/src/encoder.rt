//! Encoding: from instructions to bytes.
ghost use Rattle.std.specs.Prelude.{IfOk, true, ◌++◌, ◌≡◌};
ghost use Rattle.std.specs.List.{flat_map};
ghost use Rattle.fc_isa.specs.Encoding.{bytes_of_fields, encoded, insn_slots};
ghost use Rattle.fc_isa.specs.Program.{is_program};

use crate::fields::Fields;
use crate::insn::Insn;
use std::alloc::{AllocError, Global};

/// Encodes a program, eight bytes for each slot (RFC 9669, section 3).
///
/// # Errors
/// Returns `AllocError` if memory can't be allocated.
pub fn encode(alloc: Global, program: &[Insn]) -> Result<Vec<u8>, AllocError>
    requires { is_program program.now ≡ true }
    ensures { IfOk result (λ v. v.items ≡ encoded program.now) }
{
    let mut bytes = Vec::with_capacity(alloc, program.len().saturating_mul(8))?;
    for insn in program {
        write(&mut bytes, *insn)?;
    }
    Ok(bytes)
}

/// Appends the bytes of an instruction's slots.
///
/// A wide load appends both its slots, and `WideSecond` appends nothing.
///
/// # Errors
/// Returns `AllocError` if memory can't be allocated. The contract then doesn't say what `bytes`
/// contains.
fn write(bytes: &mut Vec<u8>, insn: Insn) -> Result<(), AllocError>
    ensures { IfOk result (λ _. bytes.new.items ≡ bytes.old.items ++ flat_map bytes_of_fields (insn_slots insn)) }
{
    match insn {
        Insn::WideSecond => Ok(()),
        Insn::LoadWide { value, .. } => {
            bytes.extend_from_slice(&Fields::of(&insn).bytes())?;
            bytes.extend_from_slice(&Fields::second_half_of(value).bytes())
        }
        _ => bytes.extend_from_slice(&Fields::of(&insn).bytes()),
    }
}
