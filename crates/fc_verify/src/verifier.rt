//! Verification: from an image to a program that can be run.
ghost use Rattle.std.specs.Prelude.{◌≡◌, ◌≤◌, length, IfOk, IfErr};
ghost use Rattle.fc_kinds.specs.Runnable.{IsRunnable};
ghost use Rattle.fc_verify.specs.Accepted.{Accepts, IsAccepted, slots_of};
ghost use Rattle.fc_verify.specs.Judged.{judged};
ghost use Rattle.fc_verify.specs.Refusals.{IsRefusal};
ghost use Rattle.fc_verify.specs.Stages.{IsHeadOf, IsCodeOf};

use crate::lowering::lower;
use crate::pass::typed;
use crate::refusal::Refusal;
use crate::verified::Verified;
use fc_image::laws::shape_fault_is_first;
use fc_image::{HEADER_SIZE, Head, head, shape};
use fc_isa::laws::faultless_bytes_spell;
use fc_isa::{Insn, decode};
use std::alloc::Global;

/// Verifies an image.
///
/// An image consists of a header of sixteen bytes, and slots of eight bytes each.
///
/// # Errors
/// Returns the first rule that the image breaks, with its slot. If only the typing is missing,
/// returns some rule from 20 to 28 and a slot of the program. Returns `NoMemory` if memory can't be
/// allocated, but only for an image whose header breaks no rule.
pub fn verify(alloc: Global, image: &[u8]) -> Result<Verified, Refusal>
    ensures accepted { IfOk result (IsAccepted image.now) }
    ensures judged { IfOk result (λ v. judged image.now ≡ Accepts v) }
    ensures runs { IfOk result IsRunnable }
    ensures refused { IfErr result (IsRefusal image.now) }
{
    let head = read_head(image)?;
    let room = Vec::with_capacity(alloc, head.count() as usize)?;
    let ops = Vec::with_capacity(alloc, head.count() as usize)?;
    let slots = Vec::from_slice(alloc, slots(image))?;
    let code = read_code(alloc, image, &head)?;
    shape_fault_is_first();
    let cost = shape(&head, &code)?;
    let states = typed(head.version(), head.vars_size(), &code, room)?;
    let ops = lower(head.version(), &code, ops);
    Ok(Verified::new(&head, code, ops, slots, cost, &states))
}

/// Returns the image's header.
///
/// # Errors
/// Returns the first rule of the header that the image breaks.
fn read_head(image: &[u8]) -> Result<Head, Refusal>
    ensures head { IfOk result (IsHeadOf image.now) }
    ensures refused { IfErr result (IsRefusal image.now) }
{
    match head(image) {
        Ok(head) => Ok(head),
        Err(fault) => Err(Refusal::Broken(fault)),
    }
}

/// Returns the program that the slots encode.
///
/// `head` is the image's header, which breaks no rule.
///
/// # Errors
/// Returns the first slot that breaks a rule, 6 to 10, or `NoMemory` if memory can't be allocated.
fn read_code(alloc: Global, image: &[u8], head: &Head) -> Result<Vec<Insn>, Refusal>
    requires { IsHeadOf image.now head.now }
    ensures code { IfOk result (λ code. IsCodeOf image.now code.items) }
    ensures refused { IfErr result (IsRefusal image.now) }
{
    let slots = slots(image);
    faultless_bytes_spell(slots);
    Ok(decode(alloc, slots)?)
}

/// Returns the bytes after the header.
pub(crate) fn slots(image: &[u8]) -> &[u8]
    requires { 16 ≤ length image.now }
    ensures { result.now ≡ slots_of image.now }
{
    &image[HEADER_SIZE..]
}
