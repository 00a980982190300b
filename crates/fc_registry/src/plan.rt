//! Updates that a server with a store (`fc_store`) saves before it changes a slot.
//!
//! No function of this module changes a shard.
ghost use Rattle.std.specs.Prelude.{◌≡◌, ◌+◌, ◌<◌, ◌≤◌, None, IfSome};
ghost use Rattle.fc_registry.specs.Calls.{WouldWrite, commit_of, install_in, remove_from};
ghost use Rattle.fc_registry.specs.Changes.{Committed};
ghost use Rattle.fc_registry.specs.Plans.{HasImage, IsPlan, IsPlanned};
ghost use Rattle.fc_registry.specs.Slots.{IsOwned, last_serial, slot_in};

use crate::shard::Shard;
use crate::slot::LAST_SERIAL;
use fc_machine::Outcome;
use fc_store::{ProgramUpdate, SlotUpdate};
use fc_ticket::{InitialVars, SlotNumber, Ticket};
use fc_verify::Verified;

/// Returns the update of an install, or `None` if the slot is at its last serial.
///
/// The update has the variables that the install leaves, and `image`, which should be an image of
/// `program`.
pub fn plan_install<'a>(
    shard: &'a Shard,
    slot: SlotNumber,
    image: &'a [u8],
    program: &Verified,
    initial: InitialVars,
) -> Option<SlotUpdate<'a>>
    requires { IsOwned shard.now slot }
    ensures plan { let old = slot_in shard.entry.now slot in
        IsPlan old slot (install_in old program.now initial).changes result }
    ensures image { IfSome result (λ u. HasImage image.now u.program) }
{
    let vars = shard.vars_installed(slot, program, initial);
    plan(shard, slot, ProgramUpdate::Install(image, vars))
}

/// Returns the update of a removal.
///
/// Returns `None` if the slot has no program, or is at its last serial.
pub fn plan_removal<'a>(shard: &Shard, slot: SlotNumber) -> Option<SlotUpdate<'a>>
    requires { IsOwned shard.now slot }
    ensures { IsPlan (slot_in shard.entry.now slot) slot (remove_from (slot_in shard.entry.now slot)).changes result }
{
    if shard.version(slot).is_none() {
        return None;
    }
    plan(shard, slot, ProgramUpdate::Remove)
}

/// Returns the update of a commit, or `None` if the commit wouldn't write.
pub fn plan_commit<'a>(
    shard: &Shard,
    outcome: &Outcome<'a>,
    ticket: &Ticket<'_>,
) -> Option<SlotUpdate<'a>>
    requires { IsOwned shard.now ticket.now.origin.slot }
    ensures none { result ≡ None → WouldWrite outcome.now ticket.now (slot_in shard.entry.now ticket.now.origin.slot) → ⊥ }
    ensures writes { IfSome result (λ _. WouldWrite outcome.now ticket.now (slot_in shard.entry.now ticket.now.origin.slot)) }
    ensures some { IfSome result (IsPlanned (slot_in shard.entry.now ticket.now.origin.slot) ticket.now.origin.slot (Committed (commit_of ticket.now))) }
{
    if !shard.would_write(outcome, ticket) {
        return None;
    }
    let slot = ticket.origin().slot;
    Some(SlotUpdate {
        slot: slot.number(),
        serial: shard.serial(slot) + 1,
        program: ProgramUpdate::Commit(outcome.after()),
    })
}

// Returns an update at the slot's next serial, or `None` if the slot is at its last serial.
fn plan<'a>(shard: &Shard, slot: SlotNumber, program: ProgramUpdate<'a>) -> Option<SlotUpdate<'a>>
    ensures none { result ≡ None → last_serial ≤ (slot_in shard.entry.now slot).serial }
    ensures some { IfSome result (λ u. ((slot_in shard.entry.now slot).serial < last_serial)
        × (u ≡ record { slot = slot; serial = (slot_in shard.entry.now slot).serial + 1; program = program.entry })) }
{
    let serial = shard.serial(slot);
    if serial >= LAST_SERIAL {
        return None;
    }
    Some(SlotUpdate {
        slot: slot.number(),
        serial: serial + 1,
        program,
    })
}
